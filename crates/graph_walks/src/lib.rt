//! The nets of graphs and the walks through them: laws of what they mean, and the code that makes them.
#![tactic(auto)]

pub mod laws;
mod nets;

pub use nets::{add_graph, closed_graph, judged_graph};
