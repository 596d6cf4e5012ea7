//! How charts of a table are listed: their kinds, and their instances.
#![tactic(auto)]

mod drawn_instances;
mod graph_names;
mod listing;

pub use listing::{is_graph, listed_count, listed_of};
