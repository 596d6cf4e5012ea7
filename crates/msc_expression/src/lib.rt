//! Reference expressions and graphs of high-level charts, as they are read from tokens.
#![tactic(auto)]

mod bounds;
mod expressions;
mod graphs;
mod laws;
mod level;

pub use bounds::{Bounds, loop_bounds};
pub use expressions::expression;
pub use graphs::graph;
pub use laws::{expressions_are_exact, graphs_are_exact};
pub use level::open;
