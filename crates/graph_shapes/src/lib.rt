//! The graphs of high-level charts as they are written, without the contents of their nodes, and the nets that they make.
#![tactic(auto)]

mod nets;
mod shapes;

pub use nets::graph_net;
pub use shapes::graph_shape;
