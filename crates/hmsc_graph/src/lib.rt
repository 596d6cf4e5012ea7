//! Graphs of high-level charts: made from their lines, and searched for walks.
//!
//! A graph has nodes and edges between them; `specs/` says which walks lead through it, and tests whether one does.
#![tactic(auto)]

mod ending;
mod labels;
pub mod laws;
mod net;
mod search;
mod shape;
mod spot;
mod walks;
mod ways;

pub use ending::{endless, endless_nodes};
pub use net::{Net, NetFault};
pub use search::Traversal;
pub use shape::{Shape, ShapeLine, ShapeLines};
pub use spot::{Goal, Spot};
pub use walks::{has_walk, leads, reach, reach_back};
pub use ways::way_through;
