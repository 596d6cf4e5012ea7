//! Persistent sequences: balanced trees of shared nodes, in which each node stores facts of its items.
//!
//! A contract sees the plain list of the items.
#![tactic(auto)]

mod changes;
mod joining;
mod nodes;
mod reading;
mod search;
mod summed;

pub use nodes::{Look, Sequence};
pub use search::Search;
pub use summed::Summed;
