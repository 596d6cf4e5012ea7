//! The expansion of a chart as a tree: all events of the charts that it is made of, each with a number of its own.
//!
//! `specs/` has the same as a plain tree, which contracts see; `specs/Views.antt` says which tree each value stands for.
#![tactic(auto)]

mod tree;

pub use tree::{ExpandedEvent, Expansion};
