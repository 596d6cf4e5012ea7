//! The events of a decomposed instance, and which event of its refining chart stands for each.
#![tactic(auto)]

mod counts;
mod keys;
mod matching;
mod nodes;
mod placed;
mod refinements;

pub use matching::{EventMatch, matches_of, mismatches};
pub use refinements::are_refined;
