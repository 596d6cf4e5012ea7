//! One step back: the way down a term to the event by which a given term was left of it.
//!
//! `way_to` finds it, as term_step finds all that is left of a term, and ends at the first event that fits; `first_way` finds the first
//! that leaves anything. `specs/` has what a way is.
#![tactic(auto)]

mod way;

pub use way::{Way, first_way, way_to};
