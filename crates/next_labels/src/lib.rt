//! Which labels may come next: those with which a set of residual terms goes on.
//!
//! `next_labels` asks each term of the set for the labels of its events that may come first, and lists those that the set goes on with
//! in the order of labels, which `specs/` states.
#![tactic(auto)]

mod asking;
pub mod laws;
mod listing;
mod marking;
mod order;

pub use listing::next_labels;
