//! Taking out: how a run of a term goes on after an event.
//!
//! A term stands for a set of patterns, and `after_each` takes a minimal event with a label out of those of each of some terms: what is
//! left is a set of terms. `has_after` says whether anything is left of one. `next_child` and `put` are one level of the way down to an
//! event and back up, for who looks for one event alone.
#![tactic(auto)]

mod all_after;
mod any_after;
mod ascent;
mod coded;
mod descent;
mod found;
mod gathered;
mod nodes;
mod search;

pub use all_after::after_each;
pub use any_after::has_after;
pub use ascent::{Frame, Taken, put, rebuilt};
pub use descent::{Step, behind, next_child};
pub use gathered::Gathered;
pub use nodes::node_at;
pub use search::taken_of;
