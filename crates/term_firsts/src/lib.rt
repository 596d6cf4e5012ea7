//! Which events may come first in a term: the labels of all that can be taken from it, and perhaps of some more.
//!
//! `first_labels` looks into the term once, and asks no permission but that of loops and nodes of nets. `specs/` has what it comes to.
#![tactic(auto)]

mod children;
mod firsts;
mod search;

pub use firsts::first_labels;
