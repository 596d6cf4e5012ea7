//! Whether a term has a finished pattern without events, told by the definition of patterns alone: no event is taken, and no
//! permission asked.
//!
//! `outline` gives each part of a term a number, so that nothing here goes down a term by recursion. `emptiness` tells of each.
#![tactic(auto)]

mod emptiness;
pub mod laws;
mod outline;

pub use emptiness::{can_be_empty, empty_parts};
pub use outline::Outline;
