//! What joins between two gates add to the sizes of charts, counted before anything is expanded.
#![tactic(auto)]

mod counting;
pub mod laws;
mod order;
mod sizes;

pub use sizes::join_sizes;
