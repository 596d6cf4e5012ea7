//! The pairs of a tie as a persistent list, which finds a pair by the numbers of its ends. Terms hold their ties by it.
//!
//! A contract sees the plain list of the pairs.
#![tactic(auto)]

mod facts;
mod list;
mod search;
mod tie;

pub use list::TieList;
pub use tie::Tie;
