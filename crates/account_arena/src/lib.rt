//! Accounts by numbers: how code holds the accounts of the terms that a log leaves on its way.
//!
//! An `Arena` gives each account a number; an account holds the numbers of its parts in sequences that share what they have in common.
//! `specs/` has what the numbers stand for.
#![tactic(auto)]

mod arena;
mod numbers;
mod parts;

pub use arena::{Arena, Node};
pub use numbers::{NoFacts, Number, RowItem, Visit};
pub use parts::Cut;
