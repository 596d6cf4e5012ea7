//! The rules of documents by name: their texts, numbers and groups, the forms that aren't taken, and the first of several faults.
#![tactic(auto)]

mod first_fault;
mod rule;

pub use first_fault::{Broken, Numbered, broken_at, earlier_fault};
pub use rule::{Form, Rule};
