//! What permission and taking do to terms: their definitions, and their laws.
//!
//! `specs/` says what permission by a block leaves of a term, what is left of it after an event, and when it may end, all by
//! recursion on the tree of a term. The module `laws` says that this is exactly so for the patterns that a term stands for,
//! and what is kept.
#![tactic(auto)]

pub mod laws;
