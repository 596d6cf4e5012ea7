//! Accounts of the terms that a log leaves on its way: definitions, and laws about them.
#![tactic(auto)]

pub mod laws;
