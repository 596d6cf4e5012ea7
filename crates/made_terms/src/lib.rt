//! What is made of an expansion, the term and its nets, is sound: laws alone.
#![tactic(auto)]

pub mod laws;
