//! Laws of the ranks of what the nodes of graphs come to. Each is the contract of a function that does nothing.
#![tactic(auto)]

pub mod laws;
