//! When a term means a set of unfoldings, and by which rules: definitions and laws.
#![tactic(auto)]

pub mod laws;
