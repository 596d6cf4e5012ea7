//! The labels with which the unfoldings begin that a term means: a law.
#![tactic(auto)]

pub mod laws;
