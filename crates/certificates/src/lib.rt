//! Certificates of runs: definitions, and laws about them.
#![tactic(auto)]

pub mod laws;
