//! The terms of charts are unbegun: laws alone.
#![tactic(auto)]

pub mod laws;
