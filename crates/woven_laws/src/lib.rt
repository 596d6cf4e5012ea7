//! Laws of what charts are woven to, and of the charts whose forms are built.
#![tactic(auto)]

pub mod laws;
