//! The terms of the operands of a chart's choices: a law.
#![tactic(auto)]

pub mod laws;
