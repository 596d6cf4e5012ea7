//! The choices of basic charts, and the instances that make them: definitions, and laws about them.
#![tactic(auto)]

pub mod laws;
