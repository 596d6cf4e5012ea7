//! The choices of a chart that several instances make, over the terms of their operands.
#![tactic(auto)]

mod choice;
mod instance;
pub mod laws;
mod listing;
mod makers;
mod tables;
mod walk;

pub use choice::{Choice, ChoiceList};
pub use listing::choices;
