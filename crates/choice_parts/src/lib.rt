//! The parts of a chart's expansion between which its choices are.
#![tactic(auto)]

mod behind;
mod copies;
mod rows;

pub use behind::part_behind;
pub use rows::{left_row_in, operands_in, pairs_in, row_in};
