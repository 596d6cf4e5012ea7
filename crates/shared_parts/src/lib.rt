//! The rules on the parts of items: parts that their columns don't share, and parts of one name that differ.
#![tactic(auto)]

mod alike;
mod expressions;
mod faults;
mod joins;
mod levels;
mod noting;
mod sharing;

pub use faults::{PartFaults, PartRule, part_faults};
