//! The expansion of a chart of a table: all its events, with those of the charts that it names, as a tree.
#![tactic(auto)]

mod above;
mod charts;
mod events;
mod gate_numbers;
mod gate_ties;
pub mod laws;
mod made;
mod numbering;
mod parts;
mod past_refining;
mod shown;
mod ties;

pub use charts::{ExpandedChart, expansion_of};
pub use numbering::Numbering;
