//! The rules on decomposed instances and the charts that refine them.
#![tactic(auto)]

mod chart_table;
mod coregions;
mod environment;
mod faults;
mod inside;
mod judging;
mod local;
mod mismatching;
mod plain;
mod refined;
mod sharing;
mod taking;
pub mod worked;

pub use coregions::local_coregion;
pub use faults::{RefinementPlaces, RefinementRule, refinement_places};
