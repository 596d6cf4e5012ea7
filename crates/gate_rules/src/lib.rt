//! The earliest places at which the charts of a table break the rules on gates, and what its levels have where it breaks none.
#![tactic(auto)]

mod caller;
mod claims;
mod faults;
mod judging;
mod known;
pub mod laws;
mod listing;
mod noted;
mod rejoining;
mod taking;

pub use faults::{GatePlaces, GateRule, gate_places};
