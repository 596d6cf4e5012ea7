//! What the levels of a chart are given from around them: where their gates lead, and what decomposition makes of their events.
#![tactic(auto)]

mod called;
mod chart_table;
mod decomposed;
mod far_ends;
mod joins;
mod refined_far;
mod refining;
mod ways;

pub use called::CalledGates;
pub use chart_table::{ChartTable, called_gates, chart_named};
pub use decomposed::{Decomposed, Refinement};
pub use far_ends::{FarAt, FarEnds, FarMap, changed_far, owned_far};
pub use joins::JoinTable;
pub use refined_far::{inner_ends, refined_ends};
pub use refining::{Refining, refinings_of};
pub use ways::{Given, Level, Way, Ways, leads_to};
