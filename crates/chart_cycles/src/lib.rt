//! Which charts of a table have events that can't happen in any order, with all charts that they name.
#![tactic(auto)]

mod alone;
mod cycles;

pub use cycles::cyclic_charts;
