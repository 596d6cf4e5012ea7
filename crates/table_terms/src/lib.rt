//! The term of a chart of a table, by its expansion.
#![tactic(auto)]

mod chart;
pub mod laws;

pub use chart::{ChartTerm, chart_of};
