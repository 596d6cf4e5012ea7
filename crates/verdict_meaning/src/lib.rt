//! What the residual terms of a chart's term, and the verdict by them, tell of the chart: definitions and laws.
#![tactic(auto)]

pub mod laws;
