//! Certificates of the runs of a chart: a log that is read for their sake, and whether one holds for it.
//!
//! `specs/` says when a certificate holds for the events of a log by a chart.
#![tactic(auto)]

mod laws;
mod log;
mod run;

pub use laws::certificates_tell_runs;
pub use log::ChartLog;
pub use run::ChartRun;
