//! The judge of many sessions in one log by a chart: each session's verdict is the verdict on the events of its key alone.
//!
//! `specs/` says what the sessions of a log are for a chart, and what the judge was fed.
#![tactic(auto)]

mod sessions;

pub use sessions::ChartSessions;
