//! The events of a log as the numbers of their labels in a chart's tables, gathered as the log is fed in pieces: 4 bytes an event.
//!
//! `specs/` says which number stands for a label that the tables lack.
#![tactic(auto)]

mod log;
mod taking;

pub use log::NumberedLog;
