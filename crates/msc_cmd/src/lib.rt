//! The command: from its words and what a shelf holds to the bytes and the status that it answers.
//!
//! `specs/` says what the outcome of a request is, and what is printed.
#![tactic(auto)]

mod answer;
mod checking;
mod choices;
mod command;
mod document;
mod document_text;
mod intake;
mod listing;
mod log_reading;
mod opening;
mod printing;
mod reading;
mod sample_log;
mod sampling;
mod session_reading;
mod sessions;

pub use command::run;
