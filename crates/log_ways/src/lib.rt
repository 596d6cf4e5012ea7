//! The way of a whole log that conforms: through which terms it leads, and by which alternatives each of its events is taken.
//!
//! `way_of_log` goes forward over the log with sets of residual terms, all of which are kept, and then back from a term of the last set
//! that may end, from each term to one of the set before it of which an event left it. `specs/` has what such a way is.
#![tactic(auto)]

mod history;
mod log_way;
mod steps;
mod terms;

pub use log_way::{LogWay, way_of_log};
pub use steps::StepBack;
