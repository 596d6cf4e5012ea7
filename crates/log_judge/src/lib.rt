//! The judge of a log by a chart's term, over any store: it ties the reader of logs to a track.
//!
//! `specs/` says what a judge was fed, and what its answers say of the bytes.
#![tactic(auto)]

mod fault;
mod judge;
mod numbers;
mod taking;

pub use fault::{JudgeFault, fault_of};
pub use judge::{Ended, Judge};
pub use numbers::TableNumbers;
