//! The judge of many sessions in one log, each by the same term: it ties the reader of a log of sessions to a track for each key.
//!
//! `specs/` says which sessions a log has, what the judge was fed, and what its answers say of the bytes.
#![tactic(auto)]

mod session;
mod sessions;
mod taking;
mod tracks;
mod verdict;

pub use sessions::Sessions;
pub use verdict::{SessionVerdict, SessionVerdictList};
