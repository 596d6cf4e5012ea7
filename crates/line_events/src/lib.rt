//! Events of logs with their lines: what the reader of a log hands out, and what a judge of a chart's term takes.
#![tactic(auto)]

mod event;

pub use event::{LineEvent, SharedLabel};
