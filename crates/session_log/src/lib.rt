//! The events of a log of many sessions, fed in pieces.
//!
//! `specs/` says which events such a log has, and for how many sessions it has room. All else is as event_log says.
#![tactic(auto)]

mod copies;
mod keyed;
mod keyed_tokens;
mod keyed_values;
mod keys;
mod session_events;

pub use keyed::{KeyedEvent, KeyedLabel, KeyedNumberedEvent, SharedName};
pub use keys::{MOST_SESSIONS, SessionKeys};
pub use session_events::{SessionEvents, SessionReader};
