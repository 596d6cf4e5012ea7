//! What of a chart has no nesting: the heading, declarations, single events, coregions, conditions, shared lists and
//! joins; and the event of a line of a log, by the same productions.
//!
//! `specs/` has the productions, line by line. The readers, `specs/*Readers.antt`, follow the code.
#![tactic(auto)]

mod act;
mod address;
mod declaration;
mod event_parts;
mod events;
mod head;
mod head_parts;
mod joining;
mod laws;
mod log_event;
mod log_text;
mod orientation;
mod shared;

pub use declaration::{decl, declared, decls, heading};
pub use events::{coregion, single, starts_with_single, stop};
pub use head::heads;
pub use head_parts::Heads;
pub use joining::joins;
pub use laws::{declarations_are_exact, events_are_exact, shared_parts_are_exact};
pub use log_event::parse_event;
pub use log_text::parse_text;
pub use orientation::Orientation;
pub use shared::{condition, shared_in};
