//! The events of a log, fed in pieces.
//!
//! `specs/` says how a log is cut into lines, what a line says, what the events of a log are, and which fault comes first.
#![tactic(auto)]

mod event;
mod json_line;
mod line;
mod line_memory;
mod log_events;
mod meaning;
mod numbering;
mod object;
mod reader;
mod text_line;

pub use event::{LogFault, LogForm, Version};
pub use json_line::{event_of_members, is_event_member, text_at};
pub use line_events::{LineEvent, SharedLabel};
pub use log_events::LogEvents;
pub use meaning::LineMeaning;
pub use numbering::{NumberedEvent, Numbering};
pub use object::name_of;
pub use reader::{LineReader, LogReader};
pub use text_line::event_of_tokens;
