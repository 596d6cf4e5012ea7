//! What is printed: verdicts, sessions, samples, faults, lists of charts, instances and choices, and how a text is written to a sink.
//!
//! `specs/` has each text in its bytes, plain and as JSON.
#![tactic(auto)]

mod choices;
mod emitting;
mod fault;
mod lines;
mod lists;
mod next;
mod sessions;
mod texts;

pub use choices::{choice_line, choices_end};
pub use emitting::emit;
pub use fault::{Fault, fault_text};
pub use lists::{chart_list_text, instance_list_text};
pub use next::next_text;
pub use sessions::{session_line, sessions_end};
pub use texts::{accepted_text, sample_text, verdict_text};
