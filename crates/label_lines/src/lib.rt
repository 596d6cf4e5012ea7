//! Labels as a line of a log has them.
//!
//! `label_text` writes a label as the event of a line in the notation of charts. `specs/` has the text.
#![tactic(auto)]

mod line;

pub use line::label_text;
