//! The text of a chart as one list, in its order: what stands in it, and where.
#![tactic(auto)]

mod noting;
mod passage;
mod walk;

pub use noting::{TextRule, earliest_place, note_if, note_text};
pub use passage::{Passage, Scope, Side, Standing};
pub use walk::chart_text;
