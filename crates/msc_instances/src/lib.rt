//! The instances of a basic chart, and the faults of its names.
#![tactic(auto)]

mod again;
mod levels;
mod naming;
mod notes;
mod parts;
mod walk;

pub use levels::chart_levels;
pub use naming::{ChartNames, chart_names};
pub use notes::{Note, NoteList};
pub use parts::{NamedPart, PartColumn, PartList};
pub use walk::chart_notes;
