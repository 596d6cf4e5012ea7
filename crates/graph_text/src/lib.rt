//! The text of a high-level chart as one list, in its order: its graph, the lines of that, and behind a line with frames those, in turn.
#![tactic(auto)]

mod noting;
mod part;
mod walk;

pub use noting::{GraphRule, note_graph};
pub use part::GraphPart;
pub use walk::graph_text;
