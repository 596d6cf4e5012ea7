//! The rules on the graphs of high-level charts, by their text: each with its earliest place, and none exactly where none is broken.
#![tactic(auto)]

mod ends;
mod graphs;
mod label_faults;
pub mod laws;
mod lines;

pub use ends::endless_line;
pub use graphs::{chart_graphs, graphs_to_end};
pub use label_faults::label_fault;
pub use lines::further_line;
