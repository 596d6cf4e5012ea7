//! Documents of charts, as they are read from tokens.
//!
//! `specs/` says how a document is written, production by production, and has the readers that the productions prove
//! exact.
#![tactic(auto)]

mod chart;
mod closer;
mod document;
mod item;
mod items;
mod laws;
mod line_parts;
mod naming;
mod parsing;
mod part_reading;
mod reference;
mod starts;
mod statements;

pub use laws::{documents_are_exact, graphs_are_formed};
pub use parsing::parse;
pub use part_reading::read_by_parts;
