//! What the charts of a table say of gates: of the inner events of each gate of a chart, and of the called gates of a level.
#![tactic(auto)]

mod expressions;
mod fact_map;
mod facts;
mod gate_search;
mod inner_facts;
mod kept;
mod level;
mod levels;
mod messages;
mod named;
mod tables;

pub use facts::GateFacts;
pub use inner_facts::{LevelFacts, expression_facts, level_facts};
pub use level::{LevelGates, level_gates};
pub use messages::MessageText;
pub use tables::{GateTables, gate_tables};
