//! What the charts of a document say of each other: which names lead to which charts, and where references break a rule.
#![tactic(auto)]

mod bit_row;
mod faults;
mod graph_links;
mod link;
mod linking;
mod ranks;
mod rows;
mod sets;
mod summary;
mod tables;
pub mod worked;

pub use bit_row::BitRow;
pub use faults::{ReferencePlaces, reference_places};
pub use link::{Link, LinkList};
pub use linking::chart_links;
pub use ranks::chart_ranks;
pub use rows::empty_rows;
pub use summary::{ChartSummary, chart_summaries, chart_summary};
pub use tables::{LinkTables, link_tables};
