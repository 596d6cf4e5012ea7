//! What a chart means: its woven body, and the unfoldings of the charts of a document.
//!
//! `specs/` has the definitions, and `proofs/` shows some charts with their unfoldings.
#![tactic(auto)]

mod body;
pub mod laws;
mod level_list;
pub mod worked;

pub use body::{
    Body, ChartEntry, EntryContent, EventNode, EventNodeList, InlineItem, Item, ReferenceItem,
};
pub use level_list::{BodyLevel, body_levels};
