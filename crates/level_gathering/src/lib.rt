//! Basic charts as they are gathered from their pieces, whatever rules they break, with the references of each level.
#![tactic(auto)]

mod charts;
mod gathering;
pub mod laws;
mod references;

pub use charts::{GatheredCharts, gathered_charts};
pub use gathering::gathered_level;
pub use references::{ReferenceList, ReferenceLists};
