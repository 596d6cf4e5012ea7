//! Orders of items, sorting, weaving and pairing, with nothing of charts in them.
#![tactic(auto)]

mod edge;
pub mod laws;
mod pairing;
mod sorting;
mod weaving;

pub use edge::Edge;
pub use pairing::pair_up;
pub use sorting::{Sorted, sort_edges};
pub use weaving::{text_order, weave, weave_entries};
