//! Sets of small numbers as words of bits: blocks of instances and events, and sets of node numbers.
#![tactic(auto)]

mod block;
mod node_set;
mod sets;
mod words;

pub use block::Block;
pub use node_set::NodeSet;
