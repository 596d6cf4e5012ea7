//! What nodes of terms store of their contents, and the order of what terms are made of.
#![tactic(auto)]

mod facts;
mod order;

pub use facts::{Facts, Ranges, Span};
pub use order::{compare_counts, compare_maybe};
