//! Tables of labels: each label once, with the number under which terms name it.
#![tactic(auto)]

mod code;
mod key;
mod kind;
pub mod laws;
mod table;
mod texts;

pub use kind::kind_rank;
pub use table::LabelTable;
