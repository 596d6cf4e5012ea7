//! Texts, names, labels, lists, places and limits: what nearly every crate stands on.
//!
//! `specs/` has the definitions of patterns, linear orders and runs.
#![tactic(auto)]

mod copies;
mod label;
mod limits;
mod list;
mod memory;
mod name;
mod name_table;
mod place;
mod text;
mod verdict;

pub use copies::{copy_name, copy_names, number_of};
pub use label::{
    Far, Kind, Label, LabelList, LabelRef, LabelRefs, Names, NumberList, Pair, PairList, Words,
};
pub use limits::Limits;
pub use list::Items;
pub use memory::NoMemory;
pub use name::{
    Name, NameRefused, is_letter_or_digit, is_name, is_reserved, is_text, is_word, is_word_byte,
};
pub use name_table::NameTable;
pub use place::{Place, comes_before, earlier_if, earlier_place};
pub use text::Text;
pub use verdict::Verdict;
