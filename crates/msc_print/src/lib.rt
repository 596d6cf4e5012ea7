//! Documents, printed in one canonical way.
//!
//! `specs/` has the tokens of each part, and how they are laid out.
#![tactic(auto)]

mod chart;
mod decl;
mod document;
mod event;
mod expression;
mod graph;
mod laws;
mod page;
mod parts;
mod shared;
mod statement;

pub use document::print_document;
pub use laws::{
    documents_read_back, expressions_read_back, layout_keeps_tokens_apart, places_are_not_printed,
    prints_stay,
};
