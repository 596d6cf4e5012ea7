//! The term of an expansion, made over tables of nets: their contracts say which term it is, and which nets its walks append.
#![tactic(auto)]

pub mod laws;
mod rows;
mod runs;
mod terms;
mod turns;
mod walks;

pub use terms::{judged_term_of, term_of};
