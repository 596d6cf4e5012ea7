//! Charts that are written in an order in which their events can happen: their expansions needn't be drawn to know it.
#![tactic(auto)]

pub mod laws;
mod rising;

pub use rising::is_rising;
