//! The judge of events by a chart's term: what is left of the term after the events so far, and the verdict on them. It knows labels
//! and lines, and neither logs nor how sets of terms are held.
//!
//! A `Store` holds the set of residual terms within a budget, and a `Track` follows one list of events by it to a verdict. `specs/`
//! says what a set is, how an event changes it, and what verdict it gives.
#![tactic(auto)]

mod advance;
pub mod laws;
mod store;
mod track;

pub use store::{StepFault, Store};
pub use track::Track;
