//! The judge of a log by a chart: the chart's term, made of its expansion, and a judge of a log by what is left of it.
//!
//! `specs/` says which term a chart has, what verdict a log has by a chart, and what a judge says of the bytes that it was fed.
#![tactic(auto)]

mod judge;
pub mod laws;
mod next;
mod term;

pub use judge::ChartJudge;
pub use next::Next;
pub use term::term_of;
