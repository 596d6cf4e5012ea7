//! From a document's tree to the table of its woven charts, or to the first rule on charts that it breaks.
#![tactic(auto)]

mod acceptance;
mod accepted;
mod cycles;
mod deciding;
mod declaring;
mod gates;
mod graphs;
mod limits;
mod links;
mod names;
mod parts;
mod reading;
mod refinements;
mod singles;
mod tables;
mod walks;

pub use acceptance::accept;
pub use accepted::{Accepted, DocFault};
