//! The order of the events of an expansion: whether they can be ranked, or their order is cyclic.
#![tactic(auto)]

mod drawing;
mod ordering;
mod stops;
mod web;

pub use ordering::is_cyclic;
pub use stops::Stop;
