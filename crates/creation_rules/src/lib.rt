//! The rules on creations and stops of instances, by the text of a chart.
#![tactic(auto)]

mod creating;
mod placing;
mod stopping;
pub mod worked;

pub use creating::{created_twice, decomposed};
pub use placing::misplaced_creation;
pub use stopping::behind_stop;
