//! Patterns with places as marks, and whether such a pattern is a run of a log.
//!
//! `mark` has the marks. `places`, `floors` and `ties` test them, each in one pass; `runs` puts the tests together.
#![tactic(auto)]

mod floors;
mod mark;
mod places;
mod runs;
mod ties;

pub use mark::Mark;
pub use runs::are_run;
