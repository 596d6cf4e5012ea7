//! Sets of residual terms, and the stores of them.
//!
//! A `TermSet` is a set of terms with its weight, and `gather` says what an event leaves of it. `Residuals` is the plain store. A
//! `SetMemory` remembers the light sets that were met and the moves between them, and a `Pool` is the store that goes by it: an event
//! of a known kind costs one look into a table. Both are a `Store` of trace_judge, so a judge says the same over either.
#![tactic(auto)]

mod bounds;
mod memory;
mod pool;
mod residuals;
mod set_key;
mod subsets;
mod successors;
mod term_set;
mod words;

pub use bounds::Bounds;
pub use memory::SetMemory;
pub use pool::Pool;
pub use residuals::Residuals;
pub use set_key::SetKey;
pub use successors::{gather, one_may_end};
pub use term_set::TermSet;
