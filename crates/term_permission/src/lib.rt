//! Permission and ending of terms: what is left of a term where no event of a block may happen, and whether it may end.
//!
//! A term stands for a set of patterns. `permit` leaves those that avoid a block, and a term may end where it has the empty
//! pattern; `fresh_loop` and `fresh_walk` make loops before their first turn and walks at their start. The rest is what term_step
//! takes events out by: what permission leaves of the parts of a term, and terms put together again in normal form. The module
//! `laws` says which terms all this is asked of.
#![tactic(auto)]

mod asking;
mod blocks;
mod finishes;
mod fresh;
pub mod laws;
mod left;
mod loops;
mod parts;
mod passing;
mod permission;
mod reaching;
mod remnant;
mod row_end;
mod ties;

pub use asking::{ask_parts, ask_term};
pub use blocks::widened;
pub use finishes::may_end;
pub use fresh::{fresh_loop, fresh_walk};
pub use left::{Joint, Left, PartsLeft, kept, put_in, replaced};
pub use loops::loop_end;
pub use parts::{LoopBlock, LoopParts, WalkParts};
pub use permission::{keep_parts, permit, permit_parts, permit_term, widened_walk};
pub use reaching::reached_nodes;
pub use remnant::Remnant;
pub use row_end::RowEnd;
pub use ties::retied;
