//! Terms of charts: their patterns and normal forms.
//!
//! A term is a process of a process algebra: it stands for a set of patterns, partial orders of events. `specs/` has the tree
//! of a term, its weight, its patterns and the normalising constructors.
#![tactic(auto)]

mod choices;
mod event;
mod joins;
pub mod laws;
mod list;
mod look;
mod term;
mod ties;

pub use choices::choice;
pub use event::Event;
pub use joins::{par, par_of, seq, seq_of};
pub use list::TermList;
pub use look::{Look, PartLook};
pub use term::{PartList, RowPart, Term, push_copies};
pub use ties::tied;
