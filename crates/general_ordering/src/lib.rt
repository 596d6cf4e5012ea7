//! The general ordering of the events of a level: which come before which by the names that they are given, and the faults of these
//! names.
#![tactic(auto)]

mod faults;
mod level_names;
mod named;
mod ordering;

pub use faults::{NameFaults, first_name_faults};
pub use ordering::level_pairs_of;
