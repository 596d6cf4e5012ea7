//! Guesses of indexes by codes: where something stands that has this code, if it is there. A guess may be wrong, so whoever takes one
//! looks at what stands there.
#![tactic(auto)]

mod slots;

pub use slots::CodeSlots;
