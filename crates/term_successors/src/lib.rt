//! What is left of terms after an event with a label: definitions in `specs/`, and facts on lists of terms as sets in `proofs/`. What
//! steps sets of terms, and what judges by them, speak of the same.
#![tactic(auto)]
