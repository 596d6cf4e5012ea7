//! Facts on lists and bools that std lacks: lemmas alone, in `proofs/`, which proofs of the crates above cite.
#![tactic(auto)]
