//! What each graph that is read has beside its tree: definitions alone, in `specs/`. What acceptance and terms rest on.
#![tactic(auto)]
