//! Unfoldings of charts and their runs: definitions alone, in `specs/`. What a log is judged by.
#![tactic(auto)]
