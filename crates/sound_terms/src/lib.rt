//! When the terms of charts are sound: laws on linear orders, tables that grow, numbers and weights, by the form of a term.
#![tactic(auto)]

pub mod laws;
