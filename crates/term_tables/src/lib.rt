//! The tables that terms name: labels and nets, each by its number.
//!
//! `Nets` holds them. It says which label or net a number stands for, whether a term names only what it has, and which
//! instances a term touches with those of its nets.
#![tactic(auto)]

mod fits;
mod nets;
mod touched;

pub use nets::Nets;
