//! From the words of a command to the request that they make, by clap.
//!
//! `specs/` says which words are a request.
#![tactic(auto)]

mod commands;
mod numbers;
mod request;
mod requests;

pub use request::{MOST_SEED, MOST_TURNS, Request, WordFault};
pub use requests::request_of;
