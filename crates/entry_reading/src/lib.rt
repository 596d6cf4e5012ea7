//! An entry of the shelf, read piece by piece and handed to what takes it.
//!
//! `specs/` says what was read of an entry, and what was taken of it.
#![tactic(auto)]

mod consumer;
mod entry;
mod reading;

pub use consumer::Consumer;
pub use entry::{PIECE_BYTES, ReadFault, read_piece, start_entry};
pub use reading::read_entry;
