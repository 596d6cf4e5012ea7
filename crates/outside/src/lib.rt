//! The outside: shelves that are read and sinks that are written, in memory and real.
#![tactic(auto)]

mod calls;
mod entry;
mod file_shelf;
mod memory_shelf;
mod memory_sink;
mod shelf;
mod standard_sink;

pub use entry::Entry;
pub use file_shelf::FileShelf;
pub use memory_shelf::MemShelf;
pub use memory_sink::MemSink;
pub use shelf::{Failed, Shelf, Sink};
pub use standard_sink::StdSink;
