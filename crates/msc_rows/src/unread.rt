//! Why a line of the table can't be read.

use msc_base::NoMemory;
use std::alloc::{AllocError, AllocFailed};
use thiserror::Error;

/// Why a line of the table can't be read.
#[derive(Debug, Drop, Error)]
pub enum Unread {
    #[error("it has no field of a row")]
    Field,
    #[error("it lacks a number")]
    Number,
    #[error("a backslash begins nothing")]
    Escape,
    #[error("it names no text")]
    Name,
    #[error("want of memory")]
    NoMemory,
}

impl From<AllocError> for Unread {
    fn from(_: AllocError) -> Self {
        Unread::NoMemory
    }
}

impl From<NoMemory> for Unread {
    fn from(_: NoMemory) -> Self {
        Unread::NoMemory
    }
}

impl<T: Drop> From<AllocFailed<T>> for Unread {
    fn from(_: AllocFailed<T>) -> Self {
        Unread::NoMemory
    }
}
