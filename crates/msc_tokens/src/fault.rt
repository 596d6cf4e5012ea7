//! Why a text has no tokens. msc_cmd and event_log tell it with its place.

ghost use Rattle.msc_tokens.specs.declared.fault.LexFault.TheVariants.{NoMemory};
ghost use Rattle.std.specs.Prelude.{◌≡◌};

use msc_base::{NoMemory, Place};
use thiserror::Error;

/// Why a text has no tokens.
#[derive(Clone, Copy, Debug, PartialEq, Eq, Error)]
pub enum LexFault {
    /// A byte that can't stand there, or the first byte of a word without letter or digit.
    #[error("a byte that can't stand here")]
    BadByte(Place),
    /// The text ends inside the string that begins here.
    #[error("a string that isn't closed")]
    OpenString(Place),
    /// The text ends inside the note that begins here.
    #[error("a note that isn't closed")]
    OpenNote(Place),
    /// A word of 256 or more bytes begins here.
    #[error("a word that is too long")]
    LongName(Place),
    /// Memory was wanting.
    #[error("no memory")]
    NoMemory,
}

impl From<NoMemory> for LexFault {
    ghost from_gives = { λ _ e. e ≡ NoMemory };

    fn from(_: NoMemory) -> Self {
        LexFault::NoMemory
    }
}
