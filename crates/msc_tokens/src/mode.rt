//! What is open between two bytes: for `machine` alone.

/// What is open between two bytes of a text.
#[derive(Clone, Copy, Debug, PartialEq, Eq)]
pub enum Mode {
    /// Nothing.
    Between,
    /// A word.
    Word,
    /// A string.
    Str,
    /// A string behind an apostrophe that closes it, unless another one follows.
    Quote,
    /// A `/` that has to begin a note.
    Slash,
    /// A note.
    Note,
    /// A note behind a `*`, which closes it if a `/` follows.
    Star,
    /// A mark, which may grow.
    Mark,
    /// Nothing any more: a byte can't stand there.
    BadByte,
    /// Nothing any more: a word is too long.
    LongName,
}
