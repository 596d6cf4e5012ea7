//! Tokens: kind, text and place. All readers of grammars take slices of them.

use msc_base::{Place, Text};

/// What a token is.
#[derive(Clone, Copy, Debug, PartialEq, Eq)]
pub enum TokenKind {
    /// A name, a reserved word or a number.
    Word,
    /// A string in apostrophes.
    Str,
    /// A punctuation mark.
    Mark,
}

/// A part of a text, with the place where it begins.
#[derive(Drop)]
pub struct Token {
    /// What it is.
    pub kind: TokenKind,
    /// Its part of the text, of a string with its apostrophes.
    pub bytes: Text,
    /// Where it begins.
    pub place: Place,
}
