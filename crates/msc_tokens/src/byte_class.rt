//! What a byte can begin or continue: for `machine` alone.

ghost use Rattle.std.specs.Prelude.{◌≡◌};
ghost use Rattle.msc_tokens.specs.ByteTests.{is_blank, is_inside, is_mark_byte, is_pair, has_letter, makes_pair, class_of};
ghost use Rattle.msc_base.specs.Names.{is_word_byte};

use msc_base::{is_letter_or_digit, is_word_byte};

/// What a byte can begin where nothing is open.
#[derive(Clone, Copy, Debug, PartialEq, Eq)]
pub enum ByteClass {
    /// A blank.
    Blank,
    /// A word.
    Word,
    /// A string.
    Apostrophe,
    /// A note.
    Slash,
    /// A mark.
    Mark,
    /// Nothing.
    Other,
}

fn is_blank(byte: u8) -> bool
    ensures { result ≡ is_blank byte }
{
    byte == b'\t' || byte == b'\n' || byte == b'\r' || byte == b' '
}

/// Whether a string or a note may have the byte inside.
pub fn is_inside(byte: u8) -> bool
    ensures { result ≡ is_inside byte }
{
    byte == b'\t' || byte == b'\n' || byte == b'\r' || (byte >= 32 && byte <= 126) || byte >= 128
}

pub fn is_mark_byte(byte: u8) -> bool
    ensures { result ≡ is_mark_byte byte }
{
    byte == b';'
        || byte == b':'
        || byte == b','
        || byte == b'('
        || byte == b')'
        || byte == b'<'
        || byte == b'>'
        || byte == b'['
        || byte == b']'
        || byte == b'@'
        || byte == b'&'
        || byte == b'='
}

pub fn is_pair(first: u8, second: u8) -> bool
    ensures { result ≡ is_pair first second }
{
    (first == b':' && second == b'=')
        || (first == b'<' && second == b'<')
        || (first == b'>' && second == b'>')
}

/// Whether the mark that stands in the text makes a longer one with the byte.
pub fn makes_pair(text: &[u8], byte: u8) -> bool
    ensures { result ≡ makes_pair text.now byte }
{
    match text.first() {
        Some(first) => is_pair(*first, byte),
        None => false,
    }
}

/// Whether one of the bytes is an ASCII letter or digit.
pub fn has_letter(text: &[u8]) -> bool
    ensures { result ≡ has_letter text.now }
{
    text.iter().any(|byte| is_letter_or_digit(*byte))
}

/// What the byte can begin.
pub fn class_of(byte: u8) -> ByteClass
    ensures { result ≡ class_of byte }
{
    if is_blank(byte) {
        ByteClass::Blank
    } else if is_word_byte(byte) {
        ByteClass::Word
    } else if byte == b'\'' {
        ByteClass::Apostrophe
    } else if byte == b'/' {
        ByteClass::Slash
    } else if is_mark_byte(byte) {
        ByteClass::Mark
    } else {
        ByteClass::Other
    }
}
