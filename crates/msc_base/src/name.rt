//! Names and reserved words. The grammar of tokens, the trees and the logs make their names here.

ghost use Rattle.std.specs.Prelude.{◌≡◌, ◌≤◌, ◌↔◌, List, ℕ, IsTrue, IfOk, IsErrOf};
ghost use Rattle.msc_base.specs.Names.{is_letter_or_digit as test_letter_or_digit, is_word_byte as test_word_byte, IsLetterOrDigit, IsWordByte, IsWord, IsName, IsReserved, reserved_to_decomposed, reserved_to_inst, reserved_to_out, reserved_to_when};
ghost use Rattle.msc_base.specs.Lists.{IsAmong};

use crate::{Limits, NoMemory, Text};
use std::alloc::Global;
use std::marker::Model;

/// A word that isn't reserved.
#[derive(Drop)]
pub struct Name {
    text: Text,
}

impl Model for Name {
    ghost Value = { List ℕ };

    ghost view = { λ n. n.text };

    ghost invariant = { λ n. IsName n.text };
}

/// Why bytes are no name.
#[derive(Clone, Copy, Debug, PartialEq, Eq)]
pub enum NameRefused {
    /// The bytes are no word, or they are a reserved word.
    NotAName,
    /// Memory was wanting.
    NoMemory,
}

/// Whether the byte is an ASCII letter or digit.
pub fn is_letter_or_digit(byte: u8) -> bool
    ensures is { IsTrue result ↔ IsLetterOrDigit byte }
    ensures test { result ≡ test_letter_or_digit byte }
{
    matches!(byte, b'0'..=b'9' | b'A'..=b'Z' | b'a'..=b'z')
}

/// Whether a word may have the byte: a letter, a digit, `_` or `.`.
pub fn is_word_byte(byte: u8) -> bool
    ensures is { IsTrue result ↔ IsWordByte byte }
    ensures test { result ≡ test_word_byte byte }
{
    is_letter_or_digit(byte) || byte == b'_' || byte == b'.'
}

/// Whether the bytes are a word: word bytes, no more than a name may have, one of them a letter or a digit.
pub fn is_word(bytes: &[u8]) -> bool
    ensures { IsTrue result ↔ IsWord bytes.now }
{
    bytes.iter().all(|byte| is_word_byte(*byte))
        && bytes.iter().any(|byte| is_letter_or_digit(*byte))
        && bytes.len() as u64 <= Limits::NAME_BYTES
}

/// Whether the bytes are this text.
pub fn is_text(bytes: &[u8], text: &str) -> bool
    ensures { IsTrue result ↔ (bytes.now ≡ text.now) }
{
    bytes == text.as_bytes()
}

/// Whether the bytes are one of the reserved words from `action` to `decomposed`.
fn is_reserved_to_decomposed(bytes: &[u8]) -> bool
    ensures { IsTrue result ↔ IsAmong reserved_to_decomposed bytes.now }
{
    is_text(bytes, "action")
        || is_text(bytes, "after")
        || is_text(bytes, "all")
        || is_text(bytes, "alt")
        || is_text(bytes, "before")
        || is_text(bytes, "begin")
        || is_text(bytes, "comment")
        || is_text(bytes, "concurrent")
        || is_text(bytes, "condition")
        || is_text(bytes, "decomposed")
}

/// Whether the bytes are one of the reserved words from `endconcurrent` to `inst`.
fn is_reserved_to_inst(bytes: &[u8]) -> bool
    ensures { IsTrue result ↔ IsAmong reserved_to_inst bytes.now }
{
    is_text(bytes, "endconcurrent")
        || is_text(bytes, "endexpr")
        || is_text(bytes, "endinstance")
        || is_text(bytes, "endmsc")
        || is_text(bytes, "endmscdocument")
        || is_text(bytes, "env")
        || is_text(bytes, "exc")
        || is_text(bytes, "expr")
        || is_text(bytes, "found")
        || is_text(bytes, "from")
        || is_text(bytes, "in")
        || is_text(bytes, "inst")
}

/// Whether the bytes are one of the reserved words from `instance` to `out`.
fn is_reserved_to_out(bytes: &[u8]) -> bool
    ensures { IsTrue result ↔ IsAmong reserved_to_out bytes.now }
{
    is_text(bytes, "instance")
        || is_text(bytes, "label")
        || is_text(bytes, "loop")
        || is_text(bytes, "lost")
        || is_text(bytes, "msc")
        || is_text(bytes, "mscdocument")
        || is_text(bytes, "msg")
        || is_text(bytes, "opt")
        || is_text(bytes, "otherwise")
        || is_text(bytes, "out")
}

/// Whether the bytes are one of the reserved words from `par` to `when`.
fn is_reserved_to_when(bytes: &[u8]) -> bool
    ensures { IsTrue result ↔ IsAmong reserved_to_when bytes.now }
{
    is_text(bytes, "par")
        || is_text(bytes, "reference")
        || is_text(bytes, "reset")
        || is_text(bytes, "seq")
        || is_text(bytes, "set")
        || is_text(bytes, "shared")
        || is_text(bytes, "starttimer")
        || is_text(bytes, "stoptimer")
        || is_text(bytes, "timeout")
        || is_text(bytes, "timer")
        || is_text(bytes, "to")
        || is_text(bytes, "via")
        || is_text(bytes, "when")
}

/// Whether the bytes are a reserved word of the notation.
pub fn is_reserved(bytes: &[u8]) -> bool
    ensures { IsTrue result ↔ IsReserved bytes.now }
{
    is_reserved_to_decomposed(bytes)
        || is_reserved_to_inst(bytes)
        || is_reserved_to_out(bytes)
        || is_reserved_to_when(bytes)
}

/// Whether the bytes are a name: a word that isn't reserved.
pub fn is_name(bytes: &[u8]) -> bool
    ensures { IsTrue result ↔ IsName bytes.now }
{
    is_word(bytes) && !is_reserved(bytes)
}

impl Name {
    /// The name of a copy of these bytes. `NotAName` comes exactly where they are no name.
    pub fn from_bytes(alloc: Global, bytes: &[u8]) -> Result<Name, NameRefused>
        ensures ok { IfOk result (λ n. n ≡ bytes.now) }
        ensures name { IfOk result (λ n. IsName n) }
        ensures refused { IsErrOf result NameRefused.NotAName → IsName bytes.now → ⊥ }
    {
        if !is_name(bytes) {
            return Err(NameRefused::NotAName);
        }
        match Text::from_bytes(alloc, bytes) {
            Ok(text) => Ok(Name { text }),
            Err(NoMemory) => Err(NameRefused::NoMemory),
        }
    }

    /// The bytes of the name.
    pub fn bytes(&self) -> &[u8]
        ensures bytes { result.now ≡ self.now }
        ensures name { IsName self.now }
    {
        self.text.bytes()
    }

    /// Whether two names have the same bytes.
    pub fn same(&self, other: &Name) -> bool
        ensures { IsTrue result ↔ (self.now ≡ other.now) }
    {
        self.text.same(&other.text)
    }

    /// The same name once more. It fails only for want of memory.
    pub fn copy(&self, alloc: Global) -> Result<Name, NoMemory>
        ensures { IfOk result (λ n. n ≡ self.now) }
    {
        let text = self.text.copy(alloc)?;
        Ok(Name { text })
    }
}
