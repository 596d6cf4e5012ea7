//! Words and marks that end within the bytes at hand: for `machine` alone.

ghost use Rattle.std.specs.Prelude.{◌≡◌, ◌<◌, ◌≤◌, ◌++◌, length, IfSome};
ghost use Rattle.msc_tokens.specs.Wholes.{word_length, IsWhole};

use crate::TokenKind;
use crate::byte_class::{has_letter, is_mark_byte, is_pair};
use msc_base::{Limits, is_word_byte};

/// How many bytes of a word the bytes begin with.
#[tactic(auto, using(crate::proofs::Wholes::word_goes_on, crate::proofs::Wholes::word_stops, crate::proofs::Wholes::no_bytes))]
fn word_length(bytes: &[u8]) -> usize
    ensures { result ≡ word_length bytes.now }
{
    let mut count = 0;
    let mut rest = bytes;
    while let Some((byte, others)) = rest.split_first() {
        if !is_word_byte(*byte) {
            return count;
        }
        count += 1;
        rest = others;
    }
    count
}

/// The word of so many bytes that the bytes begin with, where it ends before they do, and those behind it.
fn whole_word(bytes: &[u8], count: usize) -> Option<(TokenKind, &[u8], &[u8])>
    requires { count ≡ word_length bytes.now }
    ensures bytes { IfSome result (λ x. bytes.now ≡ x.1.now ++ x.2.now) }
    ensures some { IfSome result (λ x. length x.2.now < length bytes.now) }
    ensures whole { IfSome result (λ x. IsWhole x.0 x.1.now x.2.now) }
{
    if bytes.len() <= count || count as u64 > Limits::NAME_BYTES {
        return None;
    }
    let (word, behind) = bytes.split_at(count);
    if !has_letter(word) {
        return None;
    }
    Some((TokenKind::Word, word, behind))
}

/// The mark that the bytes begin with, where it ends before they do, and those behind it.
fn whole_mark(bytes: &[u8]) -> Option<(TokenKind, &[u8], &[u8])>
    ensures bytes { IfSome result (λ x. bytes.now ≡ x.1.now ++ x.2.now) }
    ensures some { IfSome result (λ x. length x.2.now < length bytes.now) }
    ensures whole { IfSome result (λ x. IsWhole x.0 x.1.now x.2.now) }
{
    if bytes.len() < 2 || !is_mark_byte(bytes[0]) {
        return None;
    }
    let count = if is_pair(bytes[0], bytes[1]) { 2 } else { 1 };
    let (mark, behind) = bytes.split_at(count);
    Some((TokenKind::Mark, mark, behind))
}

/// The word or mark that the bytes begin with, where it ends before they do, and those behind it.
pub fn whole_token(bytes: &[u8]) -> Option<(TokenKind, &[u8], &[u8])>
    ensures bytes { IfSome result (λ x. bytes.now ≡ x.1.now ++ x.2.now) }
    ensures some { IfSome result (λ x. length x.2.now < length bytes.now) }
    ensures whole { IfSome result (λ x. IsWhole x.0 x.1.now x.2.now) }
{
    let count = word_length(bytes);
    if count == 0 {
        return whole_mark(bytes);
    }
    whole_word(bytes, count)
}
