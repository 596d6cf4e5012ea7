//! Union, common bits and first difference of two lists of words: for `sets` and `node_set`.

ghost use Rattle.std.specs.Prelude.{◌≡◌, ◌*◌, ◌≤◌, length, slice_index, OnOk, OnErr, IfOk, ◌/◌, ◌<◌};
ghost use Rattle.bit_sets.specs.Blocks.{HasBitsOfBoth, HasCommonBits, IsCommonLength, IsFirstDifference, IsTrimmed, ShareBit, has_bit, with_bit};

use msc_base::{Limits, NoMemory};
use std::alloc::Global;

/// Whether the words have the bit of that number.
pub(crate) fn has_number(words: &[u64], at: u32) -> bool
    ensures { result ≡ has_bit words.now at }
{
    let index = (at / 64) as usize;
    index < words.len() && (words[index] >> (at % 64)) & 1 == 1
}

/// Sets the bit of that number.
pub(crate) fn set_bit(words: &mut Vec<u64>, at: u32)
    requires { at / 64 < length words.old.items }
    ensures { words.new.items ≡ with_bit words.old.items at }
{
    words[(at / 64) as usize] |= 1 << (at % 64);
}

/// Sets the bit of that number, in new words where there are too few.
pub(crate) fn set_number(words: &mut Vec<u64>, at: u32) -> Result<(), NoMemory>
    ensures ok { OnOk result (words.new.items ≡ with_bit words.old.items at) }
    ensures err { OnErr result (words.new.items ≡ words.old.items) }
{
    let index = (at / 64) as usize;
    if index >= words.len() {
        words.resize(index + 1, 0)?;
    }
    set_bit(words, at);
    Ok(())
}

/// Sets the bits of the other words too.
pub(crate) fn unite(words: &mut Vec<u64>, others: &[u64]) -> Result<(), NoMemory>
    ensures ok { OnOk result (HasBitsOfBoth words.old.items others.now words.new.items) }
    ensures err { OnErr result (words.new.items ≡ words.old.items) }
{
    if words.len() < others.len() {
        words.resize(others.len(), 0)?;
    }
    for (index, word) in others.iter().enumerate() {
        words[index] |= *word;
    }
    Ok(())
}

/// Whether both have the bit of one number.
pub(crate) fn share_bit(words: &[u64], others: &[u64]) -> bool
    ensures { ShareBit words.now others.now result }
{
    for (index, word) in words.iter().enumerate() {
        if index < others.len() && *word & others[index] != 0 {
            return true;
        }
    }
    false
}

/// How many words there are up to the last that has a common bit.
fn common_length(words: &[u64], others: &[u64]) -> usize
    ensures { IsCommonLength words.now others.now result }
{
    let mut count = words.len().min(others.len());
    while count > 0 && words[count - 1] & others[count - 1] == 0 {
        count -= 1;
    }
    count
}

/// The bits that both have, in no more words than they take.
pub(crate) fn common_bits(
    alloc: Global,
    words: &[u64],
    others: &[u64],
) -> Result<Vec<u64>, NoMemory>
    ensures bits { IfOk result (λ both. HasCommonBits words.now others.now both.items) }
    ensures last { IfOk result (λ both. IsTrimmed both.items) }
{
    let mut both = Vec::new(alloc);
    for index in 0..common_length(words, others) {
        both.push(words[index] & others[index])?;
    }
    Ok(both)
}

/// The word of that index, and 0 behind the last.
fn word_at(words: &[u64], index: usize) -> u64
    ensures { result ≡ slice_index words.now index }
{
    if index < words.len() { words[index] } else { 0 }
}

/// The least number whose bit only one of the two has.
pub(crate) fn first_difference(words: &[u64], others: &[u64]) -> Option<u32>
    requires few { 64 * length words.now ≤ Limits.INSTANCES }
    requires others_few { 64 * length others.now ≤ Limits.INSTANCES }
    ensures { IsFirstDifference words.now others.now result }
{
    for index in 0..words.len().max(others.len()) {
        let different = word_at(words, index) ^ word_at(others, index);
        if different != 0 {
            return Some(index as u32 * 64 + different.trailing_zeros());
        }
    }
    None
}
