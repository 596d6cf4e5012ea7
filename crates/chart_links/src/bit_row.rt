//! Sets of numbers, as words of bits, that grow, are united, and are compared.

ghost use Rattle.std.specs.Prelude.{◌≡◌, ◌/◌, ◌<◌, [], IfOk, OnOk, length};
ghost use Rattle.bit_sets.specs.Blocks.{HasBitsOfBoth, ShareBit, has_bit, with_bit};
ghost use Rattle.chart_links.specs.Sets.{HasBitsOfCommon};

use msc_base::NoMemory;
use std::alloc::Global;
use std::marker::Model;

/// A set of numbers: 64 to a word, from its lowest bit on.
#[derive(Drop)]
pub struct BitRow {
    words: Vec<u64>,
}

impl Model for BitRow {
    ghost use Rattle.std.specs.Prelude.{List, ℕ};

    ghost Value = { List ℕ };

    ghost view = { λ r. r.words.items };
}

/// Sets the bit of that number.
fn set_bit(words: &mut Vec<u64>, at: usize)
    requires { at / 64 < length words.old.items }
    ensures { words.new.items ≡ with_bit words.old.items at }
{
    words[at / 64] |= 1 << (at % 64);
}

/// Sets the bit of that number, in new words where there are too few.
fn set_number(words: &mut Vec<u64>, at: usize) -> Result<(), NoMemory>
    ensures { OnOk result (words.new.items ≡ with_bit words.old.items at) }
{
    let index = at / 64;
    if index >= words.len() {
        words.resize(index + 1, 0)?;
    }
    set_bit(words, at);
    Ok(())
}

/// Sets the bits of the other words too.
fn unite_words(words: &mut Vec<u64>, others: &[u64]) -> Result<(), NoMemory>
    ensures { OnOk result (HasBitsOfBoth words.old.items others.now words.new.items) }
{
    if words.len() < others.len() {
        words.resize(others.len(), 0)?;
    }
    for (index, word) in others.iter().enumerate() {
        words[index] |= *word;
    }
    Ok(())
}

/// Sets the bits that the other two have in common.
fn unite_common_words(words: &mut Vec<u64>, one: &[u64], other: &[u64]) -> Result<(), NoMemory>
    ensures { OnOk result (HasBitsOfCommon words.old.items one.now other.now words.new.items) }
{
    let count = one.len().min(other.len());
    if words.len() < count {
        words.resize(count, 0)?;
    }
    for index in 0..count {
        words[index] |= one[index] & other[index];
    }
    Ok(())
}

/// Whether both have the bit of one number.
fn share_bit(words: &[u64], others: &[u64]) -> bool
    ensures { ShareBit words.now others.now result }
{
    for (index, word) in words.iter().enumerate() {
        if index < others.len() && *word & others[index] != 0 {
            return true;
        }
    }
    false
}

impl BitRow {
    /// No numbers. It takes no memory.
    pub fn new(alloc: Global) -> BitRow
        ensures { result ≡ [] }
    {
        BitRow {
            words: Vec::new(alloc),
        }
    }

    /// Whether the number is in the set.
    pub fn has(&self, at: usize) -> bool
        ensures { result ≡ has_bit self.now at }
    {
        let index = at / 64;
        index < self.words.len() && (self.words[index] >> (at % 64)) & 1 == 1
    }

    /// Adds the number.
    pub fn add(&mut self, at: usize) -> Result<(), NoMemory>
        ensures { OnOk result (self.new ≡ with_bit self.old at) }
    {
        set_number(&mut self.words, at)
    }

    /// Adds the numbers of the other set.
    pub fn unite(&mut self, other: &BitRow) -> Result<(), NoMemory>
        ensures { OnOk result (HasBitsOfBoth self.old other.now self.new) }
    {
        unite_words(&mut self.words, other.words.as_slice())
    }

    /// Adds the numbers that are in both of the other sets.
    pub fn unite_common(&mut self, one: &BitRow, other: &BitRow) -> Result<(), NoMemory>
        ensures { OnOk result (HasBitsOfCommon self.old one.now other.now self.new) }
    {
        unite_common_words(
            &mut self.words,
            one.words.as_slice(),
            other.words.as_slice(),
        )
    }

    /// Whether a number is in both sets.
    pub fn meets(&self, other: &BitRow) -> bool
        ensures { ShareBit self.now other.now result }
    {
        share_bit(self.words.as_slice(), other.words.as_slice())
    }

    /// The same set once more.
    pub fn copy(&self, alloc: Global) -> Result<BitRow, NoMemory>
        ensures { IfOk result (λ copied. copied ≡ self.now) }
    {
        Ok(BitRow {
            words: Vec::from_slice(alloc, self.words.as_slice())?,
        })
    }
}
