//! What a block stores: one word, or a pointer to all words and events. For `block` alone.

ghost use Rattle.std.specs.Prelude.{◌≡◌, ◌∷◌, ◌+◌, ◌*◌, ◌≤◌, ◌<◌, [], length, OnOk, OnErr, IfOk, IfSome};
ghost use Rattle.bit_sets.specs.Blocks.{HasBitsOfBoth, HasCommonBits, IsFirstDifference, IsTrimmed, ShareBit, has_bit, with_bit};
ghost use Rattle.std.specs.List.{insert};
ghost use Rattle.bit_sets.specs.Stores.{words_of, first_of, rest_of, events_of};

use crate::words::{common_bits, first_difference, has_number, set_number, share_bit, unite};
use msc_base::{Limits, NoMemory};
use std::alloc::Global;
use std::rc::Rc;

/// Words of bits, and numbers that rise. Sets below 64 without events take no memory.
#[derive(Drop)]
pub(crate) struct Sets {
    alloc: Global,
    form: Form,
}

/// One word without events, or all that there is. An `Option` of a pointer beside the word would take 8 bytes more.
#[derive(Drop)]
pub(crate) enum Form {
    Few(u64),
    Many(Rc<More>),
}

/// Words and events, where there are more words than one, or events. It is never changed.
#[derive(Drop)]
pub(crate) struct More {
    first: u64,
    /// The words behind the first.
    words: Vec<u64>,
    events: Vec<u32>,
}

impl Sets {
    /// No words but one of 0, and no events.
    pub(crate) fn empty(alloc: Global) -> Sets
        ensures words { words_of result ≡ 0 ∷ [] }
        ensures events { events_of result ≡ [] }
    {
        Sets {
            alloc,
            form: Form::Few(0),
        }
    }

    /// These words and events.
    fn of(alloc: Global, first: u64, words: Vec<u64>, events: Vec<u32>) -> Result<Sets, NoMemory>
        ensures words { IfOk result (λ sets. words_of sets ≡ first ∷ words.items) }
        ensures events { IfOk result (λ sets. events_of sets ≡ events.items) }
    {
        let form = if words.is_empty() && events.is_empty() {
            Form::Few(first)
        } else {
            let more = More {
                first,
                words,
                events,
            };
            Form::Many(Rc::new(alloc, more)?)
        };
        Ok(Sets { alloc, form })
    }

    /// The word, where there is but one, and no event.
    fn few(&self) -> Option<u64>
        ensures words { IfSome result (λ word. words_of self.now ≡ word ∷ []) }
        ensures events { IfSome result (λ word. events_of self.now ≡ []) }
    {
        match &self.form {
            Form::Few(word) => Some(*word),
            Form::Many(_) => None,
        }
    }

    /// The first word.
    fn first(&self) -> u64
        ensures { result ≡ first_of self.now }
    {
        match &self.form {
            Form::Few(word) => *word,
            Form::Many(more) => more.first,
        }
    }

    /// The words behind the first.
    fn rest(&self) -> &[u64]
        ensures { result.now ≡ rest_of self.now }
    {
        match &self.form {
            Form::Few(_) => &[],
            Form::Many(more) => more.words.as_slice(),
        }
    }

    /// The events.
    pub(crate) fn events(&self) -> &[u32]
        ensures { result.now ≡ events_of self.now }
    {
        match &self.form {
            Form::Few(_) => &[],
            Form::Many(more) => more.events.as_slice(),
        }
    }

    /// The same once more.
    pub(crate) fn copy(&self, alloc: Global) -> Result<Sets, NoMemory>
        ensures words { IfOk result (λ sets. words_of sets ≡ words_of self.now) }
        ensures events { IfOk result (λ sets. events_of sets ≡ events_of self.now) }
    {
        let form = match &self.form {
            Form::Few(word) => Form::Few(*word),
            Form::Many(more) => Form::Many(more.clone()?),
        };
        Ok(Sets { alloc, form })
    }

    /// Whether the bit of that number is set.
    pub(crate) fn has(&self, at: u32) -> bool
        ensures { result ≡ has_bit (words_of self.now) at }
    {
        if at < 64 {
            (self.first() >> at) & 1 == 1
        } else {
            has_number(self.rest(), at - 64)
        }
    }

    /// Puts these words in place of those that are there.
    fn put_words(&mut self, first: u64, words: Vec<u64>) -> Result<(), NoMemory>
        ensures ok { OnOk result (words_of self.new ≡ first ∷ words.items) }
        ensures events { events_of self.new ≡ events_of self.old }
        ensures err { OnErr result (words_of self.new ≡ words_of self.old) }
    {
        let events = Vec::from_slice(self.alloc, self.events())?;
        *self = Sets::of(self.alloc, first, words, events)?;
        Ok(())
    }

    /// Puts this in place of the first word.
    fn put_first(&mut self, first: u64) -> Result<(), NoMemory>
        ensures ok { OnOk result (words_of self.new ≡ first ∷ rest_of self.old) }
        ensures events { events_of self.new ≡ events_of self.old }
        ensures err { OnErr result (words_of self.new ≡ words_of self.old) }
    {
        if self.few().is_some() {
            self.form = Form::Few(first);
            Ok(())
        } else {
            let words = Vec::from_slice(self.alloc, self.rest())?;
            self.put_words(first, words)
        }
    }

    /// Sets the bit of that number.
    pub(crate) fn set(&mut self, at: u32) -> Result<(), NoMemory>
        ensures ok { OnOk result (words_of self.new ≡ with_bit (words_of self.old) at) }
        ensures events { events_of self.new ≡ events_of self.old }
        ensures err { OnErr result (words_of self.new ≡ words_of self.old) }
    {
        let first = self.first();
        if at < 64 {
            self.put_first(first | 1 << at)
        } else {
            let mut words = Vec::from_slice(self.alloc, self.rest())?;
            set_number(&mut words, at - 64)?;
            self.put_words(first, words)
        }
    }

    /// Puts an event in at that index.
    pub(crate) fn insert_event(&mut self, index: usize, number: u32) -> Result<(), NoMemory>
        requires { index ≤ length (events_of self.old) }
        ensures words { words_of self.new ≡ words_of self.old }
        ensures ok { OnOk result (events_of self.new ≡ insert (events_of self.old) index number) }
        ensures err { OnErr result (events_of self.new ≡ events_of self.old) }
    {
        let words = Vec::from_slice(self.alloc, self.rest())?;
        let mut events = Vec::from_slice(self.alloc, self.events())?;
        events.insert(index, number)?;
        *self = Sets::of(self.alloc, self.first(), words, events)?;
        Ok(())
    }

    /// Sets the bits of the other words too.
    pub(crate) fn unite(&mut self, other: &Sets) -> Result<(), NoMemory>
        ensures ok { OnOk result (HasBitsOfBoth (words_of self.old) (words_of other.now) (words_of self.new)) }
        ensures events { events_of self.new ≡ events_of self.old }
        ensures err { OnErr result (words_of self.new ≡ words_of self.old) }
    {
        let first = self.first() | other.first();
        let others = other.rest();
        if others.is_empty() {
            self.put_first(first)
        } else {
            let mut words = Vec::from_slice(self.alloc, self.rest())?;
            unite(&mut words, others)?;
            self.put_words(first, words)
        }
    }

    /// The bits that both have, without events.
    pub(crate) fn common(&self, alloc: Global, other: &Sets) -> Result<Sets, NoMemory>
        ensures bits { IfOk result (λ sets. HasCommonBits (words_of self.now) (words_of other.now) (words_of sets)) }
        ensures last { IfOk result (λ sets. IsTrimmed (rest_of sets)) }
        ensures events { IfOk result (λ sets. events_of sets ≡ []) }
    {
        let words = common_bits(alloc, self.rest(), other.rest())?;
        Sets::of(alloc, self.first() & other.first(), words, Vec::new(alloc))
    }

    /// Whether both have the bit of one number.
    pub(crate) fn shares(&self, other: &Sets) -> bool
        ensures { ShareBit (words_of self.now) (words_of other.now) result }
    {
        self.first() & other.first() != 0 || share_bit(self.rest(), other.rest())
    }

    /// The least number whose bit only one of the two has.
    pub(crate) fn difference(&self, other: &Sets) -> Option<u32>
        requires few { 64 * length (words_of self.now) ≤ Limits.INSTANCES }
        requires others_few { 64 * length (words_of other.now) ≤ Limits.INSTANCES }
        ensures { IsFirstDifference (words_of self.now) (words_of other.now) result }
    {
        let different = self.first() ^ other.first();
        if different != 0 {
            return Some(different.trailing_zeros());
        }
        match first_difference(self.rest(), other.rest()) {
            Some(at) => Some(at + 64),
            None => None,
        }
    }
}
