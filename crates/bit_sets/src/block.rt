//! Sets of instances and of events, by number. chart_term, term_tables and term_step say by them what a term touches.

ghost use Rattle.std.specs.Prelude.{◌≡◌, ◌<◌, ◌↔◌, [], Contains, OnOk, OnErr, IfOk, IsTrue};
ghost use Rattle.bit_sets.specs.Blocks.{IsBlock, insert_rising, insert_each, share, shared, set_cmp};

use crate::sets::Sets;
use msc_base::{Limits, NoMemory};
use std::alloc::Global;
use std::cmp::Ordering;
use std::marker::Model;

/// A set of instance numbers and a set of event numbers.
///
/// A contract sees each set as the list of its numbers, which rises, so equal sets are equal
/// values.
#[derive(Drop)]
pub struct Block {
    /// The instances, 64 to a word from its lowest bit on, without words of 0 at the end; and the
    /// events, each above the one before it.
    sets: Sets,
}

impl Model for Block {
    ghost use Rattle.bit_sets.specs.Blocks.{BlockValue, bits_of, IsStored};
    ghost use Rattle.bit_sets.specs.Stores.{words_of, events_of};

    ghost Value = { BlockValue };

    ghost view = { λ b. record { instances = bits_of (words_of b.sets); events = events_of b.sets } };

    ghost invariant = { λ b. IsStored (words_of b.sets) (events_of b.sets) };
}

impl Block {
    /// The block of two empty sets. It takes no memory.
    pub fn empty(alloc: Global) -> Block
        ensures { result ≡ record { instances = []; events = [] } }
    {
        Block {
            sets: Sets::empty(alloc),
        }
    }

    /// Adds an instance where it is new. After want of memory the block is as it was.
    pub fn add_instance(&mut self, at: u32) -> Result<(), NoMemory>
        requires { at < Limits.INSTANCES }
        ensures ok { OnOk result
            (self.new ≡ record self.old { instances = insert_rising self.old.instances at }) }
        ensures err { OnErr result (self.new ≡ self.old) }
        ensures block { IsBlock self.new }
    {
        self.sets.set(at)
    }

    /// Adds an event where it is new. After want of memory the block is as it was.
    pub fn add_event(&mut self, number: u32) -> Result<(), NoMemory>
        ensures ok { OnOk result
            (self.new ≡ record self.old { events = insert_rising self.old.events number }) }
        ensures err { OnErr result (self.new ≡ self.old) }
        ensures block { IsBlock self.new }
    {
        let found = self.sets.events().binary_search(&number);
        if let Err(place) = found {
            self.sets.insert_event(place, number)?;
        }
        Ok(())
    }

    /// Whether the instance is in the block. It takes no memory.
    pub fn has_instance(&self, at: u32) -> bool
        ensures has { IsTrue result ↔ Contains self.now.instances at }
        ensures block { IsBlock self.now }
    {
        self.sets.has(at)
    }

    /// Whether the event is in the block. It takes no memory.
    pub fn has_event(&self, number: u32) -> bool
        ensures has { IsTrue result ↔ Contains self.now.events number }
        ensures block { IsBlock self.now }
    {
        self.sets.events().binary_search(&number).is_ok()
    }

    /// The same sets once more. It fails only for want of memory.
    pub fn copy(&self, alloc: Global) -> Result<Block, NoMemory>
        ensures copy { IfOk result (λ block. block ≡ self.now) }
        ensures block { IsBlock self.now }
    {
        let sets = self.sets.copy(alloc)?;
        Ok(Block { sets })
    }

    /// The events, which rise. It takes no memory.
    pub fn events(&self) -> &[u32]
        ensures { result.now ≡ self.now.events }
    {
        self.sets.events()
    }

    /// Adds the instances of the other block. After want of memory the block is as it was.
    pub fn add_instances(&mut self, other: &Block) -> Result<(), NoMemory>
        ensures ok { OnOk result
            (self.new ≡ record self.old {
              instances = insert_each self.old.instances other.now.instances;
            }) }
        ensures err { OnErr result (self.new ≡ self.old) }
        ensures block { IsBlock self.new }
    {
        self.sets.unite(&other.sets)
    }

    /// The instances of both blocks, without events. It fails only for want of memory.
    pub fn common(&self, alloc: Global, other: &Block) -> Result<Block, NoMemory>
        ensures { IfOk result (λ both.
            both ≡ record { instances = shared self.now.instances other.now.instances; events = [] }) }
    {
        let sets = self.sets.common(alloc, &other.sets)?;
        Ok(Block { sets })
    }

    /// Whether an instance is in both blocks. It takes no memory.
    pub fn shares_instance(&self, other: &Block) -> bool
        ensures { result ≡ share self.now.instances other.now.instances }
    {
        self.sets.shares(&other.sets)
    }

    /// The order of the sets of instances: of the least instance that only one block has, the
    /// block that has it comes first. It takes no memory.
    pub fn compare_instances(&self, other: &Block) -> Ordering
        ensures { result ≡ set_cmp self.now.instances other.now.instances }
    {
        match self.sets.difference(&other.sets) {
            Some(at) => {
                if self.sets.has(at) {
                    Ordering::Less
                } else {
                    Ordering::Greater
                }
            }
            None => Ordering::Equal,
        }
    }
}
