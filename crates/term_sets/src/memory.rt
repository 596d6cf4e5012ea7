//! Sets that were met, each by its number, and the moves between them: what `pool` goes by.

ghost use Rattle.std.specs.Prelude.{◌≡◌, ◌≤◌, ◌<◌, ◌+◌, [], length, IfOk, IfSome, IsTrue};
ghost use Rattle.msc_base.specs.Lists.{IsAmong};
ghost use Rattle.term_laws.specs.Listing.{set_weight};
ghost use Rattle.term_sets.specs.Memories.{set_at, held_weight, Gains, HasMove};

use crate::{Bounds, SetKey, TermSet};
use code_slots::CodeSlots;
use msc_base::NoMemory;
use std::alloc::Global;
use std::collections::BTreeMap;
use std::marker::Model;

/// What is remembered of an event: from the set of one number an event whose label has that number leads to the set of another.
#[derive(Clone, Copy)]
pub(crate) struct Move {
    from: u32,
    label: u32,
    to: u32,
}

impl Move {
    /// Whether it is the move of this step.
    fn is_at(&self, from: u32, label: u32) -> bool
        ensures { IsTrue result → (self.now.from ≡ from) × (self.now.label ≡ label) }
    {
        self.from == from && self.label == label
    }
}

/// Sets that were met, each by its number from 0, and the moves between them, within bounds that it is given. It forgets nothing.
#[derive(Drop)]
pub struct SetMemory {
    alloc: Global,
    bounds: Bounds,
    sets: Vec<TermSet>,
    moves: Vec<Move>,
    /// The numbers of the sets. What is read here is looked up in the sets.
    numbers: BTreeMap<SetKey, u32>,
    /// The indexes of the moves. What is read here is looked up in the moves.
    indexes: CodeSlots,
    /// The weight of all sets.
    held: u64,
}

impl Model for SetMemory {
    ghost use Rattle.std.specs.Coded.{codes};
    ghost use Rattle.chart_term.specs.Codes.{coded_tree};
    ghost use Rattle.term_sets.specs.Memories.{MemoryValue, IsBounded};

    ghost Value = { MemoryValue };

    ghost coded = { Prim.hlevel (codes, coded_tree) };

    ghost view = { λ m. record { bounds = m.bounds; sets = m.sets.items; moves = m.moves.items } };

    ghost invariant = { λ m. IsBounded m.bounds m.held m.sets.items m.moves.items };
}

/// The code of a move from the set of that number at the label of that number: different ones mostly have different codes.
fn code_of(from: u32, label: u32) -> u32 {
    let both = (u64::from(from) << 32) | u64::from(label);
    (both.wrapping_mul(0x9e37_79b9_7f4a_7c15) >> 32) as u32
}

/// The number that is noted for the key; where there is none, the given one is noted.
fn noted_number(
    numbers: &mut BTreeMap<SetKey, u32>,
    key: SetKey,
    next: u32,
) -> Result<u32, NoMemory> {
    let number = *numbers.entry(key)?.or_insert(next);
    Ok(number)
}

impl SetMemory {
    /// A memory of these bounds, of no sets. It takes no memory.
    pub fn new(alloc: Global, bounds: Bounds) -> SetMemory
        ensures { result ≡ record { bounds = bounds; sets = []; moves = [] } }
    {
        SetMemory {
            alloc,
            bounds,
            sets: Vec::new(alloc),
            moves: Vec::new(alloc),
            numbers: BTreeMap::new(alloc),
            indexes: CodeSlots::new(alloc),
            held: 0,
        }
    }

    /// Its bounds.
    pub fn bounds(&self) -> Bounds
        ensures { result ≡ self.now.bounds }
    {
        self.bounds
    }

    /// The set of that number.
    #[tactic(auto, using(crate::proofs::Remembering::reading))]
    pub fn set(&self, number: u32) -> &TermSet
        requires { number < length self.now.sets }
        ensures { result.now ≡ set_at self.now.sets number }
    {
        &self.sets[number as usize]
    }

    /// The move at that index.
    #[tactic(auto, using(crate::proofs::Remembering::reading))]
    fn move_at(&self, index: u32) -> Option<Move>
        ensures { IfSome result (λ move. IsAmong self.now.moves move) }
    {
        match self.moves.get(index as usize) {
            Some(found) => Some(*found),
            None => None,
        }
    }

    /// The number of the set that an event with that label number leaves of the set, where it is remembered.
    pub fn next(&self, from: u32, label: u32) -> Option<u32>
        ensures { IfSome result (λ to. HasMove self.now.moves from label to) }
    {
        let index = self.indexes.guess(code_of(from, label))?;
        let found = self.move_at(index)?;
        if found.is_at(from, label) {
            Some(found.to)
        } else {
            None
        }
    }

    /// The weight of all sets together.
    pub fn held(&self) -> u64
        ensures weight { result ≡ held_weight self.now.sets }
        ensures most { result ≤ self.now.bounds.held }
    {
        self.held
    }

    /// How many moves are remembered.
    pub fn rows(&self) -> u64
        ensures moves { result ≡ length self.now.moves }
        ensures most { result ≤ self.now.bounds.rows }
    {
        self.moves.len() as u64
    }

    /// Whether the set is light enough to be remembered.
    pub fn is_light(&self, set: &TermSet) -> bool
        ensures { IsTrue result → set_weight set.now ≤ self.now.bounds.light }
    {
        set.weight() <= self.bounds.light
    }

    /// Whether there is room for the set as one more, and for one more move.
    pub fn has_room(&self, set: &TermSet) -> bool
        ensures held { IsTrue result → held_weight self.now.sets + set_weight set.now ≤ self.now.bounds.held }
        ensures sets { IsTrue result → length self.now.sets < self.now.bounds.rows }
        ensures moves { IsTrue result → length self.now.moves < self.now.bounds.rows }
    {
        set.weight() <= self.bounds.held - self.held
            && self.sets.len() < self.bounds.rows as usize
            && self.moves.len() < self.bounds.rows as usize
    }

    /// Whether that is the number of the set.
    fn is_number(&self, number: u32, set: &TermSet) -> bool
        ensures { IsTrue result → (number < length self.now.sets) × (set_at self.now.sets number ≡ set.now) }
    {
        (number as usize) < self.sets.len() && self.set(number).is_same(set)
    }

    /// Adds the set, and gives its number. After want of memory the sets are as they were.
    #[tactic(auto, using(crate::proofs::Remembering::adding))]
    fn add(&mut self, set: TermSet) -> Result<u32, NoMemory>
        requires light { set_weight set ≤ self.old.bounds.light }
        requires held { held_weight self.old.sets + set_weight set ≤ self.old.bounds.held }
        requires few { length self.old.sets < self.old.bounds.rows }
        ensures bounds { self.new.bounds ≡ self.old.bounds }
        ensures sets { Gains self.old.sets set self.new.sets }
        ensures moves { self.new.moves ≡ self.old.moves }
        ensures there { IfOk result (λ number. (number < length self.new.sets) × (set_at self.new.sets number ≡ set)) }
    {
        let number = self.sets.len() as u32;
        let weight = set.weight();
        self.sets.push(set)?;
        self.held += weight;
        Ok(number)
    }

    /// The number of the set, which is added where it wasn't met. After want of memory the sets are as they were.
    #[tactic(auto, using(crate::proofs::Remembering::adding))]
    pub fn keep(&mut self, set: TermSet) -> Result<u32, NoMemory>
        requires light { set_weight set ≤ self.old.bounds.light }
        requires held { held_weight self.old.sets + set_weight set ≤ self.old.bounds.held }
        requires few { length self.old.sets < self.old.bounds.rows }
        ensures bounds { self.new.bounds ≡ self.old.bounds }
        ensures sets { Gains self.old.sets set self.new.sets }
        ensures moves { self.new.moves ≡ self.old.moves }
        ensures there { IfOk result (λ number. (number < length self.new.sets) × (set_at self.new.sets number ≡ set)) }
    {
        let key = set.key(self.alloc)?;
        let next = self.sets.len() as u32;
        let number = noted_number(&mut self.numbers, key, next)?;
        if self.is_number(number, &set) {
            return Ok(number);
        }
        self.add(set)
    }

    /// Remembers a move, if there is a slot for it. After want of memory the moves are as they were.
    #[tactic(auto, using(crate::proofs::Remembering::adding))]
    pub fn note(&mut self, from: u32, label: u32, to: u32) -> Result<(), NoMemory>
        requires { length self.old.moves < self.old.bounds.rows }
        ensures bounds { self.new.bounds ≡ self.old.bounds }
        ensures sets { self.new.sets ≡ self.old.sets }
        ensures moves { Gains self.old.moves (record { from = from; label = label; to = to }) self.new.moves }
    {
        let count = self.moves.len();
        let code = code_of(from, label);
        self.indexes.make_room(self.alloc, count)?;
        let Some(slot) = self.indexes.free_slot(code) else {
            return Ok(());
        };
        self.moves.push(Move { from, label, to })?;
        self.indexes.fill(slot, code, count as u32);
        Ok(())
    }
}
