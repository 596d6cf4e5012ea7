//! The store that remembers light sets of terms, and the moves between them.

ghost use Rattle.std.specs.Prelude.{◌≡◌, ◌≤◌, ◌<◌, ◌+◌, [], length, true, IfOk, IfSome, OnOk, OnErr, IsTrue};
ghost use Rattle.term_tables.specs.NetValues.{NetsValue};
ghost use Rattle.term_laws.specs.Listing.{set_weight};
ghost use Rattle.trace_judge.specs.Steps.{ForLabels};
ghost use Rattle.term_sets.specs.Memories.{pool_bounds as bounds_value, set_at, held_set, held_weight, IsSetFor, IsPoolFor, Remembers, AreNext, Keeps, Notes};
ghost use Rattle.term_sets.specs.declared.pool.Held.TheVariants.{Remembered, Loose};

use crate::successors::{gather, one_may_end};
use crate::{Bounds, SetMemory, TermSet};
use chart_term::Term;
use msc_base::NoMemory;
use std::alloc::Global;
use std::marker::Model;
use term_tables::Nets;
use trace_judge::{StepFault, Store};

/// What is held.
#[derive(Drop)]
pub(crate) enum Held {
    /// The remembered set of that number.
    Remembered(u32),
    /// A set beside the memory.
    Loose(TermSet),
}

/// A set of residual terms that remembers the light sets that it met, and the moves between them.
#[derive(Drop)]
pub struct Pool {
    alloc: Global,
    memory: SetMemory,
    held: Held,
    budget: u64,
    /// Whether the budget was passed.
    too_large: bool,
}

impl Model for Pool {
    ghost use Rattle.std.specs.Coded.{codes};
    ghost use Rattle.chart_term.specs.Codes.{coded_tree};
    ghost use Rattle.term_sets.specs.Memories.{PoolValue, IsPool};

    ghost Value = { PoolValue };

    ghost coded = { Prim.hlevel (codes, coded_tree) };

    ghost view = { λ p. record { memory = p.memory; held = p.held; budget = p.budget; too_large = p.too_large } };

    ghost invariant = { λ p. IsPool p.memory p.held };
}

/// The bounds of what a pool remembers.
fn pool_bounds() -> Bounds
    ensures { result ≡ bounds_value }
{
    Bounds {
        light: Pool::LIGHT,
        held: Pool::HELD_MOST,
        rows: Pool::ROWS_MOST,
    }
}

impl Pool {
    /// The most that a set weighs which is remembered. A heavier one seldom comes again, and costs more to find than to step.
    pub const LIGHT: u64 = 256;
    /// The most that all remembered sets weigh together. Where it would be passed, the pool forgets all but the set that it holds.
    pub const HELD_MOST: u64 = 8_000_000;
    /// The most remembered moves, and the most remembered sets. Where it would be passed, all but the set that is held is forgotten.
    pub const ROWS_MOST: u32 = 1_000_000;

    /// The weight of all sets that are remembered. It takes no memory.
    pub fn held(&self) -> u64
        ensures weight { result ≡ held_weight self.now.memory.sets }
        ensures most { result ≤ Self.HELD_MOST }
    {
        self.memory.held()
    }

    /// How many moves are remembered. It takes no memory.
    pub fn rows(&self) -> u64
        ensures moves { result ≡ length self.now.memory.moves }
        ensures most { result ≤ Self.ROWS_MOST }
    {
        self.memory.rows()
    }

    /// The set that is held. It takes no memory.
    pub fn set(&self) -> &TermSet
        ensures { result.now ≡ (held_set self.now).terms }
    {
        match &self.held {
            Held::Remembered(number) => self.memory.set(*number),
            Held::Loose(set) => set,
        }
    }

    /// The number of the set that an event leaves whose label has this number, where it is remembered.
    fn remembered(&self, label: Option<u32>) -> Option<u32>
        ensures { IfSome result (λ next. Remembers self.now label next) }
    {
        match &self.held {
            Held::Remembered(number) => self.memory.next(*number, label?),
            Held::Loose(_) => None,
        }
    }

    /// From now on the set of that number is held.
    fn enter(&mut self, next: u32)
        requires { next < length self.old.memory.sets }
        ensures { self.new ≡ record self.old { held = Remembered next } }
    {
        self.held = Held::Remembered(next);
    }

    /// From now on this set is held, beside the memory.
    fn hold(&mut self, set: TermSet)
        ensures { self.new ≡ record self.old { held = Loose set } }
    {
        self.held = Held::Loose(set);
    }

    /// Forgets all, and holds this set.
    fn begin_anew(&mut self, set: TermSet)
        ensures { self.new ≡ record self.old { memory = record { bounds = self.old.memory.bounds; sets = []; moves = [] }; held = Loose set } }
    {
        self.held = Held::Loose(set);
        self.memory = SetMemory::new(self.alloc, self.memory.bounds());
    }

    /// From now on the set is too large.
    fn close(&mut self)
        ensures { self.new ≡ record self.old { too_large = true } }
    {
        self.too_large = true;
    }

    /// The number of the set, which is added where it wasn't met.
    fn keep(&mut self, set: TermSet) -> Result<u32, NoMemory>
        requires light { set_weight set ≤ self.old.memory.bounds.light }
        requires held { held_weight self.old.memory.sets + set_weight set ≤ self.old.memory.bounds.held }
        requires few { length self.old.memory.sets < self.old.memory.bounds.rows }
        ensures keeps { Keeps self.old set self.new }
        ensures there { IfOk result (λ number. (number < length self.new.memory.sets) × (set_at self.new.memory.sets number ≡ set)) }
    {
        self.memory.keep(set)
    }

    /// Remembers that an event whose label has this number leads from the set that is held to that one, where the former is remembered.
    fn note(&mut self, label: Option<u32>, next: u32) -> Result<(), NoMemory>
        requires { length self.old.memory.moves < self.old.memory.bounds.rows }
        ensures { Notes self.old label next self.new }
    {
        match (&self.held, label) {
            (Held::Remembered(number), Some(label)) => self.memory.note(*number, label, next),
            _ => Ok(()),
        }
    }

    /// Remembers the set and the move to it, and holds it.
    fn go(&mut self, label: Option<u32>, set: TermSet) -> Result<(), NoMemory>
        requires light { set_weight set ≤ self.old.memory.bounds.light }
        requires held { held_weight self.old.memory.sets + set_weight set ≤ self.old.memory.bounds.held }
        requires few_sets { length self.old.memory.sets < self.old.memory.bounds.rows }
        requires few_moves { length self.old.memory.moves < self.old.memory.bounds.rows }
        ensures serves { (v : NetsValue) → IsPoolFor v self.old → IsSetFor v self.old.budget set
            → AreNext v label (held_set self.old).terms set → IsPoolFor v self.new }
        ensures ok { OnOk result (held_set self.new ≡ record (held_set self.old) { terms = set }) }
        ensures err { OnErr result (held_set self.new ≡ held_set self.old) }
    {
        let next = self.keep(set)?;
        self.note(label, next)?;
        self.enter(next);
        Ok(())
    }

    /// Holds this set, to which an event led whose label has this number. A light one is remembered; where there is no room for it, all
    /// else is forgotten.
    #[tactic(auto, using(crate::proofs::Going::turning))]
    fn turn_to(&mut self, label: Option<u32>, set: TermSet) -> Result<(), NoMemory>
        ensures serves { (v : NetsValue) → IsPoolFor v self.old → IsSetFor v self.old.budget set
            → AreNext v label (held_set self.old).terms set → IsPoolFor v self.new }
        ensures ok { OnOk result (held_set self.new ≡ record (held_set self.old) { terms = set }) }
        ensures err { OnErr result (held_set self.new ≡ held_set self.old) }
    {
        if !self.memory.is_light(&set) {
            self.hold(set);
            return Ok(());
        }
        if !self.memory.has_room(&set) {
            self.begin_anew(set);
            return Ok(());
        }
        self.go(label, set)
    }
}

impl Store for Pool {
    ghost use Rattle.term_sets.specs.Memories.{held_set, IsPoolFor};
    ghost use Rattle.term_sets.specs.Serving.{pool_serving};

    ghost holds = { λ p. held_set p };

    ghost serves = { λ p v. IsPoolFor v p };

    fn start(alloc: Global, nets: &Nets, term: Term, budget: u64) -> Result<Self, StepFault> {
        let _ = nets;
        if term.weight() > budget {
            return Err(StepFault::TooLarge);
        }
        let set = TermSet::single(alloc, term)?;
        Ok(Pool {
            alloc,
            memory: SetMemory::new(alloc, pool_bounds()),
            held: Held::Loose(set),
            budget,
            too_large: false,
        })
    }

    fn step(&mut self, nets: &Nets, number: Option<u32>) -> Result<(), StepFault> {
        if self.too_large {
            return Err(StepFault::TooLarge);
        }
        if let Some(next) = self.remembered(number) {
            self.enter(next);
            return Ok(());
        }
        match gather(self.alloc, nets, self.set(), number, self.budget)? {
            Some(found) => {
                self.turn_to(number, found)?;
                Ok(())
            }
            None => {
                self.close();
                Err(StepFault::TooLarge)
            }
        }
    }

    fn is_empty(&self) -> bool {
        self.set().is_empty()
    }

    fn weight(&self) -> u64 {
        self.set().weight()
    }

    fn may_end(&self, alloc: Global, nets: &Nets) -> Result<bool, NoMemory> {
        one_may_end(alloc, nets, self.set())
    }

    ghost serving = { pool_serving };
}
