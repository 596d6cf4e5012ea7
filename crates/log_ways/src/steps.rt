//! The steps back from a term to one of the set before it, each made once: for `log_way`.

ghost use Rattle.std.specs.Prelude.{◌≡◌, ◌<◌, ◌++◌, [], ◌∷◌, length, slice_get, Some, true, IfOk, IsTrue, MatchOption, OnOk};
ghost use Rattle.chart_term.specs.Properties.{Each};
ghost use Rattle.log_ways.specs.Stepping.{AreKnown, ComesFrom, Gains, IsMade, IsNoted, IsPlaced, LeaveOnly, LeavesOnly};
ghost use Rattle.term_laws.specs.Placing.{HaveOnePlace};
ghost use Rattle.term_permission.specs.Ready.{AreReadyTables, IsReady};
ghost use Rattle.term_sets.specs.Memories.{set_at};
ghost use Rattle.term_ways.specs.Ways.{IsWay, LeavesNever};

use crate::terms::{Found, terms_of};
use chart_term::Term;
use msc_base::NoMemory;
use std::alloc::Global;
use std::collections::BTreeMap;
use term_sets::{SetMemory, TermSet};
use term_tables::Nets;
use term_ways::{Way, first_way, way_to};

/// One event of a log: the term before it, the way down to it, and the term that it left.
#[derive(Drop)]
pub struct StepBack {
    /// The term before the event.
    pub before: Term,
    /// The way down to the event.
    pub way: Way,
    /// The term that is left.
    pub after: Term,
}

/// A step that was made, and of what.
#[derive(Drop)]
pub(crate) struct Known {
    /// The number of the set before the event.
    pub(crate) from: u32,
    /// The number of the event's label.
    pub(crate) label: u32,
    /// Where the term before the event stands in that set.
    pub(crate) index: usize,
    /// The step.
    pub(crate) step: StepBack,
}

/// By what a step is looked up: the set before it, the label, and where the term that is left stands in its set.
#[derive(Clone, Copy, PartialEq, Eq, PartialOrd, Ord)]
struct StepKey {
    from: u32,
    label: u32,
    index: usize,
}

/// The steps that were made, each by its place.
#[derive(Drop)]
pub(crate) struct Steps {
    /// The steps.
    pub(crate) known: Vec<Known>,
    /// The places of steps. What is read here is looked up in the steps.
    places: BTreeMap<StepKey, u32>,
}

/// The place that is noted for the key; where there is none, the given one is noted.
fn noted_place(
    places: &mut BTreeMap<StepKey, u32>,
    key: StepKey,
    next: u32,
) -> Result<u32, NoMemory> {
    let place = *places.entry(key)?.or_insert(next);
    Ok(place)
}

impl Known {
    /// Whether it is a step from the set of that number by that label to the goal.
    fn is_to(&self, from: u32, label: u32, goal: &Term) -> bool
        ensures { IsTrue result → (self.now.from ≡ from) × (self.now.label ≡ label) × (self.now.step.after ≡ goal.now) }
    {
        self.from == from && self.label == label && self.step.after.same(goal)
    }
}

/// The way by which an event whose label has this number leaves the goal of the term. Where such events leave nothing else of it, as
/// `alone` says, the first that leaves something will do, and no terms are compared.
fn way_of(
    alloc: Global,
    nets: &Nets,
    term: &Term,
    label: u32,
    goal: &Term,
    alone: bool,
) -> Result<Option<Way>, NoMemory>
    requires tables { AreReadyTables nets.now.tables }
    requires term { IsReady nets.now.tables term.now }
    requires placed { HaveOnePlace nets.now.tables term.now }
    requires alone { alone ≡ true → LeavesOnly nets.now.tables label term.now goal.now }
    ensures { IfOk result (λ found. MatchOption found (LeavesNever nets.now.tables label term.now goal.now)
        (IsWay nets.now.tables label term.now goal.now)) }
{
    if alone {
        let found = first_way(alloc, nets, term, label)?;
        return Ok(found);
    }
    let found = way_to(alloc, nets, term, label, goal)?;
    Ok(found)
}

/// The step from a term of the set by an event whose label has this number to the goal, from the first such term.
fn made_step(
    alloc: Global,
    nets: &Nets,
    set: &TermSet,
    from: u32,
    label: u32,
    goal: &Found,
) -> Result<Known, NoMemory>
    requires tables { AreReadyTables nets.now.tables }
    requires terms { Each (IsReady nets.now.tables) set.now }
    requires placed { Each (HaveOnePlace nets.now.tables) set.now }
    requires comes { ComesFrom nets.now.tables label set.now goal.now.term }
    requires alone { goal.now.alone ≡ true → LeaveOnly nets.now.tables label set.now goal.now.term }
    ensures { IfOk result (λ known. IsMade nets.now.tables from label set.now goal.now.term known) }
{
    let terms = terms_of(alloc, set)?;
    for index in 0..terms.len() {
        let term = &terms[index];
        let found = way_of(alloc, nets, term, label, &goal.term, goal.alone)?;
        if let Some(way) = found {
            let before = term.copy(alloc)?;
            let after = goal.term.copy(alloc)?;
            let step = StepBack { before, way, after };
            return Ok(Known {
                from,
                label,
                index,
                step,
            });
        }
    }
    unreachable!()
}

impl Steps {
    /// No steps. It takes no memory.
    pub(crate) fn new(alloc: Global) -> Steps
        ensures { result.known.items ≡ [] }
    {
        Steps {
            known: Vec::new(alloc),
            places: BTreeMap::new(alloc),
        }
    }

    /// Whether at that place there is a step from the set of that number by that label to the goal.
    fn is_at(&self, place: u32, from: u32, label: u32, goal: &Term) -> bool
        ensures { IsTrue result → IsNoted self.now.known.items place from label goal.now }
    {
        match self.known.get(place as usize) {
            Some(known) => known.is_to(from, label, goal),
            None => false,
        }
    }

    /// Adds the step, and gives its place.
    fn add(&mut self, known: Known) -> Result<u32, NoMemory>
        ensures gains { OnOk result (self.new.known.items ≡ self.old.known.items ++ known ∷ []) }
        ensures place { IfOk result (λ place. slice_get self.new.known.items place ≡ Some known) }
    {
        if self.known.len() >= u32::MAX as usize {
            return Err(NoMemory);
        }
        let place = self.known.len() as u32;
        self.known.push(known)?;
        Ok(place)
    }

    /// The place of a step from a term of the set of that number, by an event whose label has this number, to the goal; it is made where
    /// none is known.
    pub(crate) fn step_to(
        &mut self,
        alloc: Global,
        nets: &Nets,
        memory: &SetMemory,
        from: u32,
        label: u32,
        goal: &Found,
    ) -> Result<u32, NoMemory>
        requires tables { AreReadyTables nets.now.tables }
        requires from { from < length memory.now.sets }
        requires terms { Each (IsReady nets.now.tables) (set_at memory.now.sets from) }
        requires placed { Each (HaveOnePlace nets.now.tables) (set_at memory.now.sets from) }
        requires known { AreKnown nets.now.tables memory.now.sets self.old.known.items }
        requires comes { ComesFrom nets.now.tables label (set_at memory.now.sets from) goal.now.term }
        requires alone { goal.now.alone ≡ true → LeaveOnly nets.now.tables label (set_at memory.now.sets from) goal.now.term }
        ensures known { OnOk result (AreKnown nets.now.tables memory.now.sets self.new.known.items) }
        ensures gains { OnOk result (Gains self.old.known.items self.new.known.items) }
        ensures place { IfOk result (IsPlaced nets.now.tables label (set_at memory.now.sets from) goal.now.term self.new.known.items) }
    {
        let key = StepKey {
            from,
            label,
            index: goal.index,
        };
        let next = self.known.len().min(u32::MAX as usize) as u32;
        let place = noted_place(&mut self.places, key, next)?;
        if self.is_at(place, from, label, &goal.term) {
            return Ok(place);
        }
        let made = made_step(alloc, nets, memory.set(from), from, label, goal)?;
        let added = self.add(made)?;
        Ok(added)
    }
}
