//! Facts by gates, with the gates and the facts where they stand: for `levels` and `expressions`.

ghost use Rattle.std.specs.Prelude.{◌≡◌, ◌+◌, List, ℕ, IfOk, IfNone, IfSome, None, OnOk, Some, if◌then◌else◌, option_map};
ghost use Rattle.std.specs.Str.{bytes_eq};
ghost use Rattle.gate_tables.specs.FactMaps.{IsPopped, at_gate, gate_count};
ghost use Rattle.gate_tables.specs.FactViews.{seen_view};
ghost use Rattle.gate_tables.specs.Together.{in_loop_facts, together};

use crate::facts::SeenFacts;
use indexmap::IndexMap;
use msc_base::NoMemory;
use std::alloc::Global;

/// The facts of each gate that has an inner event.
#[derive(Drop)]
pub struct FactMap<'a> {
    held: IndexMap<&'a [u8], SeenFacts<'a>>,
}

/// A gate and its facts.
#[derive(Clone, Copy)]
pub struct SeenGate<'a> {
    pub gate: &'a [u8],
    pub facts: SeenFacts<'a>,
}

impl<'a> FactMap<'a> {
    /// No gates. It takes no memory.
    pub fn new(alloc: Global) -> FactMap<'a>
        ensures { (g : List ℕ) → at_gate result g ≡ None }
    {
        FactMap {
            held: IndexMap::new(alloc),
        }
    }

    /// How many gates there are.
    pub fn len(&self) -> usize
        ensures { result ≡ gate_count self.now }
    {
        self.held.len()
    }

    /// The facts of the gate, where there are some. It takes no memory.
    pub fn at(&self, gate: &[u8]) -> Option<SeenFacts<'a>>
        ensures { option_map seen_view result ≡ at_gate self.now gate.now }
    {
        self.held.get(gate).copied()
    }

    /// Gives the gate these facts alone.
    pub fn set(&mut self, gate: &'a [u8], facts: SeenFacts<'a>) -> Result<(), NoMemory>
        ensures { OnOk result ((g : List ℕ) → at_gate self.new g ≡ (if bytes_eq gate.entry.now g then Some (seen_view facts.entry) else at_gate self.old g)) }
    {
        self.held.insert(gate, facts)?;
        Ok(())
    }

    /// Takes out one of the gates, where there is one.
    pub fn pop(&mut self) -> Option<SeenGate<'a>>
        ensures none { IfNone result ((g : List ℕ) → at_gate self.old g ≡ None) }
        ensures some { IfSome result (λ seen. IsPopped self.old self.new seen.gate.now (seen_view seen.facts)) }
        ensures fewer { IfSome result (λ seen. gate_count self.new + 1 ≡ gate_count self.old) }
    {
        let (gate, facts) = self.held.pop()?;
        Some(SeenGate { gate, facts })
    }
}

/// The facts of events in front of those behind them.
fn in_front<'a>(facts: SeenFacts<'a>, behind: Option<SeenFacts<'a>>, both: bool) -> SeenFacts<'a>
    ensures { Some (seen_view result) ≡ together both (Some (seen_view facts.entry)) (option_map seen_view behind.entry) }
{
    match behind {
        Some(behind) => facts.with(behind, both),
        None => facts,
    }
}

/// The facts of events behind those in front of them.
fn behind<'a>(first: Option<SeenFacts<'a>>, facts: SeenFacts<'a>, both: bool) -> SeenFacts<'a>
    ensures { Some (seen_view result) ≡ together both (option_map seen_view first.entry) (Some (seen_view facts.entry)) }
{
    match first {
        Some(first) => first.with(facts, both),
        None => facts,
    }
}

impl<'a> FactMap<'a> {
    /// Puts the facts in front of those that the gate has.
    pub fn add_in_front(&mut self, seen: SeenGate<'a>, both: bool) -> Result<(), NoMemory>
        ensures { OnOk result ((g : List ℕ) → at_gate self.new g ≡ (if bytes_eq seen.entry.gate.now g then together both (Some (seen_view seen.entry.facts)) (at_gate self.old g) else at_gate self.old g)) }
    {
        let known = self.at(seen.gate);
        self.set(seen.gate, in_front(seen.facts, known, both))
    }

    /// Puts the facts behind those that the gate has.
    fn add_behind(&mut self, seen: SeenGate<'a>, both: bool) -> Result<(), NoMemory>
        ensures { OnOk result ((g : List ℕ) → at_gate self.new g ≡ (if bytes_eq seen.entry.gate.now g then together both (at_gate self.old g) (Some (seen_view seen.entry.facts)) else at_gate self.old g)) }
    {
        let known = self.at(seen.gate);
        self.set(seen.gate, behind(known, seen.facts, both))
    }
}

/// The facts of both, those of the first moved in front of the others.
fn moved_in_front<'a>(
    mut first: FactMap<'a>,
    mut others: FactMap<'a>,
    both: bool,
) -> Result<FactMap<'a>, NoMemory>
    ensures { IfOk result (λ map. (g : List ℕ) → at_gate map g ≡ together both (at_gate first.entry g) (at_gate others.entry g)) }
{
    while let Some(seen) = first.pop() {
        others.add_in_front(seen, both)?;
    }
    Ok(others)
}

/// The facts of both, those of the others moved behind the first.
fn moved_behind<'a>(
    mut first: FactMap<'a>,
    mut others: FactMap<'a>,
    both: bool,
) -> Result<FactMap<'a>, NoMemory>
    ensures { IfOk result (λ map. (g : List ℕ) → at_gate map g ≡ together both (at_gate first.entry g) (at_gate others.entry g)) }
{
    while let Some(seen) = others.pop() {
        first.add_behind(seen, both)?;
    }
    Ok(first)
}

/// The facts of both: those of the smaller map are moved. The others stand behind the first, and one branch has both, or a branch has
/// the one or the other.
pub fn joined<'a>(
    first: FactMap<'a>,
    others: FactMap<'a>,
    both: bool,
) -> Result<FactMap<'a>, NoMemory>
    ensures { IfOk result (λ map. (g : List ℕ) → at_gate map g ≡ together both (at_gate first.entry g) (at_gate others.entry g)) }
{
    if first.len() < others.len() {
        return moved_in_front(first, others, both);
    }
    moved_behind(first, others, both)
}

/// The facts of the same events in a loop.
pub fn looped<'a>(alloc: Global, mut map: FactMap<'a>) -> Result<FactMap<'a>, NoMemory>
    ensures { IfOk result (λ made. (g : List ℕ) → at_gate made g ≡ in_loop_facts (at_gate map.entry g)) }
{
    let mut made = FactMap::new(alloc);
    while let Some(seen) = map.pop() {
        made.set(seen.gate, seen.facts.in_loop())?;
    }
    Ok(made)
}
