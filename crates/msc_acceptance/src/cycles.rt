//! The earliest chart whose order is cyclic, and what the entries of charts come to together: for `deciding`.

ghost use Rattle.std.specs.Prelude.{◌≡◌, ◌≤◌, IfOk, List, length, map};
ghost use Rattle.gate_ends.specs.FoundEnds.{AreAll, GoesTo};
ghost use Rattle.gate_ends.specs.LevelGates.{HasNames};
ghost use Rattle.gate_tables.specs.ChartGates.{AreGatesOf};
ghost use Rattle.msc_acceptance.specs.Deciding.{AreFaultsIn, IsFlagged, IsSettled, IsWhole, TellsEarliest, table_groups};
ghost use Rattle.msc_acceptance.specs.RefinedTexts.{AreKnownRefinements};
ghost use Rattle.msc_base.specs.Lists.{AreDifferent};
ghost use Rattle.msc_base.specs.Places.{IsLeast};
ghost use Rattle.msc_base.specs.declared.limits.TheConstants.Limits.{CHARTS, EXPANDED_NESTING};
ghost use Rattle.msc_instances.specs.Instances.{instances};
ghost use Rattle.msc_meaning.specs.Views.{table_view};
ghost use Rattle.msc_meaning.specs.WovenTables.{AreEntriesOf};
ghost use Rattle.msc_meaning.specs.declared.body.ChartEntry.{ChartEntry};
ghost use Rattle.msc_tree.specs.Charts.{Chart};

use crate::Accepted;
use crate::deciding::Decision;
use crate::gates::table_fault;
use crate::refinements::KnownRefinements;
use crate::tables::BodyFaults;
use chart_cycles::cyclic_charts;
use gate_tables::{GateTables, gate_tables};
use msc_base::{Limits, NameTable, NoMemory, Place, earlier_if};
use msc_meaning::ChartEntry;
use msc_rules::{Broken, Rule};
use std::alloc::Global;

/// The names of the charts, which differ.
fn entry_names(alloc: Global, entries: &[ChartEntry]) -> Result<NameTable, NoMemory>
    requires { AreDifferent (map (λ (c : ChartEntry). c.name) entries.now) }
    ensures { IfOk result (HasNames entries.now) }
{
    let mut names = NameTable::new(alloc);
    for entry in entries {
        names.add(alloc, entry.name.bytes())?;
    }
    Ok(names)
}

/// The earliest of the places whose flag is set.
fn earliest_flagged(stands: &[Place], flags: &[bool]) -> Option<Place>
    ensures { IsLeast (IsFlagged stands.now flags.now) result }
{
    let mut best = None;
    let mut number = 0;
    for flag in flags {
        if number < stands.len() {
            best = earlier_if(best, stands[number], *flag);
        }
        number += 1;
    }
    best
}

/// The earliest place at which a chart stands whose order is cyclic.
fn cycle_place(
    alloc: Global,
    entries: &[ChartEntry],
    names: &NameTable,
    gates: &GateTables,
    stands: &[Place],
) -> Result<Option<Place>, NoMemory>
    requires named { HasNames entries.now names.now }
    requires different { AreDifferent names.now }
    requires gates { AreGatesOf (table_view entries.now) gates.now }
    ensures { IfOk result (TellsEarliest (table_view entries.now) stands.now) }
{
    let depth = Limits::EXPANDED_NESTING as u32;
    let flags = cyclic_charts(alloc, entries, names, gates, depth)?;
    Ok(earliest_flagged(stands, flags.as_slice()))
}

/// What entries of charts that stand there, of whose decomposed instances that is known, and whose own faults these are, come to: they are
/// accepted, or break a rule together.
pub fn settle(
    alloc: Global,
    entries: Vec<ChartEntry>,
    known: KnownRefinements<'_>,
    faults: BodyFaults,
    stands: &[Place],
) -> Result<Decision, NoMemory>
    requires few { length entries.items ≤ CHARTS }
    requires different { AreDifferent (map (λ (c : ChartEntry). c.name) entries.items) }
    requires deep { AreAll (GoesTo (table_view entries.items) EXPANDED_NESTING) (map (λ (c : ChartEntry). c.name) entries.items) }
    requires whole { IsWhole faults }
    ensures { (charts : List Chart) → AreEntriesOf instances charts (table_view entries.items) → AreKnownRefinements charts known.entry → AreFaultsIn charts faults → stands.now ≡ map (λ (c : Chart). c.place) charts → IfOk result (IsSettled table_groups charts (table_view entries.items)) }
{
    let names = entry_names(alloc, entries.as_slice())?;
    let depth = Limits::EXPANDED_NESTING as u32;
    let gates = gate_tables(alloc, entries.as_slice(), &names, depth, &[])?;
    if let Some(fault) = table_fault(alloc, entries.as_slice(), &names, &gates, known, faults)? {
        return Ok(Decision::Faulty(fault));
    }
    match cycle_place(alloc, entries.as_slice(), &names, &gates, stands)? {
        Some(place) => Ok(Decision::Faulty(Broken {
            rule: Rule::Cyclic,
            place,
        })),
        None => Ok(Decision::Accepted(Accepted::of_entries(entries, names, gates))),
    }
}
