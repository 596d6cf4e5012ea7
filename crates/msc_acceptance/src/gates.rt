//! The first fault of gates, of decomposed instances, and of the names of events, by what all charts are woven to: for `cycles`.

ghost use Rattle.std.specs.Prelude.{◌≡◌, IfOk, List};
ghost use Rattle.gate_ends.specs.LevelGates.{HasNames};
ghost use Rattle.gate_tables.specs.ChartGates.{AreGatesOf};
ghost use Rattle.msc_acceptance.specs.Acceptance.{BreaksOf};
ghost use Rattle.msc_acceptance.specs.Deciding.{AreFaultsIn, AreGatePlaces, IsFirstOf, IsWhole, event_names, gate_groups, gates};
ghost use Rattle.msc_acceptance.specs.RefinedTexts.{AreKnownRefinements};
ghost use Rattle.msc_instances.specs.Instances.{instances};
ghost use Rattle.msc_meaning.specs.Tables.{Table};
ghost use Rattle.msc_meaning.specs.Views.{table_view};
ghost use Rattle.msc_meaning.specs.WovenTables.{AreEntriesOf};
ghost use Rattle.msc_rules.specs.FirstFaults.{IsBest};
ghost use Rattle.msc_rules.specs.Rules.{number_of};
ghost use Rattle.msc_tree.specs.Charts.{Chart};

use crate::refinements::{KnownRefinements, refinement_fault};
use crate::tables::BodyFaults;
use gate_rules::{GatePlaces, gate_places};
use gate_tables::GateTables;
use msc_base::{NameTable, NoMemory};
use msc_meaning::ChartEntry;
use msc_rules::{Broken, Rule, broken_at, earlier_fault};
use std::alloc::Global;

/// The first fault of gates.
fn gate_fault(places: GatePlaces) -> Option<Broken<Rule>>
    ensures { (charts : List Chart) (table : Table) → AreEntriesOf instances charts table → AreGatePlaces table places → IsBest number_of (BreaksOf charts) gates result }
{
    let none = broken_at(Rule::NoGate, places.no_gate);
    let twice = broken_at(Rule::GateTwice, places.twice);
    let ways = broken_at(Rule::GateWays, places.ways);
    let split = broken_at(Rule::GateSplit, places.split);
    let on_loop = broken_at(Rule::GateOnLoop, places.on_loop);
    let first = earlier_fault(earlier_fault(none, twice), ways);
    earlier_fault(earlier_fault(first, split), on_loop)
}

/// The first fault of the names of events.
fn event_name_fault(faults: BodyFaults) -> Option<Broken<Rule>>
    requires whole { IsWhole faults }
    ensures { (charts : List Chart) → AreFaultsIn charts faults → IsBest number_of (BreaksOf charts) event_names result }
{
    let unknown = broken_at(Rule::UnknownEvent, faults.unknown);
    let twice = broken_at(Rule::EventNamedTwice, faults.twice);
    earlier_fault(unknown, twice)
}

/// The earliest places at which the charts of a table break the rules on gates.
fn places_of(
    alloc: Global,
    entries: &[ChartEntry],
    names: &NameTable,
    gates: &GateTables,
) -> Result<GatePlaces, NoMemory>
    requires named { HasNames entries.now names.now }
    requires gates { AreGatesOf (table_view entries.now) gates.now }
    ensures { IfOk result (AreGatePlaces (table_view entries.now)) }
{
    let places = gate_places(alloc, entries, names, gates)?;
    Ok(places)
}

/// The first fault of gates, then of decomposed instances, and then of the names of events, of charts of these entries.
pub fn table_fault(
    alloc: Global,
    entries: &[ChartEntry],
    names: &NameTable,
    gates: &GateTables,
    known: KnownRefinements<'_>,
    faults: BodyFaults,
) -> Result<Option<Broken<Rule>>, NoMemory>
    requires named { HasNames entries.now names.now }
    requires gates { AreGatesOf (table_view entries.now) gates.now }
    requires whole { IsWhole faults }
    ensures { IfOk result (λ fault. (charts : List Chart) → AreEntriesOf instances charts (table_view entries.now) → AreKnownRefinements charts known.entry → AreFaultsIn charts faults → IsFirstOf charts gate_groups fault) }
{
    let places = places_of(alloc, entries, names, gates)?;
    if let Some(fault) = gate_fault(places) {
        return Ok(Some(fault));
    }
    if let Some(fault) = refinement_fault(alloc, entries, names, known)? {
        return Ok(Some(fault));
    }
    Ok(event_name_fault(faults))
}
