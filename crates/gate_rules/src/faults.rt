//! The rules on gates, and where the charts of a table break them.

ghost use Rattle.std.specs.Prelude.{◌≡◌, IfOk, OnOk};
ghost use Rattle.chart_text.specs.Gathering.{place_if};
ghost use Rattle.gate_ends.specs.LevelGates.{HasNames, items_in};
ghost use Rattle.gate_rules.specs.Callers.{caller_view, callers_view};
ghost use Rattle.gate_rules.specs.GateRules.{BreaksGateRule, breaks, broken_at, callers as callers_in, content_places, level_places, levels_places, place_of, table_places};
ghost use Rattle.gate_rules.specs.Noted.{IsNoted};
ghost use Rattle.gate_rules.specs.declared.faults.GateRule.TheVariants.{GateOnLoop, GateSplit, GateTwice, GateWays, NoGate};
ghost use Rattle.gate_tables.specs.ChartGates.{AreFactsOf, AreGatesOf};
ghost use Rattle.msc_base.specs.Places.{IsLeast};
ghost use Rattle.msc_meaning.specs.Bodies.{WovenItems};
ghost use Rattle.msc_meaning.specs.LevelViews.{levels_view};
ghost use Rattle.msc_meaning.specs.Views.{body_view, content_view, table_view};

use crate::caller::Caller;
use crate::judging::{ChartTable, broken_by};
use crate::listing::callers_of;
use crate::noted::Noted;
use crate::rejoining::note_rejoined;
use crate::taking::note_taken;
use gate_tables::{GateTables, LevelFacts, level_facts};
use msc_base::{NameTable, NoMemory, Place};
use msc_meaning::{Body, BodyLevel, ChartEntry, EntryContent, body_levels};
use std::alloc::Global;

/// The rules on gates.
#[derive(Clone, Copy, Debug, PartialEq, Eq)]
pub enum GateRule {
    /// A gate that is called, or handed on, has an inner event.
    NoGate,
    /// It is called once, and one branch has one inner event of it.
    GateTwice,
    /// Its inner events go the other way than the caller, and have its text.
    GateWays,
    /// They happen at one instance.
    GateSplit,
    /// None of them stands in a loop.
    GateOnLoop,
}

/// The earliest places at which the charts of a table break the rules on gates.
#[derive(Clone, Copy, Debug, PartialEq, Eq)]
pub struct GatePlaces {
    /// Of a gate without inner event.
    pub no_gate: Option<Place>,
    /// Of one that is called twice, or of which one branch has two inner events.
    pub twice: Option<Place>,
    /// Of one whose inner events don't all go the other way than the caller, or have another text.
    pub ways: Option<Place>,
    /// Of one whose inner events happen at two instances.
    pub split: Option<Place>,
    /// Of one with an inner event in a loop.
    pub on_loop: Option<Place>,
}

/// Notes a caller of a level for the rules that it breaks.
fn note_caller(
    alloc: Global,
    noted: &mut Noted,
    table: ChartTable<'_>,
    facts: &LevelFacts,
    caller: Caller<'_>,
) -> Result<(), NoMemory>
    requires { AreGatesOf (table_view table.charts.now) table.gates.now }
    ensures { OnOk result ((held : WovenItems) → AreFactsOf (table_view table.entry.charts.now) held facts.now → IsNoted (λ r. place_if (breaks (table_view table.entry.charts.now) held r (caller_view caller.entry)) (place_of (caller_view caller.entry))) noted.old noted.new) }
{
    let broken = broken_by(alloc, table, facts, caller)?;
    noted.note(caller.place(), broken)
}

/// Notes callers of a level for the rules that they break.
fn note_each(
    alloc: Global,
    noted: &mut Noted,
    table: ChartTable<'_>,
    facts: &LevelFacts,
    callers: &[Caller<'_>],
) -> Result<(), NoMemory>
    requires { AreGatesOf (table_view table.charts.now) table.gates.now }
    ensures { OnOk result ((held : WovenItems) → AreFactsOf (table_view table.entry.charts.now) held facts.now → IsNoted (λ r. broken_at (table_view table.entry.charts.now) held r (callers_view callers.now)) noted.old noted.new) }
{
    for caller in callers {
        note_caller(alloc, noted, table, facts, *caller)?;
    }
    Ok(())
}

/// Notes the callers of a level for the rules that they break. Where there are none it takes no time.
fn note_callers(
    alloc: Global,
    noted: &mut Noted,
    table: ChartTable<'_>,
    body: &Body,
    callers: &[Caller<'_>],
) -> Result<(), NoMemory>
    requires gates { AreGatesOf (table_view table.charts.now) table.gates.now }
    requires callers { callers_view callers.now ≡ callers_in (items_in (body_view body.now)) }
    ensures { OnOk result (IsNoted (λ r. broken_at (table_view table.entry.charts.now) (items_in (body_view body.now)) r (callers_in (items_in (body_view body.now)))) noted.old noted.new) }
{
    if callers.is_empty() {
        return Ok(());
    }
    let facts = level_facts(alloc, table.gates, body)?;
    note_each(alloc, noted, table, &facts, callers)
}

/// Notes where a level breaks the rules.
fn note_level(
    alloc: Global,
    noted: &mut Noted,
    table: ChartTable<'_>,
    body: &Body,
) -> Result<(), NoMemory>
    requires { AreGatesOf (table_view table.charts.now) table.gates.now }
    ensures { OnOk result (IsNoted (λ r. level_places (table_view table.entry.charts.now) r (body_view body.now)) noted.old noted.new) }
{
    let mut callers = callers_of(alloc, body.items.as_slice())?;
    note_callers(alloc, noted, table, body, callers.as_slice())?;
    note_taken(alloc, &mut noted.twice, &mut callers)?;
    note_rejoined(alloc, &mut noted.twice, body.items.as_slice())
}

/// Notes where levels break the rules.
fn note_levels(
    alloc: Global,
    noted: &mut Noted,
    table: ChartTable<'_>,
    levels: &[BodyLevel<'_>],
) -> Result<(), NoMemory>
    requires { AreGatesOf (table_view table.charts.now) table.gates.now }
    ensures { OnOk result (IsNoted (λ r. levels_places (table_view table.entry.charts.now) r (levels_view levels.now)) noted.old noted.new) }
{
    for level in levels {
        note_level(alloc, noted, table, level.body)?;
    }
    Ok(())
}

/// Notes where a chart breaks the rules.
fn note_content(
    alloc: Global,
    noted: &mut Noted,
    table: ChartTable<'_>,
    content: &EntryContent,
) -> Result<(), NoMemory>
    requires { AreGatesOf (table_view table.charts.now) table.gates.now }
    ensures { OnOk result (IsNoted (λ r. content_places (table_view table.entry.charts.now) r (content_view content.now)) noted.old noted.new) }
{
    match content {
        EntryContent::Basic(body) => {
            let levels = body_levels(alloc, body)?;
            note_levels(alloc, noted, table, levels.as_slice())
        }
        EntryContent::Graph(_) => Ok(()),
    }
}

/// Notes where charts of a table break the rules.
fn note_charts(
    alloc: Global,
    noted: &mut Noted,
    table: ChartTable<'_>,
    charts: &[ChartEntry],
) -> Result<(), NoMemory>
    requires { AreGatesOf (table_view table.charts.now) table.gates.now }
    ensures { OnOk result (IsNoted (λ r. table_places (table_view table.entry.charts.now) r (table_view charts.now)) noted.old noted.new) }
{
    for chart in charts {
        note_content(alloc, noted, table, &chart.content)?;
    }
    Ok(())
}

/// The earliest places at which the charts of a table, of which the names are given in their order, break the rules on gates. It fails only
/// for want of memory.
pub fn gate_places(
    alloc: Global,
    charts: &[ChartEntry],
    names: &NameTable,
    gates: &GateTables,
) -> Result<GatePlaces, NoMemory>
    requires named { HasNames charts.now names.now }
    requires gates { AreGatesOf (table_view charts.now) gates.now }
    ensures no_gate { IfOk result (λ places. IsLeast (BreaksGateRule (table_view charts.now) NoGate) places.no_gate) }
    ensures twice { IfOk result (λ places. IsLeast (BreaksGateRule (table_view charts.now) GateTwice) places.twice) }
    ensures ways { IfOk result (λ places. IsLeast (BreaksGateRule (table_view charts.now) GateWays) places.ways) }
    ensures split { IfOk result (λ places. IsLeast (BreaksGateRule (table_view charts.now) GateSplit) places.split) }
    ensures on_loop { IfOk result (λ places. IsLeast (BreaksGateRule (table_view charts.now) GateOnLoop) places.on_loop) }
{
    let table = ChartTable { charts, gates };
    let mut noted = Noted::new(alloc);
    note_charts(alloc, &mut noted, table, charts)?;
    Ok(noted.earliest())
}
