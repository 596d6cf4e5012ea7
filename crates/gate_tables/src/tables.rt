//! The facts of the gates of each chart of a table.

ghost use Rattle.std.specs.Option.{option_copied};
ghost use Rattle.std.specs.Prelude.{◌≡◌, ◌+◌, ◌<◌, ◌≤◌, ℕ, List, IfOk, OnOk, Some, option_map, slice_get, true};
ghost use Rattle.gate_ends.specs.FoundEnds.{AreAll, GoesTo, level_names};
ghost use Rattle.gate_ends.specs.LevelGates.{HasNames};
ghost use Rattle.gate_tables.specs.ChartGates.{AreGatesTo};
ghost use Rattle.gate_tables.specs.ChartTables.{AreSomeOf, Grows, HasFacts};
ghost use Rattle.gate_tables.specs.KeptMaps.{kept_gate, kept_of};
ghost use Rattle.gate_tables.specs.KnownFacts.{level_known};
ghost use Rattle.gate_ends.specs.NameViews.{names_view};
ghost use Rattle.msc_meaning.specs.Tables.{body_at, chart_at};
ghost use Rattle.msc_meaning.specs.Views.{body_view, entry_view, table_view};

use crate::kept::{KeptMap, KeptMaps};
use crate::levels::level_seen;
use gate_ends::chart_names;
use msc_base::{Name, NameTable, NoMemory};
use msc_meaning::{Body, ChartEntry, EntryContent};
use std::alloc::Global;

/// What the charts of a table say of their gates.
#[derive(Drop)]
pub struct GateTables {
    pub(crate) charts: KeptMaps,
}

/// A table of charts, with the numbers of their names, where references stand in each other less than so deep.
#[derive(Clone, Copy)]
struct ChartTable<'a> {
    charts: &'a [ChartEntry],
    names: &'a NameTable,
    depth: u32,
}

/// The chart of that number, where there is one.
fn chart_of(charts: &[ChartEntry], number: usize) -> Option<&ChartEntry>
    ensures { option_copied result ≡ slice_get charts.now number }
{
    charts.get(number)
}

/// The chart of that name.
fn chart_named<'a>(table: ChartTable<'a>, name: &[u8]) -> Option<&'a ChartEntry>
    requires { HasNames table.charts.now table.names.now }
    ensures { option_map entry_view (option_copied result) ≡ chart_at (table_view table.entry.charts.now) name.now }
{
    let number = table.names.number_of(name)?;
    chart_of(table.charts, number)
}

/// The body of the basic chart of that name.
fn body_named<'a>(table: ChartTable<'a>, name: &[u8]) -> Option<&'a Body>
    requires { HasNames table.charts.now table.names.now }
    ensures { option_map body_view (option_copied result) ≡ body_at (table_view table.entry.charts.now) name.now }
{
    let chart = chart_named(table, name)?;
    match &chart.content {
        EntryContent::Basic(body) => Some(body),
        EntryContent::Graph(_) => None,
    }
}

/// The facts of a body, by those of the charts that it names.
fn body_facts(alloc: Global, known: &KeptMaps, body: &Body) -> Result<KeptMap, NoMemory>
    ensures { IfOk result (λ kept. (g : List ℕ) → kept_gate kept g ≡ level_known (kept_of known.now) (body_view body.now) g) }
{
    let made = level_seen(alloc, known, body)?;
    KeptMap::of(alloc, made)
}

/// Adds the chart of that name, and those that it refers to, where it isn't there.
#[cycle(tables)]
fn add_chart(
    alloc: Global,
    table: ChartTable<'_>,
    depth: u32,
    name: &[u8],
    known: &mut KeptMaps,
) -> Result<(), NoMemory>
    requires named { HasNames table.charts.now table.names.now }
    requires low { depth ≤ table.depth }
    requires deep { GoesTo (table_view table.charts.now) depth name.now }
    requires known { AreSomeOf (table_view table.charts.now) table.depth known.old }
    ensures grows { OnOk result (Grows (table_view table.entry.charts.now) table.entry.depth known.old known.new) }
    ensures has { OnOk result (HasFacts known.new name.now) }
{
    if known.has(name) {
        return Ok(());
    }
    match body_named(table, name) {
        Some(body) => add_body(alloc, table, depth - 1, name, body, known),
        None => known.set(alloc, name, KeptMap::new(alloc)),
    }
}

/// Adds the chart of that name and this body, and those that it refers to.
#[cycle(tables)]
fn add_body(
    alloc: Global,
    table: ChartTable<'_>,
    depth: u32,
    name: &[u8],
    body: &Body,
    known: &mut KeptMaps,
) -> Result<(), NoMemory>
    requires named { HasNames table.charts.now table.names.now }
    requires low { depth < table.depth }
    requires at { body_at (table_view table.charts.now) name.now ≡ Some (body_view body.now) }
    requires deep { AreAll (GoesTo (table_view table.charts.now) depth) (level_names (body_view body.now)) }
    requires known { AreSomeOf (table_view table.charts.now) table.depth known.old }
    ensures grows { OnOk result (Grows (table_view table.entry.charts.now) table.entry.depth known.old known.new) }
    ensures has { OnOk result (HasFacts known.new name.now) }
{
    let names = chart_names(alloc, body)?;
    add_charts(alloc, table, depth, names.as_slice(), known)?;
    let kept = body_facts(alloc, known, body)?;
    known.set(alloc, name, kept)
}

/// Adds the charts of these names, and those that they refer to.
#[cycle(tables)]
fn add_charts(
    alloc: Global,
    table: ChartTable<'_>,
    depth: u32,
    names: &[&Name],
    known: &mut KeptMaps,
) -> Result<(), NoMemory>
    requires named { HasNames table.charts.now table.names.now }
    requires low { depth < table.depth }
    requires deep { AreAll (GoesTo (table_view table.charts.now) depth) (names_view names.now) }
    requires known { AreSomeOf (table_view table.charts.now) table.depth known.old }
    ensures grows { OnOk result (Grows (table_view table.entry.charts.now) table.entry.depth known.old known.new) }
    ensures has { OnOk result (AreAll (HasFacts known.new) (names_view names.now)) }
{
    for name in names {
        add_chart(alloc, table, depth, name.bytes(), known)?;
    }
    Ok(())
}

/// Adds the chart of that number, where there is one, and those that it refers to.
fn add_number(
    alloc: Global,
    table: ChartTable<'_>,
    number: usize,
    known: &mut KeptMaps,
) -> Result<(), NoMemory>
    requires named { HasNames table.charts.now table.names.now }
    requires deep { AreAll (GoesTo (table_view table.charts.now) table.depth) table.names.now }
    requires known { AreSomeOf (table_view table.charts.now) table.depth known.old }
    ensures { OnOk result (Grows (table_view table.entry.charts.now) table.entry.depth known.old known.new) }
{
    match chart_of(table.charts, number) {
        Some(chart) => add_chart(alloc, table, table.depth, chart.name.bytes(), known),
        None => Ok(()),
    }
}

/// Adds the charts of these numbers, and those that they refer to.
fn add_numbers(
    alloc: Global,
    table: ChartTable<'_>,
    numbers: &[usize],
    known: &mut KeptMaps,
) -> Result<(), NoMemory>
    requires named { HasNames table.charts.now table.names.now }
    requires deep { AreAll (GoesTo (table_view table.charts.now) table.depth) table.names.now }
    requires known { AreSomeOf (table_view table.charts.now) table.depth known.old }
    ensures { OnOk result (AreSomeOf (table_view table.entry.charts.now) table.entry.depth known.new) }
{
    for number in numbers {
        add_number(alloc, table, *number, known)?;
    }
    Ok(())
}

/// What the charts of a table, of which the names are given in their order, say of their gates, where references stand in each other less
/// than so deep. The charts of the first numbers are worked out before the others, in that order; numbers that no chart has are passed
/// over. Where each chart stands there behind those that it names, the recursion goes one chart deep, else as deep as references stand in
/// each other. It fails only for want of memory.
pub fn gate_tables(
    alloc: Global,
    charts: &[ChartEntry],
    names: &NameTable,
    depth: u32,
    first: &[usize],
) -> Result<GateTables, NoMemory>
    requires named { HasNames charts.now names.now }
    requires deep { AreAll (GoesTo (table_view charts.now) depth) names.now }
    ensures { IfOk result (λ gates. AreGatesTo (table_view charts.now) depth gates) }
{
    let table = ChartTable {
        charts,
        names,
        depth,
    };
    let mut known = KeptMaps::new(alloc);
    add_numbers(alloc, table, first, &mut known)?;
    for chart in charts {
        add_chart(alloc, table, depth, chart.name.bytes(), &mut known)?;
    }
    Ok(GateTables { charts: known })
}
