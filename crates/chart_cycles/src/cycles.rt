//! The charts whose order is cyclic. Where all charts are written in order nothing is expanded, nor is a chart without references that is.

ghost use Rattle.std.specs.Prelude.{◌≡◌, true, false, IfOk, Some, map};
ghost use Rattle.gate_ends.specs.LevelGates.{HasNames};
ghost use Rattle.gate_tables.specs.ChartGates.{AreGatesOf};
ghost use Rattle.msc_base.specs.Lists.{AreDifferent};
ghost use Rattle.msc_meaning.specs.Tables.{chart_at};
ghost use Rattle.msc_meaning.specs.Views.{content_view, entry_view, table_view};
ghost use Rattle.chart_cycles.specs.Cycles.{IsOrdered, TellCycles};
ghost use Rattle.chart_cycles.specs.Written.{AreWritten, IsWritten, IsWrittenChart, StandsAlone};

use crate::alone::has_none;
use expanded_charts::expansion_of;
use expansion_order::is_cyclic;
use gate_tables::GateTables;
use msc_base::{NameTable, NoMemory};
use msc_meaning::{ChartEntry, EntryContent};
use refined_events::are_refined;
use std::alloc::Global;
use written_order::is_rising;
use written_order::laws::rising_charts_are_ranked;

/// Whether what the chart is has its events in order.
fn holds_order(content: &EntryContent) -> bool
    ensures { result ≡ true → IsWritten (content_view content.now) }
{
    match content {
        EntryContent::Basic(body) => is_rising(body),
        EntryContent::Graph(_) => true,
    }
}

/// Whether the chart has no decomposed instances, and is written in order by itself.
fn is_written(chart: &ChartEntry) -> bool
    ensures { result ≡ true → IsWrittenChart (entry_view chart.now) }
{
    !are_refined(chart.decls.as_slice()) && holds_order(&chart.content)
}

/// Whether each chart is written in order by itself.
fn are_written(charts: &[ChartEntry]) -> bool
    ensures { result ≡ true → AreWritten (map entry_view charts.now) }
{
    for chart in charts {
        if !is_written(chart) {
            return false;
        }
    }
    true
}

/// Whether no reference stands in the chart.
fn stands_alone(content: &EntryContent) -> bool
    ensures { result ≡ true → StandsAlone (content_view content.now) }
{
    match content {
        EntryContent::Basic(body) => has_none(body),
        EntryContent::Graph(_) => true,
    }
}

/// Whether the chart names no other, and is written in order.
fn is_alone(chart: &ChartEntry) -> bool
    ensures alone { result ≡ true → StandsAlone (content_view chart.now.content) }
    ensures written { result ≡ true → IsWrittenChart (entry_view chart.now) }
{
    stands_alone(&chart.content) && is_written(chart)
}

/// Whether the order of the events of the chart's expansion is cyclic.
fn is_cyclic_chart(
    alloc: Global,
    charts: &[ChartEntry],
    names: &NameTable,
    gates: &GateTables,
    depth: u32,
    name: &[u8],
) -> Result<bool, NoMemory>
    requires named { HasNames charts.now names.now }
    requires gates { AreGatesOf (table_view charts.now) gates.now }
    ensures cyclic { IfOk result (λ cyclic. cyclic ≡ true → IsOrdered (table_view charts.now) depth name.now → ⊥) }
    ensures ordered { IfOk result (λ cyclic. cyclic ≡ false → IsOrdered (table_view charts.now) depth name.now) }
{
    let made = expansion_of(alloc, charts, names, gates, depth, name)?;
    let cyclic = is_cyclic(alloc, &made.expansion)?;
    Ok(cyclic)
}

/// The same, without making the expansion of a chart without references that is written in order.
fn is_cyclic_entry(
    alloc: Global,
    charts: &[ChartEntry],
    names: &NameTable,
    gates: &GateTables,
    depth: u32,
    chart: &ChartEntry,
) -> Result<bool, NoMemory>
    requires named { HasNames charts.now names.now }
    requires gates { AreGatesOf (table_view charts.now) gates.now }
    requires there { chart_at (table_view charts.now) chart.now.name ≡ Some (entry_view chart.now) }
    ensures cyclic { IfOk result (λ cyclic. cyclic ≡ true → IsOrdered (table_view charts.now) depth chart.now.name → ⊥) }
    ensures ordered { IfOk result (λ cyclic. cyclic ≡ false → IsOrdered (table_view charts.now) depth chart.now.name) }
{
    rising_charts_are_ranked();
    if is_alone(chart) {
        return Ok(false);
    }
    let cyclic = is_cyclic_chart(alloc, charts, names, gates, depth, chart.name.bytes())?;
    Ok(cyclic)
}

/// For each chart of a table whether the order of its expansion is cyclic. The names are those of the charts, in their order, and differ;
/// `gates` is what the charts say of their gates; references stand in each other less than so deep. It fails only for want of memory, for
/// which it takes 2^32 events, or edges between them, of one expansion too. Where all charts are written in order nothing is expanded.
pub fn cyclic_charts(
    alloc: Global,
    charts: &[ChartEntry],
    names: &NameTable,
    gates: &GateTables,
    depth: u32,
) -> Result<Vec<bool>, NoMemory>
    requires named { HasNames charts.now names.now }
    requires different { AreDifferent names.now }
    requires gates { AreGatesOf (table_view charts.now) gates.now }
    ensures { IfOk result (λ told. TellCycles (table_view charts.now) depth (map entry_view charts.now) told.items) }
{
    rising_charts_are_ranked();
    if are_written(charts) {
        let told = vec![in alloc; false; charts.len()]?;
        return Ok(told);
    }
    let mut told = Vec::new(alloc);
    for index in 0..charts.len() {
        let cyclic = is_cyclic_entry(alloc, charts, names, gates, depth, &charts[index])?;
        told.push(cyclic)?;
    }
    Ok(told)
}
