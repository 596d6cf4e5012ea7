//! What joins between two gates add to the size of each chart.

ghost use Rattle.std.specs.Prelude.{◌≡◌, IfOk, map, true};
ghost use Rattle.chart_forms.specs.TiedTexts.{are_tied};
ghost use Rattle.chart_links.specs.Ranks.{AreRanks};
ghost use Rattle.chart_links.specs.Summaries.{summary_of};
ghost use Rattle.chart_text.specs.WellFormed.{AreAllWellFormed};
ghost use Rattle.gate_ends.specs.FoundEnds.{inner_to};
ghost use Rattle.gate_ends.specs.LevelGates.{HasNames};
ghost use Rattle.gate_tables.specs.ChartGates.{AreGatesTo};
ghost use Rattle.join_sizes.specs.JoinSizes.{AreJoinSizes, table_joins};
ghost use Rattle.join_sizes.specs.Named.{NamesAreLinked, names_of};
ghost use Rattle.level_gathering.specs.ReferenceViews.{charts_view};
ghost use Rattle.msc_base.specs.Lists.{AreDifferent};
ghost use Rattle.msc_instances.specs.Instances.{instances};
ghost use Rattle.msc_meaning.specs.Views.{table_view};
ghost use Rattle.msc_tree.specs.Charts.{Chart};
ghost use Rattle.msc_tree.specs.Views.{chart_view};

use crate::counting::{ChartTable, content_count};
use crate::order::{depth_of, rank_order};
use gate_tables::gate_tables;
use level_gathering::{ReferenceLists, gathered_charts};
use msc_base::{NameTable, Names, NoMemory};
use msc_meaning::ChartEntry;
use msc_tree::RawChart;
use std::alloc::Global;
use woven_laws::laws::gathered_charts_are_known;

/// The names of the charts.
fn entry_names(alloc: Global, charts: &[ChartEntry]) -> Result<NameTable, NoMemory>
    requires { AreDifferent (names_of charts.now) }
    ensures { IfOk result (λ names. HasNames charts.now names) }
{
    let mut names = NameTable::new(alloc);
    for chart in charts {
        names.add(alloc, chart.name.bytes())?;
    }
    Ok(names)
}

/// What the joins of each of the charts add, by the references of their levels.
fn table_sizes(
    alloc: Global,
    table: ChartTable<'_>,
    charts: &[ChartEntry],
    references: &[ReferenceLists<'_>],
) -> Result<Vec<u64>, NoMemory>
    requires { AreGatesTo (table_view table.charts.now) table.depth table.gates.now }
    ensures { IfOk result (λ sizes. sizes.items ≡ table_joins (inner_to (table_view table.entry.charts.now) table.entry.depth) (table_view charts.now) (charts_view references.now)) }
{
    let count = charts.len().min(references.len());
    let mut sizes = Vec::new(alloc);
    for number in 0..count {
        let content = &charts[number].content;
        let size = content_count(alloc, table, content, &references[number])?;
        sizes.push(size)?;
    }
    Ok(sizes)
}

/// The same as `join_sizes`, where a join ties two gates.
fn tied_sizes(
    alloc: Global,
    charts: &[RawChart],
    lists: &[Names],
    ranks: &[usize],
) -> Result<Vec<u64>, NoMemory>
    requires tied { are_tied (map chart_view charts.now) ≡ true }
    requires linked { NamesAreLinked }
    requires lists { lists.now ≡ map instances (map chart_view charts.now) }
    requires formed { AreAllWellFormed (map chart_view charts.now) }
    requires ranks { AreRanks (map summary_of (map chart_view charts.now)) ranks.now }
    requires different { AreDifferent (map (λ (c : Chart). c.name) (map chart_view charts.now)) }
    ensures { IfOk result (λ sizes. AreJoinSizes (map chart_view charts.now) sizes.items) }
{
    let gathered = gathered_charts(alloc, charts, lists)?;
    let entries = gathered.entries.as_slice();
    let names = entry_names(alloc, entries)?;
    let order = rank_order(alloc, ranks)?;
    let depth = depth_of(ranks)?;
    let gates = gate_tables(alloc, entries, &names, depth, order.as_slice())?;
    let table = ChartTable {
        charts: entries,
        depth,
        gates: &gates,
    };
    table_sizes(alloc, table, entries, gathered.references.as_slice())
}

/// What joins between two gates add to the size of each chart, up to a number above all limits: an empty list, where no join ties two gates, as
/// `tied` says. The charts have different names, these instances and ranks, and their text is well formed. It takes the time of the text, of
/// the gates, and of the square of the number of charts, and fails only for want of memory.
pub fn join_sizes(
    alloc: Global,
    tied: bool,
    charts: &[RawChart],
    lists: &[Names],
    ranks: &[usize],
) -> Result<Vec<u64>, NoMemory>
    requires tied { tied ≡ are_tied (map chart_view charts.now) }
    requires lists { lists.now ≡ map instances (map chart_view charts.now) }
    requires formed { AreAllWellFormed (map chart_view charts.now) }
    requires ranks { AreRanks (map summary_of (map chart_view charts.now)) ranks.now }
    requires different { AreDifferent (map (λ (c : Chart). c.name) (map chart_view charts.now)) }
    ensures { IfOk result (λ sizes. AreJoinSizes (map chart_view charts.now) sizes.items) }
{
    if !tied {
        return Ok(Vec::new(alloc));
    }
    gathered_charts_are_known();
    tied_sizes(alloc, charts, lists, ranks)
}
