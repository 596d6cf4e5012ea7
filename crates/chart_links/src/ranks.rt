//! Ranks of charts, by which those that a chart names come before it: for who counts what charts come to.

ghost use Rattle.std.specs.Prelude.{◌≡◌, ℕ, IfOk, length, map};
ghost use Rattle.bit_sets.specs.Blocks.{has_bit};
ghost use Rattle.chart_links.specs.Ranks.{AreRanks, rank_of as rank_by, tally};
ghost use Rattle.chart_links.specs.References.{Recurs};
ghost use Rattle.chart_links.specs.SummaryViews.{summary_view};
ghost use Rattle.chart_links.specs.Tables.{AreTables};
ghost use Rattle.msc_base.specs.declared.place.Place.{Place};

use crate::ChartSummary;
use crate::bit_row::BitRow;
use crate::tables::LinkTables;
use msc_base::{Name, NoMemory};
use std::alloc::Global;

/// How many numbers below the count are in the set.
fn count_below(row: &BitRow, count: usize) -> usize
    ensures { result ≡ tally (has_bit row.now) count }
{
    let mut total = 0;
    for number in 0..count {
        if row.has(number) {
            total += 1;
        }
    }
    total
}

/// To how many charts the one of that name leads.
fn rank_of(tables: &LinkTables, name: &Name) -> usize
    requires { length tables.now.reach.items ≡ length tables.now.names }
    ensures { result ≡ rank_by tables.now.names tables.now.reach.items name.now }
{
    match tables.names.number_of(name.bytes()) {
        None => 0,
        Some(number) => count_below(&tables.reach[number], tables.names.len()),
    }
}

/// A rank for each chart, above those of the charts that it names, where no chart leads back to itself. It takes the time of the square
/// of the number of charts, and fails only for want of memory.
pub fn chart_ranks(
    alloc: Global,
    charts: &[ChartSummary<'_>],
    tables: &LinkTables,
) -> Result<Vec<usize>, NoMemory>
    requires tables { AreTables (map summary_view charts.now) tables.now.names tables.now.known tables.now.reach.items tables.now.expanded.items }
    requires acyclic { (place : Place) → Recurs (map summary_view charts.now) place → ⊥ }
    ensures { IfOk result (λ ranks. AreRanks (map summary_view charts.now) ranks.items) }
{
    let mut ranks = Vec::new(alloc);
    for chart in charts {
        ranks.push(rank_of(tables, chart.name))?;
    }
    Ok(ranks)
}
