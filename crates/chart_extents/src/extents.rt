//! What charts come to with those that they name, rank by rank: no chart is expanded.

ghost use Rattle.std.specs.Prelude.{◌≡◌, ◌<◌, ◌≤◌, ℕ, IfOk, length, map, slice_index_or};
ghost use Rattle.chart_extents.specs.Capped.{AreKept, AreKeptUpTo, extent_at, names_of, sum_links};
ghost use Rattle.chart_extents.specs.ExtentViews.{sized_view};
ghost use Rattle.chart_extents.specs.Extents.{summaries};
ghost use Rattle.chart_links.specs.LinkViews.{link_view};
ghost use Rattle.chart_links.specs.Links.{depth_of, linked};
ghost use Rattle.chart_links.specs.Ranks.{AreRanks};
ghost use Rattle.msc_base.specs.Lists.{AreDifferent};

use crate::extent::{no_extent, up_to_most, with_extent};
use crate::{Extent, SizedChart};
use chart_links::Link;
use msc_base::{Name, NameTable, NoMemory};
use std::alloc::Global;

/// The chart that a link names.
fn chart_of<'a>(link: &Link<'a>) -> &'a Name
    ensures { result.now ≡ linked (link_view link.now) }
{
    match link {
        Link::Refers(chart, _, _, _) => chart,
        Link::Refines(_, chart, _) => chart,
    }
}

/// How deep in its chart what a link names stands.
fn depth_of(link: &Link<'_>) -> u32
    ensures { result ≡ depth_of (link_view link.now) }
{
    match link {
        Link::Refers(_, _, _, depth) => *depth,
        Link::Refines(_, _, _) => 2,
    }
}

/// The extent of that number, where there is one.
fn extent_at(values: &[Extent], number: Option<usize>) -> Extent
    ensures { result ≡ extent_at values.now number }
{
    match number {
        None => no_extent(),
        Some(number) => {
            if number < values.len() {
                values[number]
            } else {
                no_extent()
            }
        }
    }
}

/// An extent with what links add to it, by what is known of the charts that they name.
fn sum_links(own: Extent, links: &[Link<'_>], names: &NameTable, values: &[Extent]) -> Extent
    ensures { result ≡ sum_links names.now values.now own (map link_view links.now) }
{
    let mut sum = own;
    for link in links {
        let chart = chart_of(link);
        let named = extent_at(values, names.number_of(chart.bytes()));
        sum = with_extent(sum, depth_of(link), named);
    }
    sum
}

/// What charts of that rank come to, where those of lower ranks are known.
fn add_rank(
    charts: &[SizedChart<'_, '_>],
    names: &NameTable,
    ranks: &[usize],
    rank: usize,
    values: &mut Vec<Extent>,
)
    requires ranks { AreRanks (summaries (map sized_view charts.now)) ranks.now }
    requires names { names.now ≡ names_of (map sized_view charts.now) }
    requires kept { AreKeptUpTo (map sized_view charts.now) ranks.now rank 0 values.old.items }
    ensures { AreKeptUpTo (map sized_view charts.now) ranks.now rank (length charts.now) values.new.items }
{
    for index in 0..charts.len() {
        if ranks[index] == rank {
            let chart = &charts[index];
            let own = up_to_most(chart.own);
            values[index] = sum_links(
                own,
                chart.summary.links.as_slice(),
                names,
                values.as_slice(),
            );
        }
    }
}

/// The names of the charts.
fn chart_names(alloc: Global, charts: &[SizedChart<'_, '_>]) -> Result<NameTable, NoMemory>
    requires { AreDifferent (names_of (map sized_view charts.now)) }
    ensures { IfOk result (λ names. names ≡ names_of (map sized_view charts.now)) }
{
    let mut names = NameTable::new(alloc);
    for chart in charts {
        names.add(alloc, chart.summary.name.bytes())?;
    }
    Ok(names)
}

/// The highest of the ranks.
fn highest(ranks: &[usize]) -> usize
    ensures { (i : ℕ) → slice_index_or ranks.now i 0 ≤ result }
{
    let mut most = 0;
    for rank in ranks {
        most = most.max(*rank);
    }
    most
}

/// What each chart comes to, up to a number above all limits. It takes the time of the links, and of the square of the number of charts. It
/// fails only for want of memory.
pub fn chart_extents(
    alloc: Global,
    charts: &[SizedChart<'_, '_>],
    ranks: &[usize],
) -> Result<Vec<Extent>, NoMemory>
    requires ranks { AreRanks (summaries (map sized_view charts.now)) ranks.now }
    requires different { AreDifferent (names_of (map sized_view charts.now)) }
    ensures { IfOk result (λ values. AreKept (map sized_view charts.now) values.items) }
{
    let names = chart_names(alloc, charts)?;
    let mut values = vec![in alloc; no_extent(); charts.len()]?;
    let most = highest(ranks);
    for rank in 0..most {
        add_rank(charts, &names, ranks, rank, &mut values);
    }
    add_rank(charts, &names, ranks, most, &mut values);
    Ok(values)
}
