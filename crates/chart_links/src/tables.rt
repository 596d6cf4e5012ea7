//! Charts and instances by numbers, which charts lead to which, and the expanded instances of each: for `faults`.

ghost use Rattle.std.specs.Prelude.{◌≡◌, ◌↔◌, ◌⊎◌, ℕ, List, IfOk, IsTrue, OnOk, length, map, true};
ghost use Rattle.bit_sets.specs.Blocks.{has_bit};
ghost use Rattle.chart_links.specs.LinkViews.{link_view};
ghost use Rattle.chart_links.specs.Links.{IsRefined, linked};
ghost use Rattle.chart_links.specs.References.{IsExpanded};
ghost use Rattle.chart_links.specs.Summaries.{Summary};
ghost use Rattle.chart_links.specs.SummaryViews.{summary_view};
ghost use Rattle.chart_links.specs.Tables.{AreChartNames, AreEdges, AreOwnRows, AreTables, HasInstances, IsAdded, LinksTo, OwnAmong};
ghost use Rattle.msc_base.specs.Lists.{IsAmong};

use crate::bit_row::BitRow;
use crate::rows::{close, empty_rows, gathered_rows, identity_rows};
use crate::{ChartSummary, Link};
use msc_base::{Name, NameTable, NoMemory};
use std::alloc::Global;

/// What is known of the charts of a document: which lead to which, and the expanded instances of each.
#[derive(Drop)]
pub struct LinkTables {
    /// The names of the charts.
    pub(crate) names: NameTable,
    /// The instances of all charts.
    pub(crate) known: NameTable,
    /// To which charts each leads, itself among them.
    pub(crate) reach: Vec<BitRow>,
    /// The expanded instances of each.
    pub(crate) expanded: Vec<BitRow>,
}

impl LinkTables {
    /// Whether the chart of that name has the instance, or one that it leads to does: an expanded instance.
    pub fn has_expanded(&self, chart: &Name, instance: &Name) -> bool
        requires { length self.now.expanded.items ≡ length self.now.names }
        ensures { (charts : List Summary) → AreTables charts self.now.names self.now.known self.now.reach.items self.now.expanded.items → IsTrue result ↔ IsExpanded charts chart.now instance.now }
    {
        let Some(row) = self.names.number_of(chart.bytes()) else {
            return false;
        };
        let Some(number) = self.known.number_of(instance.bytes()) else {
            return false;
        };
        self.expanded[row].has(number)
    }
}

/// The chart that a link names.
pub(crate) fn chart_of<'a>(link: &Link<'a>) -> &'a Name
    ensures { result.now ≡ linked (link_view link.now) }
{
    match link {
        Link::Refers(chart, _, _, _) => chart,
        Link::Refines(_, chart, _) => chart,
    }
}

/// The numbers of the charts that links name.
fn links_row(alloc: Global, names: &NameTable, links: &[Link<'_>]) -> Result<BitRow, NoMemory>
    ensures { IfOk result (λ row. (n : ℕ) → (has_bit row n ≡ true) ↔ LinksTo names.now (map link_view links.now) n) }
{
    let mut row = BitRow::new(alloc);
    for link in links {
        let chart = chart_of(link);
        if let Some(number) = names.number_of(chart.bytes()) {
            row.add(number)?;
        }
    }
    Ok(row)
}

/// The instances that links refine.
fn refined_names(alloc: Global, links: &[Link<'_>]) -> Result<NameTable, NoMemory>
    ensures { IfOk result (λ table. (n : List ℕ) → IsAmong table n ↔ IsRefined (map link_view links.now) n) }
{
    let mut table = NameTable::new(alloc);
    for link in links {
        match link {
            Link::Refines(instance, _, _) => table.add(alloc, instance.bytes())?,
            Link::Refers(_, _, _, _) => {}
        }
    }
    Ok(table)
}

/// The numbers of those instances that no link refines.
fn own_row(
    alloc: Global,
    known: &NameTable,
    links: &[Link<'_>],
    instances: &[Name],
) -> Result<BitRow, NoMemory>
    ensures { IfOk result (λ row. (n : ℕ) → (has_bit row n ≡ true) ↔ OwnAmong known.now (map link_view links.now) instances.now n) }
{
    let refined = refined_names(alloc, links)?;
    let mut row = BitRow::new(alloc);
    for instance in instances {
        if refined.has(instance.bytes()) {
            continue;
        }
        if let Some(number) = known.number_of(instance.bytes()) {
            row.add(number)?;
        }
    }
    Ok(row)
}

/// Adds a set to the row of a name's number.
fn add_row(
    rows: &mut Vec<BitRow>,
    names: &NameTable,
    name: &Name,
    set: &BitRow,
) -> Result<(), NoMemory>
    requires { length rows.old.items ≡ length names.now }
    ensures len { length rows.new.items ≡ length rows.old.items }
    ensures added { OnOk result (IsAdded names.now name.now set.now rows.old.items rows.new.items) }
{
    if let Some(number) = names.number_of(name.bytes()) {
        let row = &mut rows[number];
        row.unite(set)?;
    }
    Ok(())
}

/// For each number of a name itself, and the numbers of the charts that those of the name name.
fn edge_rows(
    alloc: Global,
    names: &NameTable,
    charts: &[ChartSummary<'_>],
) -> Result<Vec<BitRow>, NoMemory>
    ensures len { IfOk result (λ rows. length rows.items ≡ length names.now) }
    ensures edges { IfOk result (λ rows. AreEdges names.now (map summary_view charts.now) rows.items) }
{
    let mut rows = identity_rows(alloc, names.len())?;
    for chart in charts {
        let row = links_row(alloc, names, chart.links.as_slice())?;
        add_row(&mut rows, names, chart.name, &row)?;
    }
    Ok(rows)
}

/// For each number of a name the numbers of the charts' own instances.
fn own_rows(
    alloc: Global,
    names: &NameTable,
    known: &NameTable,
    charts: &[ChartSummary<'_>],
) -> Result<Vec<BitRow>, NoMemory>
    ensures len { IfOk result (λ rows. length rows.items ≡ length names.now) }
    ensures own { IfOk result (λ rows. AreOwnRows names.now known.now (map summary_view charts.now) rows.items) }
{
    let mut rows = empty_rows(alloc, names.len())?;
    for chart in charts {
        let row = own_row(
            alloc,
            known,
            chart.links.as_slice(),
            chart.instances.as_slice(),
        )?;
        add_row(&mut rows, names, chart.name, &row)?;
    }
    Ok(rows)
}

/// The names of the charts.
fn chart_names(alloc: Global, charts: &[ChartSummary<'_>]) -> Result<NameTable, NoMemory>
    ensures { IfOk result (AreChartNames (map summary_view charts.now)) }
{
    let mut names = NameTable::new(alloc);
    for chart in charts {
        names.add(alloc, chart.name.bytes())?;
    }
    Ok(names)
}

/// Adds names to a table.
fn add_names(alloc: Global, table: &mut NameTable, names: &[Name]) -> Result<(), NoMemory>
    ensures { OnOk result ((n : List ℕ) → IsAmong table.new n ↔ (IsAmong table.old n ⊎ IsAmong names.now n)) }
{
    for name in names {
        table.add(alloc, name.bytes())?;
    }
    Ok(())
}

/// The instances of all charts.
fn instance_names(alloc: Global, charts: &[ChartSummary<'_>]) -> Result<NameTable, NoMemory>
    ensures { IfOk result (HasInstances (map summary_view charts.now)) }
{
    let mut known = NameTable::new(alloc);
    for chart in charts {
        add_names(alloc, &mut known, chart.instances.as_slice())?;
    }
    Ok(known)
}

/// What is known of these charts. It takes the time of their links and instances, and of the square of the number of charts; no chart is
/// expanded. It fails only for want of memory.
pub fn link_tables(alloc: Global, charts: &[ChartSummary<'_>]) -> Result<LinkTables, NoMemory>
    ensures { IfOk result (λ t. AreTables (map summary_view charts.now) t.names t.known t.reach.items t.expanded.items) }
{
    let names = chart_names(alloc, charts)?;
    let known = instance_names(alloc, charts)?;
    let mut reach = edge_rows(alloc, &names, charts)?;
    close(alloc, &mut reach)?;
    let own = own_rows(alloc, &names, &known, charts)?;
    let expanded = gathered_rows(alloc, reach.as_slice(), own.as_slice())?;
    Ok(LinkTables {
        names,
        known,
        reach,
        expanded,
    })
}
