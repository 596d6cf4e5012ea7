//! The listed instances of a high-level chart, which are those of the charts that its nodes name: for `listing`.

ghost use Rattle.std.specs.Prelude.{◌≡◌, [], IfOk, OnOk, fold};
ghost use Rattle.gate_ends.specs.LevelGates.{HasNames};
ghost use Rattle.gate_ends.specs.NameViews.{names_view};
ghost use Rattle.chart_lists.specs.ListedNames.{AreSeen, listed_view};
ghost use Rattle.chart_lists.specs.Listing.{cover_of};
ghost use Rattle.chart_lists.specs.Listing.{content_listed, entry_listed, instances_behind, listed_to};
ghost use Rattle.msc_base.specs.NameTables.{with_name};
ghost use Rattle.msc_base.specs.declared.limits.TheConstants.Limits.{EXPANDED_NESTING};
ghost use Rattle.msc_meaning.specs.Tables.{chart_at};
ghost use Rattle.msc_meaning.specs.Views.{body_view, entry_view, table_view};
ghost use Rattle.msc_tree.specs.Views.{graph_view};
ghost use Rattle.woven_laws.specs.GraphNames.{graph_names};

use crate::graph_names::graph_names;
use level_surroundings::{ChartTable, chart_named};
use msc_base::{Limits, Name, NameTable, NoMemory};
use msc_meaning::{Body, ChartEntry, EntryContent};
use msc_tree::RawGraph;
use std::alloc::Global;

/// Names, each once, in the order in which they were first listed.
#[derive(Drop)]
pub struct ListedNames<'a> {
    /// The names.
    pub names: Vec<&'a Name>,
    /// A table of them.
    pub seen: NameTable,
}

/// No names.
fn no_names<'a>(alloc: Global) -> ListedNames<'a>
    ensures none { listed_view result ≡ [] }
    ensures seen { AreSeen result }
{
    ListedNames {
        names: Vec::new(alloc),
        seen: NameTable::new(alloc),
    }
}

/// Adds a name, where it is new.
fn add_name<'a>(alloc: Global, list: &mut ListedNames<'a>, name: &'a Name) -> Result<(), NoMemory>
    requires { AreSeen list.old }
    ensures made { OnOk result (listed_view list.new ≡ with_name (listed_view list.old) name.entry.now) }
    ensures seen { OnOk result (AreSeen list.new) }
{
    if list.seen.has(name.bytes()) {
        return Ok(());
    }
    list.seen.add(alloc, name.bytes())?;
    list.names.push(name)?;
    Ok(())
}

/// Adds names, those that are new.
fn add_names<'a>(
    alloc: Global,
    list: &mut ListedNames<'a>,
    names: &'a [Name],
) -> Result<(), NoMemory>
    requires { AreSeen list.old }
    ensures made { OnOk result (listed_view list.new ≡ fold with_name (listed_view list.old) names.entry.now) }
    ensures seen { OnOk result (AreSeen list.new) }
{
    for name in names {
        add_name(alloc, list, name)?;
    }
    Ok(())
}

/// The instances that a body covers.
pub fn covered(body: &Body) -> &[Name]
    ensures { result.now ≡ cover_of (body_view body.now) }
{
    body.cover.as_slice()
}

/// Adds the listed instances of a chart, those that are new. The charts that it names stand in each other less than so deep.
#[cycle(listed)]
fn add_chart<'a>(
    alloc: Global,
    table: ChartTable<'a>,
    depth: u32,
    chart: &'a ChartEntry,
    list: &mut ListedNames<'a>,
) -> Result<(), NoMemory>
    requires named { HasNames table.charts.now table.names.now }
    requires seen { AreSeen list.old }
    ensures made { OnOk result (listed_view list.new ≡ fold with_name (listed_view list.old) (content_listed (listed_to (table_view table.entry.charts.now) depth) (entry_view chart.entry.now).content)) }
    ensures seen { OnOk result (AreSeen list.new) }
{
    match &chart.content {
        EntryContent::Basic(body) => add_names(alloc, list, covered(body)),
        EntryContent::Graph(graph) => {
            let names = graph_names(alloc, graph)?;
            add_charts(alloc, table, depth, names.as_slice(), list)
        }
    }
}

/// Adds those of the charts of these names.
#[cycle(listed)]
fn add_charts<'a>(
    alloc: Global,
    table: ChartTable<'a>,
    depth: u32,
    names: &[&'a Name],
    list: &mut ListedNames<'a>,
) -> Result<(), NoMemory>
    requires named { HasNames table.charts.now table.names.now }
    requires seen { AreSeen list.old }
    ensures made { OnOk result (listed_view list.new ≡ instances_behind (listed_to (table_view table.entry.charts.now) depth) (listed_view list.old) (names_view names.now)) }
    ensures seen { OnOk result (AreSeen list.new) }
{
    if depth == 0 {
        return Ok(());
    }
    for name in names {
        add_named(alloc, table, depth - 1, name, list)?;
    }
    Ok(())
}

/// Adds those of the chart of a name, where it is there.
#[cycle(listed)]
fn add_named<'a>(
    alloc: Global,
    table: ChartTable<'a>,
    depth: u32,
    name: &Name,
    list: &mut ListedNames<'a>,
) -> Result<(), NoMemory>
    requires named { HasNames table.charts.now table.names.now }
    requires seen { AreSeen list.old }
    ensures made { OnOk result (listed_view list.new ≡ fold with_name (listed_view list.old) (entry_listed (listed_to (table_view table.entry.charts.now) depth) (chart_at (table_view table.entry.charts.now) name.now))) }
    ensures seen { OnOk result (AreSeen list.new) }
{
    match chart_named(table, name.bytes()) {
        None => Ok(()),
        Some(chart) => add_chart(alloc, table, depth, chart, list),
    }
}

/// The listed instances of the charts that the nodes of a graph name.
pub fn drawn_instances<'a>(
    alloc: Global,
    table: ChartTable<'a>,
    graph: &'a RawGraph,
) -> Result<ListedNames<'a>, NoMemory>
    requires { HasNames table.charts.now table.names.now }
    ensures { IfOk result (λ list. listed_view list ≡ instances_behind (listed_to (table_view table.entry.charts.now) EXPANDED_NESTING) [] (graph_names (graph_view graph.entry.now))) }
{
    let mut list = no_names(alloc);
    let names = graph_names(alloc, graph)?;
    let depth = Limits::EXPANDED_NESTING as u32;
    add_charts(alloc, table, depth, names.as_slice(), &mut list)?;
    Ok(list)
}
