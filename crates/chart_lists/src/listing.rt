//! How a chart is listed: whether it is a high-level chart, and its instances.

ghost use Rattle.std.specs.Prelude.{◌≡◌, ◌&&◌, IfOk, None, length, map};
ghost use Rattle.std.specs.Option.{is_some};
ghost use Rattle.std.specs.Str.{bytes_eq};
ghost use Rattle.msc_meaning.specs.Tables.{refined_as};
ghost use Rattle.gate_ends.specs.LevelGates.{HasNames};
ghost use Rattle.gate_ends.specs.NameViews.{names_view};
ghost use Rattle.msc_meaning.specs.Views.{entry_view, table_view};
ghost use Rattle.chart_lists.specs.Listing.{as_listed, is_graph_of, listed_of};

use crate::drawn_instances::{covered, drawn_instances};
use level_surroundings::ChartTable;
use msc_base::{Items, Name, NoMemory, Place, copy_name};
use msc_meaning::{ChartEntry, EntryContent};
use msc_tree::{Decl, DeclList};
use std::alloc::Global;

/// Whether a chart is a high-level chart.
pub fn is_graph(chart: &ChartEntry) -> bool
    ensures { result ≡ is_graph_of (entry_view chart.now) }
{
    match chart.content {
        EntryContent::Basic(_) => false,
        EntryContent::Graph(_) => true,
    }
}

/// Whether the declaration is one of the instance, and names a chart that refines it.
fn is_refined(decl: &Decl, instance: &Name) -> bool
    ensures { result ≡ (bytes_eq decl.now.name instance.now && is_some decl.now.refined) }
{
    decl.name.same(instance) && decl.refined.is_some()
}

/// The chart that refines the instance, by the first declaration that names one.
fn refined(alloc: Global, decls: &[Decl], instance: &Name) -> Result<Option<Name>, NoMemory>
    ensures { IfOk result (λ chart. chart ≡ refined_as decls.now instance.now) }
{
    for decl in decls {
        if is_refined(decl, instance) {
            return copy_name(alloc, &decl.refined);
        }
    }
    Ok(None)
}

/// An instance as it is listed, with the chart that refines it.
fn listed_decl(alloc: Global, instance: &Name, refined: Option<Name>) -> Result<Decl, NoMemory>
    ensures { IfOk result (λ decl. decl ≡ as_listed instance.now refined) }
{
    Ok(Decl {
        name: instance.copy(alloc)?,
        kind: Items::new(alloc),
        refined,
        place: Place {
            byte: 0,
            line: 1,
            column: 1,
        },
    })
}

/// The instances of a basic chart of these declarations as they are listed.
fn own_instances(alloc: Global, decls: &[Decl], names: &[Name]) -> Result<DeclList, NoMemory>
    ensures { IfOk result (λ listed. listed ≡ map (λ n. as_listed n (refined_as decls.now n)) names.now) }
{
    let mut listed = Items::new(alloc);
    for instance in names {
        let refined = refined(alloc, decls, instance)?;
        listed.push(listed_decl(alloc, instance, refined)?)?;
    }
    Ok(listed)
}

/// Those of a high-level chart, none of which is refined.
fn plain_instances(alloc: Global, names: &[&Name]) -> Result<DeclList, NoMemory>
    ensures { IfOk result (λ listed. listed ≡ map (λ n. as_listed n None) (names_view names.now)) }
{
    let mut listed = Items::new(alloc);
    for instance in names {
        listed.push(listed_decl(alloc, instance, None)?)?;
    }
    Ok(listed)
}

/// How many instances of a chart of these are listed.
pub fn listed_count(
    alloc: Global,
    table: ChartTable<'_>,
    chart: &ChartEntry,
) -> Result<usize, NoMemory>
    requires named { HasNames table.charts.now table.names.now }
    ensures { IfOk result (λ count. count ≡ length (listed_of (table_view table.entry.charts.now) (entry_view chart.now))) }
{
    match &chart.content {
        EntryContent::Basic(body) => Ok(covered(body).len()),
        EntryContent::Graph(graph) => {
            let list = drawn_instances(alloc, table, graph)?;
            Ok(list.names.len())
        }
    }
}

/// The listed instances of a chart of these: of a basic chart its own, of a high-level chart those of the charts that its
/// nodes name.
pub fn listed_of(
    alloc: Global,
    table: ChartTable<'_>,
    chart: &ChartEntry,
) -> Result<DeclList, NoMemory>
    requires named { HasNames table.charts.now table.names.now }
    ensures { IfOk result (λ listed. listed ≡ listed_of (table_view table.entry.charts.now) (entry_view chart.now)) }
{
    match &chart.content {
        EntryContent::Basic(body) => own_instances(alloc, chart.decls.as_slice(), covered(body)),
        EntryContent::Graph(graph) => {
            let list = drawn_instances(alloc, table, graph)?;
            plain_instances(alloc, list.names.as_slice())
        }
    }
}
