//! The earliest decomposition whose chart has other events with the environment than the instance has events: for `faults`.

ghost use Rattle.std.specs.Prelude.{◌≡◌, ◌↔◌, IfOk, IsTrue};
ghost use Rattle.gate_ends.specs.LevelGates.{HasNames};
ghost use Rattle.msc_base.specs.Places.{IsLeast};
ghost use Rattle.msc_meaning.specs.ItemViews.{items_view};
ghost use Rattle.msc_meaning.specs.Views.{table_view};
ghost use Rattle.refinement_rules.specs.Judging.{DeclHolds, MismatchBy, OfRefining};
ghost use Rattle.refinement_rules.specs.Walks.{OneHolds, SoFarOr, is_wanted as wanted_of};

use crate::chart_table::{ChartTable, body_named};
use msc_base::{Name, NoMemory, Place, comes_before, earlier_if};
use msc_meaning::Item;
use msc_tree::Decl;
use refined_events::mismatches;
use std::alloc::Global;

/// Whether the chart has other events with the environment than the instance has events.
fn differs(
    alloc: Global,
    table: ChartTable<'_>,
    items: &[Item],
    instance: &Name,
    chart: &Name,
) -> Result<bool, NoMemory>
    requires { HasNames table.charts.now table.names.now }
    ensures { IfOk result (λ told. IsTrue told ↔ MismatchBy (table_view table.entry.charts.now) (items_view items.now) instance.now chart.now) }
{
    match body_named(table, chart) {
        Some(body) => mismatches(alloc, instance, items, body.items.as_slice()),
        None => mismatches(alloc, instance, items, &[]),
    }
}

/// Whether the instance of a declaration is decomposed, and its chart has.
fn decl_differs(
    alloc: Global,
    table: ChartTable<'_>,
    items: &[Item],
    decl: &Decl,
) -> Result<bool, NoMemory>
    requires { HasNames table.charts.now table.names.now }
    ensures { IfOk result (λ told. IsTrue told ↔ OfRefining (MismatchBy (table_view table.entry.charts.now) (items_view items.now) decl.now.name) decl.now.refined) }
{
    match &decl.refined {
        Some(chart) => differs(alloc, table, items, &decl.name, chart),
        None => Ok(false),
    }
}

/// Whether the place is earlier than that so far.
fn is_wanted(so_far: Option<Place>, place: Place) -> bool
    ensures { result ≡ wanted_of so_far place }
{
    match so_far {
        Some(other) => comes_before(place, other),
        None => true,
    }
}

/// The earliest place so far, or that of a declaration of which it holds. A place that isn't earlier takes no time.
fn decl_place(
    alloc: Global,
    so_far: Option<Place>,
    table: ChartTable<'_>,
    items: &[Item],
    decl: &Decl,
) -> Result<Option<Place>, NoMemory>
    requires { HasNames table.charts.now table.names.now }
    ensures { IfOk result (λ best. IsLeast (SoFarOr so_far (DeclHolds (MismatchBy (table_view table.entry.charts.now) (items_view items.now)) decl.now)) best) }
{
    if !is_wanted(so_far, decl.place) {
        return Ok(so_far);
    }
    let holds = decl_differs(alloc, table, items, decl)?;
    Ok(earlier_if(so_far, decl.place, holds))
}

/// The earliest place so far, or that of one of the declarations of which it holds.
pub(crate) fn mismatch_place(
    alloc: Global,
    so_far: Option<Place>,
    table: ChartTable<'_>,
    items: &[Item],
    decls: &[Decl],
) -> Result<Option<Place>, NoMemory>
    requires { HasNames table.charts.now table.names.now }
    ensures { IfOk result (λ best. IsLeast (SoFarOr so_far (OneHolds (DeclHolds (MismatchBy (table_view table.entry.charts.now) (items_view items.now))) decls.now)) best) }
{
    let mut best = so_far;
    for decl in decls {
        let next = decl_place(alloc, best, table, items, decl)?;
        best = next;
    }
    Ok(best)
}
