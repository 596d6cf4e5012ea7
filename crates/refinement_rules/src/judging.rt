//! The earliest places at which decompositions of one chart break the rules: for `faults`.

ghost use Rattle.std.specs.Prelude.{◌↔◌, IfOk, IsTrue};
ghost use Rattle.msc_base.specs.Places.{IsLeast};
ghost use Rattle.msc_meaning.specs.Views.{body_view, entry_view};
ghost use Rattle.refinement_rules.specs.Earliest.{AreEarliest, BodyBreaksBy, EntryBreaksBy, IsKnown, SharedIn};
ghost use Rattle.refinement_rules.specs.Judging.{DeclHolds, InsideIn, OfRefining};
ghost use Rattle.refinement_rules.specs.Walks.{OneHolds, SoFarOr};

use crate::RefinementPlaces;
use crate::chart_table::ChartTable;
use crate::local::local_place;
use crate::mismatching::mismatch_place;
use crate::refined::{refined_names, some_refined};
use crate::sharing::shared_names;
use crate::taking::taken_numbers;
use chart_links::{BitRow, LinkTables};
use msc_base::{NameTable, NoMemory, Place, earlier_if};
use msc_meaning::{Body, ChartEntry, EntryContent};
use msc_tree::Decl;
use std::alloc::Global;

/// What of a chart's instances takes part in more than one thing: those that an item covers beside another, and the numbers of those that stand
/// elsewhere than in one refining chart alone.
#[derive(Clone, Copy)]
struct Sharing<'a> {
    shared: &'a NameTable,
    taken: &'a BitRow,
}

/// Whether the instance of a declaration is decomposed, and it or its chart shares.
fn decl_shares(tables: &LinkTables, sharing: Sharing<'_>, decl: &Decl) -> bool
    ensures { IsTrue result ↔ OfRefining (SharedIn tables.now.names tables.now.expanded.items sharing.entry.shared.now sharing.entry.taken.now decl.now.name) decl.now.refined }
{
    match &decl.refined {
        Some(chart) => sharing.shared.has(decl.name.bytes())
            || tables.meets_expanded(chart, sharing.taken),
        None => false,
    }
}

/// The earliest place so far, or that of a declaration of which it holds.
fn shared_place(
    so_far: Option<Place>,
    tables: &LinkTables,
    sharing: Sharing<'_>,
    decls: &[Decl],
) -> Option<Place>
    ensures { IsLeast (SoFarOr so_far (OneHolds (DeclHolds (SharedIn tables.now.names tables.now.expanded.items sharing.entry.shared.now sharing.entry.taken.now)) decls.now)) result }
{
    let mut best = so_far;
    for decl in decls {
        best = earlier_if(best, decl.place, decl_shares(tables, sharing, decl));
    }
    best
}

/// Whether the instance of a declaration is decomposed, and its chart is one of those that have more inside, or none.
fn decl_inside(names: &NameTable, inside: &NameTable, decl: &Decl) -> bool
    ensures { IsTrue result ↔ OfRefining (InsideIn names.now inside.now decl.now.name) decl.now.refined }
{
    match &decl.refined {
        Some(chart) => !names.has(chart.bytes()) || inside.has(chart.bytes()),
        None => false,
    }
}

/// The earliest place so far, or that of a declaration of which it holds.
fn inside_place(
    so_far: Option<Place>,
    names: &NameTable,
    inside: &NameTable,
    decls: &[Decl],
) -> Option<Place>
    ensures { IsLeast (SoFarOr so_far (OneHolds (DeclHolds (InsideIn names.now inside.now)) decls.now)) result }
{
    let mut best = so_far;
    for decl in decls {
        best = earlier_if(best, decl.place, decl_inside(names, inside, decl));
    }
    best
}

/// What is known of the charts of a table: their links, and the names of those that have more inside than a refining chart may.
#[derive(Clone, Copy)]
pub(crate) struct Known<'a> {
    pub(crate) table: ChartTable<'a>,
    pub(crate) tables: &'a LinkTables,
    pub(crate) inside: &'a NameTable,
}

/// The earliest places so far, or those at which a basic chart of these declarations breaks the rules, where these are earlier.
fn body_places(
    alloc: Global,
    so_far: RefinementPlaces,
    known: Known<'_>,
    decls: &[Decl],
    body: &Body,
) -> Result<RefinementPlaces, NoMemory>
    requires { IsKnown known }
    ensures { IfOk result (AreEarliest (BodyBreaksBy known.entry decls.now (body_view body.now)) so_far) }
{
    let items = body.items.as_slice();
    let refined = refined_names(alloc, decls)?;
    let shared = shared_names(alloc, &refined, items)?;
    let taken = taken_numbers(alloc, known.tables, &refined, decls, body)?;
    let sharing = Sharing {
        shared: &shared,
        taken: &taken,
    };
    let mismatch = mismatch_place(alloc, so_far.mismatch, known.table, items, decls)?;
    Ok(RefinementPlaces {
        mismatch,
        shared: shared_place(so_far.shared, known.tables, sharing, decls),
        inside: inside_place(so_far.inside, known.table.names, known.inside, decls),
        local: local_place(so_far.local, &refined, items),
    })
}

/// The earliest places so far, or those at which a chart breaks the rules, where these are earlier. A chart without decomposed instances
/// takes no time but that of its declarations.
pub(crate) fn entry_places(
    alloc: Global,
    so_far: RefinementPlaces,
    known: Known<'_>,
    chart: &ChartEntry,
) -> Result<RefinementPlaces, NoMemory>
    requires { IsKnown known }
    ensures { IfOk result (AreEarliest (EntryBreaksBy known.entry (entry_view chart.now)) so_far) }
{
    if !some_refined(chart.decls.as_slice()) {
        return Ok(so_far);
    }
    match &chart.content {
        EntryContent::Basic(body) => body_places(
            alloc,
            so_far,
            known,
            chart.decls.as_slice(),
            body,
        ),
        EntryContent::Graph(_) => Ok(so_far),
    }
}
