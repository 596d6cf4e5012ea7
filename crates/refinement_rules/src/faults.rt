//! The earliest places at which decompositions break a rule.

ghost use Rattle.std.specs.Prelude.{◌≡◌, List, IfOk, None, map};
ghost use Rattle.chart_links.specs.Summaries.{Summary};
ghost use Rattle.chart_links.specs.Tables.{AreTables};
ghost use Rattle.gate_ends.specs.LevelGates.{HasNames};
ghost use Rattle.msc_base.specs.Places.{IsLeast};
ghost use Rattle.msc_meaning.specs.declared.body.ChartEntry as entry;
ghost use Rattle.msc_meaning.specs.Views.{entry_view, table_view};
ghost use Rattle.refinement_rules.specs.Earliest.{EntryBreaksBy, IsKnown, told};
ghost use Rattle.refinement_rules.specs.Judging.{TableBreaks};
ghost use Rattle.refinement_rules.specs.RefinementRules.{BreaksRefinementRule};
ghost use Rattle.refinement_rules.specs.Walks.{OneHolds};
ghost use Rattle.refinement_rules.specs.declared.faults.RefinementRule as code;
ghost use Rattle.refinement_rules.specs.declared.faults.RefinementRule.TheVariants.{DecompositionMismatch, Inside, LocalEvent, SharedPart};

use crate::chart_table::ChartTable;
use crate::inside::inside_charts;
use crate::judging::{Known, entry_places};
use crate::refined::some_chart_refined;
use chart_links::LinkTables;
use msc_base::{NameTable, NoMemory, Place};
use msc_meaning::ChartEntry;
use std::alloc::Global;

/// The rules on decomposed instances.
#[derive(Clone, Copy, Debug, PartialEq, Eq)]
pub enum RefinementRule {
    /// Of each direction and text the refining chart has as many events with the environment as the instance has events.
    DecompositionMismatch,
    /// No item covers the instance and another, and no instance of the refining chart's expansion takes part elsewhere in the chart's.
    SharedPart,
    /// The refining chart is a basic chart without decomposed instances, whose events with the environment are at its outermost level.
    Inside,
    /// The instance has plain message events alone.
    LocalEvent,
}

/// The earliest places at which the charts of a table break the rules on decomposed instances.
#[derive(Clone, Copy, Debug, PartialEq, Eq)]
pub struct RefinementPlaces {
    /// Of a decomposition whose chart has other events with the environment than the instance has events.
    pub mismatch: Option<Place>,
    /// Of one that takes part in a shared item, or whose chart shares an instance.
    pub shared: Option<Place>,
    /// Of one whose chart is refined itself, is a graph, or has an event with the environment inside.
    pub inside: Option<Place>,
    /// Of an event, an inline expression or a reference of a decomposed instance that isn't a plain message event.
    pub local: Option<Place>,
}

/// No place.
fn none() -> RefinementPlaces
    ensures { (r : code.RefinementRule) → told r result ≡ None }
{
    RefinementPlaces {
        mismatch: None,
        shared: None,
        inside: None,
        local: None,
    }
}

/// The earliest places at which charts of a table break the rules.
fn charts_places(alloc: Global, known: Known<'_>) -> Result<RefinementPlaces, NoMemory>
    requires { IsKnown known }
    ensures { IfOk result (λ places. (r : code.RefinementRule) → IsLeast (OneHolds (λ (c : entry.ChartEntry). EntryBreaksBy known.entry (entry_view c) r) known.entry.table.charts.now) (told r places)) }
{
    let mut places = none();
    for chart in known.table.charts {
        let next = entry_places(alloc, places, known, chart)?;
        places = next;
    }
    Ok(places)
}

/// The same, by the names of the charts and what is known of their links. Where no chart has a decomposed instance, nothing is asked of the
/// charts' bodies.
fn places_by(
    alloc: Global,
    table: ChartTable<'_>,
    tables: &LinkTables,
) -> Result<RefinementPlaces, NoMemory>
    requires { HasNames table.charts.now table.names.now }
    ensures { IfOk result (λ places. (r : code.RefinementRule) → IsLeast (TableBreaks (table_view table.entry.charts.now) tables.now.names tables.now.known tables.now.reach.items tables.now.expanded.items r) (told r places)) }
{
    if !some_chart_refined(table.charts) {
        return Ok(none());
    }
    let inside = inside_charts(alloc, table, tables)?;
    let known = Known {
        table,
        tables,
        inside: &inside,
    };
    charts_places(alloc, known)
}

/// The earliest places at which the charts of a table, of which the names are given in their order, break the rules on decomposed
/// instances, by what is known of their links. Coregions are told by `local_coregion`. It fails only for want of memory.
pub fn refinement_places(
    alloc: Global,
    charts: &[ChartEntry],
    names: &NameTable,
    tables: &LinkTables,
) -> Result<RefinementPlaces, NoMemory>
    requires { HasNames charts.now names.now }
    ensures mismatch { (links : List Summary) → map (λ (s : Summary). s.name) links ≡ names.now → AreTables links tables.now.names tables.now.known tables.now.reach.items tables.now.expanded.items → IfOk result (λ places. IsLeast (BreaksRefinementRule links (table_view charts.now) DecompositionMismatch) places.mismatch) }
    ensures shared { (links : List Summary) → map (λ (s : Summary). s.name) links ≡ names.now → AreTables links tables.now.names tables.now.known tables.now.reach.items tables.now.expanded.items → IfOk result (λ places. IsLeast (BreaksRefinementRule links (table_view charts.now) SharedPart) places.shared) }
    ensures inside { (links : List Summary) → map (λ (s : Summary). s.name) links ≡ names.now → AreTables links tables.now.names tables.now.known tables.now.reach.items tables.now.expanded.items → IfOk result (λ places. IsLeast (BreaksRefinementRule links (table_view charts.now) Inside) places.inside) }
    ensures local { (links : List Summary) → map (λ (s : Summary). s.name) links ≡ names.now → AreTables links tables.now.names tables.now.known tables.now.reach.items tables.now.expanded.items → IfOk result (λ places. IsLeast (BreaksRefinementRule links (table_view charts.now) LocalEvent) places.local) }
{
    places_by(alloc, ChartTable { charts, names }, tables)
}
