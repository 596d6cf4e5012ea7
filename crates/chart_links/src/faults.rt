//! The earliest places at which references and decompositions break a rule.

ghost use Rattle.std.specs.Prelude.{◌≡◌, ◌↔◌, ℕ, List, IfOk, IsTrue, length, map};
ghost use Rattle.std.specs.List.{position};
ghost use Rattle.std.specs.Str.{bytes_eq};
ghost use Rattle.chart_text.specs.PassageViews.{scope_view};
ghost use Rattle.chart_links.specs.FaultPlaces.{IsOutside, SoFarOr};
ghost use Rattle.chart_links.specs.LinkViews.{link_view};
ghost use Rattle.chart_links.specs.References.{AtLink, Covers, LeavesUncovered, MissesChart, Recurs};
ghost use Rattle.chart_links.specs.Links.{place_of as plain_place};
ghost use Rattle.chart_links.specs.SummaryViews.{summary_view};
ghost use Rattle.chart_links.specs.Tables.{AreTables, IsUncoveredIn, MissesBy, RecursBy, UncoversBy, UncoversIn};
ghost use Rattle.msc_base.specs.Places.{IsLeast};

use crate::bit_row::BitRow;
use crate::tables::{LinkTables, chart_of};
use crate::{ChartSummary, Link};
use chart_text::Scope;
use msc_base::{Name, NameTable, NoMemory, Place, earlier_if};
use std::alloc::Global;

/// The earliest places at which charts break the rules on references.
#[derive(Clone, Copy, Debug, PartialEq, Eq)]
pub struct ReferencePlaces {
    /// Of a reference or decomposition that names no chart.
    pub missing: Option<Place>,
    /// Of one whose chart leads back to the chart that it stands in.
    pub recursive: Option<Place>,
    /// Of a reference whose chart has an expanded instance that is the caller's and not covered.
    pub uncovered: Option<Place>,
}

/// Whether the instances cover the one of that name.
fn covers(scope: Scope<'_>, name: &Name) -> bool
    ensures { IsTrue result ↔ Covers (scope_view scope.entry) name.now }
{
    match scope {
        Scope::Whole => true,
        Scope::Column(own) => name.same(own),
        Scope::Listed(names) => names.has(name),
    }
}

/// The numbers of the names.
fn numbers_of(
    alloc: Global,
    known: &NameTable,
    names: &[Name],
) -> Result<Vec<Option<usize>>, NoMemory>
    ensures { IfOk result (λ numbers. numbers.items ≡ map (λ (n : List ℕ). position (bytes_eq n) known.now) names.now) }
{
    let mut numbers = Vec::new(alloc);
    for name in names {
        numbers.push(known.number_of(name.bytes()))?;
    }
    Ok(numbers)
}

/// Whether the instance of that number is in the set, and not covered.
fn is_outside(set: &BitRow, number: Option<usize>, name: &Name, scope: Scope<'_>) -> bool
    ensures { IsTrue result ↔ IsOutside set.now number name.now (scope_view scope.entry) }
{
    match number {
        None => false,
        Some(number) => set.has(number) && !covers(scope, name),
    }
}

/// Whether one of the instances is in the set, and not covered.
fn leaves_one(
    known: &NameTable,
    set: &BitRow,
    names: &[Name],
    numbers: &[Option<usize>],
    scope: Scope<'_>,
) -> bool
    requires { numbers.now ≡ map (λ (n : List ℕ). position (bytes_eq n) known.now) names.now }
    ensures { IsTrue result ↔ IsUncoveredIn known.now set.now names.now (scope_view scope.entry) }
{
    for (index, name) in names.iter().enumerate() {
        if is_outside(set, numbers[index], name, scope) {
            return true;
        }
    }
    false
}

/// Whether no chart has the name of the link.
fn misses(tables: &LinkTables, link: &Link<'_>) -> bool
    ensures { IsTrue result ↔ MissesBy tables.now.names (link_view link.now) }
{
    !tables.names.has(chart_of(link).bytes())
}

/// Whether the link's chart leads back to that of the caller's name.
fn recurs(tables: &LinkTables, caller: &Name, link: &Link<'_>) -> bool
    requires { length tables.now.reach.items ≡ length tables.now.names }
    ensures { IsTrue result ↔ RecursBy tables.now.names tables.now.reach.items caller.now (link_view link.now) }
{
    let Some(from) = tables.names.number_of(chart_of(link).bytes()) else {
        return false;
    };
    let Some(home) = tables.names.number_of(caller.bytes()) else {
        return false;
    };
    tables.reach[from].has(home)
}

/// Whether a reference to a chart leaves one of the instances uncovered.
fn refers_past(
    tables: &LinkTables,
    instances: &[Name],
    numbers: &[Option<usize>],
    chart: &Name,
    scope: Scope<'_>,
) -> bool
    requires len { length tables.now.expanded.items ≡ length tables.now.names }
    requires numbers { numbers.now ≡ map (λ (n : List ℕ). position (bytes_eq n) tables.now.known) instances.now }
    ensures { IsTrue result ↔ UncoversIn tables.now.names tables.now.known tables.now.expanded.items instances.now chart.now (scope_view scope.entry) }
{
    let Some(from) = tables.names.number_of(chart.bytes()) else {
        return false;
    };
    leaves_one(
        &tables.known,
        &tables.expanded[from],
        instances,
        numbers,
        scope,
    )
}

/// Whether the link is a reference that leaves one of the instances uncovered.
fn uncovers(
    tables: &LinkTables,
    instances: &[Name],
    numbers: &[Option<usize>],
    link: &Link<'_>,
) -> bool
    requires len { length tables.now.expanded.items ≡ length tables.now.names }
    requires numbers { numbers.now ≡ map (λ (n : List ℕ). position (bytes_eq n) tables.now.known) instances.now }
    ensures { IsTrue result ↔ UncoversBy tables.now.names tables.now.known tables.now.expanded.items instances.now (link_view link.now) }
{
    match link {
        Link::Refers(chart, _, scope, _) => refers_past(tables, instances, numbers, chart, *scope),
        Link::Refines(_, _, _) => false,
    }
}

/// The place of a link.
fn place_of(link: &Link<'_>) -> Place
    ensures { result ≡ plain_place (link_view link.now) }
{
    match link {
        Link::Refers(_, place, _, _) => *place,
        Link::Refines(_, _, place) => *place,
    }
}

/// The earliest places so far, or those at which a link of the caller's breaks a rule, where these are earlier.
fn link_places(
    so_far: ReferencePlaces,
    tables: &LinkTables,
    caller: &Name,
    instances: &[Name],
    numbers: &[Option<usize>],
    links: &[Link<'_>],
) -> ReferencePlaces
    requires reach { length tables.now.reach.items ≡ length tables.now.names }
    requires expanded { length tables.now.expanded.items ≡ length tables.now.names }
    requires numbers { numbers.now ≡ map (λ (n : List ℕ). position (bytes_eq n) tables.now.known) instances.now }
    ensures missing { IsLeast (SoFarOr so_far.missing (AtLink (MissesBy tables.now.names) (map link_view links.now))) result.missing }
    ensures recursive { IsLeast (SoFarOr so_far.recursive (AtLink (RecursBy tables.now.names tables.now.reach.items caller.now) (map link_view links.now))) result.recursive }
    ensures uncovered { IsLeast (SoFarOr so_far.uncovered (AtLink (UncoversBy tables.now.names tables.now.known tables.now.expanded.items instances.now) (map link_view links.now))) result.uncovered }
{
    let mut missing = so_far.missing;
    let mut recursive = so_far.recursive;
    let mut uncovered = so_far.uncovered;
    for link in links {
        let place = place_of(link);
        missing = earlier_if(missing, place, misses(tables, link));
        recursive = earlier_if(recursive, place, recurs(tables, caller, link));
        uncovered = earlier_if(uncovered, place, uncovers(tables, instances, numbers, link));
    }
    ReferencePlaces {
        missing,
        recursive,
        uncovered,
    }
}

/// The earliest places at which these charts break the rules on references, by what is known of all. It takes the time of the links, and
/// for each reference that of its chart's instances. It fails only for want of memory.
pub fn reference_places(
    alloc: Global,
    charts: &[ChartSummary<'_>],
    tables: &LinkTables,
) -> Result<ReferencePlaces, NoMemory>
    requires { AreTables (map summary_view charts.now) tables.now.names tables.now.known tables.now.reach.items tables.now.expanded.items }
    ensures missing { IfOk result (λ places. IsLeast (MissesChart (map summary_view charts.now)) places.missing) }
    ensures recursive { IfOk result (λ places. IsLeast (Recurs (map summary_view charts.now)) places.recursive) }
    ensures uncovered { IfOk result (λ places. IsLeast (LeavesUncovered (map summary_view charts.now)) places.uncovered) }
{
    let mut places = ReferencePlaces {
        missing: None,
        recursive: None,
        uncovered: None,
    };
    for chart in charts {
        let instances = chart.instances.as_slice();
        let numbers = numbers_of(alloc, &tables.known, instances)?;
        places = link_places(
            places,
            tables,
            chart.name,
            instances,
            numbers.as_slice(),
            chart.links.as_slice(),
        );
    }
    Ok(places)
}
