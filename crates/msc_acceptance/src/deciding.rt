//! The rules group by group, up to the first that is broken; else the table. For `acceptance` alone.

ghost use Rattle.std.specs.Prelude.{◌≡◌, ◌++◌, IfOk, List, None, map};
ghost use Rattle.chart_text.specs.WellFormed.{AreAllWellFormed};
ghost use Rattle.msc_rules.specs.FirstFaults.{IsBest};
ghost use Rattle.msc_rules.specs.Rules.{number_of};
ghost use Rattle.msc_acceptance.specs.Acceptance.{BreaksOf};
ghost use Rattle.msc_acceptance.specs.Deciding.{AreFaultsIn, AreTextPlaces, HaveExtents, IsDecided, IsFirstOf, IsReading, IsSettled, IsWhole, body_groups, creations, graph_groups, limits, names, parts, table_groups, text_groups};
ghost use Rattle.msc_acceptance.specs.SizedCharts.{OfSizes};
ghost use Rattle.msc_meaning.specs.Tables.{Table};
ghost use Rattle.msc_tree.specs.Charts.{Chart};
ghost use Rattle.msc_tree.specs.Views.{chart_view};

use crate::Accepted;
use crate::cycles::settle;
use crate::graphs::{charts_graphs, graph_fault};
use crate::limits::{further_chart, further_instance};
use crate::links::{ReadCharts, link_fault};
use crate::names::second_chart;
use crate::parts::part_places;
use crate::reading::{Reading, TextPlaces, read_charts};
use crate::refinements::{KnownRefinements, known_links};
use crate::tables::{BodyFaults, woven_charts};
use crate::walks::earlier;
use graph_rules::further_line;
use msc_base::NoMemory;
use msc_rules::{Broken, Rule, broken_at, earlier_fault};
use msc_tree::RawChart;
use std::alloc::Global;
use woven_laws::laws::{built_charts_are_known, woven_charts_are_known};

/// What a document comes to.
#[derive(Drop)]
pub enum Decision {
    /// Its charts.
    Accepted(Accepted),
    /// Its first fault.
    Faulty(Broken<Rule>),
}

/// The first fault by the limits, by what is read of the charts.
fn limit_fault(
    alloc: Global,
    charts: &[RawChart],
    reading: &Reading,
) -> Result<Option<Broken<Rule>>, NoMemory>
    requires { IsReading (map chart_view charts.now) reading.now }
    ensures { IfOk result (IsBest number_of (BreaksOf (map chart_view charts.now)) limits) }
{
    let further = broken_at(Rule::Charts, further_chart(charts));
    let place = further_instance(alloc, charts, reading.lists.as_slice())?;
    let instances = broken_at(Rule::Instances, place);
    let graphs = charts_graphs(alloc, charts)?;
    let nodes = broken_at(Rule::Nodes, further_line(graphs.as_slice()));
    let high = broken_at(Rule::LoopBound, reading.places.high_bound);
    Ok(earlier_fault(
        earlier_fault(earlier_fault(further, instances), nodes),
        high,
    ))
}

/// The first fault of names, by the places inside charts.
fn name_fault(
    alloc: Global,
    charts: &[RawChart],
    places: TextPlaces,
) -> Result<Option<Broken<Rule>>, NoMemory>
    requires { AreTextPlaces (map chart_view charts.now) places }
    ensures { IfOk result (IsBest number_of (BreaksOf (map chart_view charts.now)) names) }
{
    let again = second_chart(alloc, charts)?;
    let twice = broken_at(Rule::NamedTwice, earlier(again, places.twice));
    let other = broken_at(Rule::Undeclared, places.undeclared);
    Ok(earlier_fault(twice, other))
}

/// The first fault of creations and stops, by the places inside charts.
fn creation_fault(places: TextPlaces) -> Option<Broken<Rule>>
    ensures { (charts : List Chart) → AreTextPlaces charts places → IsBest number_of (BreaksOf charts) creations result }
{
    let placed = broken_at(Rule::CreatePlace, places.creation);
    let twice = broken_at(Rule::CreateTwice, places.child);
    let after = broken_at(Rule::AfterStop, places.behind);
    earlier_fault(earlier_fault(placed, twice), after)
}

/// The first fault of parts, creations and stops, by what is read of the charts.
fn part_fault(
    alloc: Global,
    charts: &[RawChart],
    reading: &Reading,
) -> Result<Option<Broken<Rule>>, NoMemory>
    requires { IsReading (map chart_view charts.now) reading.now }
    ensures { IfOk result (IsBest number_of (BreaksOf (map chart_view charts.now)) parts) }
{
    let lists = reading.lists.as_slice();
    let places = part_places(alloc, charts, lists, reading.singles.as_slice())?;
    let unshared = broken_at(Rule::NotShared, places.unshared);
    let differing = broken_at(Rule::OperandsDiffer, places.differing);
    let misplaced = broken_at(Rule::ExcPlace, places.misplaced);
    let others = creation_fault(reading.places);
    Ok(earlier_fault(
        earlier_fault(earlier_fault(unshared, differing), misplaced),
        others,
    ))
}

/// The first fault of the rules on the text, by what is read of the charts.
fn text_fault(
    alloc: Global,
    charts: &[RawChart],
    reading: &Reading,
) -> Result<Option<Broken<Rule>>, NoMemory>
    requires formed { AreAllWellFormed (map chart_view charts.now) }
    requires reading { IsReading (map chart_view charts.now) reading.now }
    ensures first { IfOk result (IsFirstOf (map chart_view charts.now) text_groups) }
    ensures extents { IfOk result (λ fault. fault ≡ None → OfSizes (map chart_view charts.now) HaveExtents) }
{
    if let Some(fault) = limit_fault(alloc, charts, reading)? {
        return Ok(Some(fault));
    }
    if let Some(fault) = name_fault(alloc, charts, reading.places)? {
        return Ok(Some(fault));
    }
    let read = ReadCharts {
        charts,
        lists: reading.lists.as_slice(),
        tied: reading.tied.as_slice(),
    };
    if let Some(fault) = link_fault(alloc, read)? {
        return Ok(Some(fault));
    }
    part_fault(alloc, charts, reading)
}

/// The first fault of the rules on what each chart is woven to.
fn body_fault(faults: BodyFaults) -> Option<Broken<Rule>>
    ensures first { (charts : List Chart) → AreFaultsIn charts faults → IsFirstOf charts body_groups result }
    ensures whole { result ≡ None → IsWhole faults }
{
    if let Some(place) = faults.crossed {
        return Some(Broken {
            rule: Rule::Crossed,
            place,
        });
    }
    if let Some(place) = faults.alone {
        return Some(Broken {
            rule: Rule::Unmatched,
            place,
        });
    }
    None
}

/// What charts come to together, and by the first fault of their graphs.
fn with_graphs(settled: Decision, drawn: Option<Broken<Rule>>) -> Decision
    ensures { (charts : List Chart) (table : Table) → IsSettled table_groups charts table settled → IsFirstOf charts graph_groups drawn → IsSettled (table_groups ++ graph_groups) charts table result }
{
    match settled {
        Decision::Faulty(fault) => Decision::Faulty(fault),
        Decision::Accepted(accepted) => match drawn {
            Some(fault) => Decision::Faulty(fault),
            None => Decision::Accepted(accepted),
        },
    }
}

/// The table of these charts, whose text is well formed, or their first fault.
pub fn decide(alloc: Global, charts: Vec<RawChart>) -> Result<Decision, NoMemory>
    requires { AreAllWellFormed (map chart_view charts.items) }
    ensures { IfOk result (IsDecided (map chart_view charts.items)) }
{
    built_charts_are_known();
    woven_charts_are_known();
    let reading = read_charts(alloc, charts.as_slice())?;
    if let Some(fault) = text_fault(alloc, charts.as_slice(), &reading)? {
        return Ok(Decision::Faulty(fault));
    }
    let links = known_links(
        alloc,
        charts.as_slice(),
        reading.lists.as_slice(),
        reading.refined.as_slice(),
    )?;
    let known = KnownRefinements {
        links: links.as_ref(),
        coregion: reading.places.coregion,
    };
    let drawn = graph_fault(alloc, charts.as_slice(), reading.lists.as_slice())?;
    let made = woven_charts(alloc, charts, reading.lists.as_slice())?;
    if let Some(fault) = body_fault(made.faults) {
        return Ok(Decision::Faulty(fault));
    }
    let stands = reading.stands.as_slice();
    let settled = settle(alloc, made.entries, known, made.faults, stands)?;
    Ok(with_graphs(settled, drawn))
}
