//! The table of charts, each woven, with the earliest places at which what they are woven to breaks a rule: for `deciding`.

ghost use Rattle.std.specs.Prelude.{◌≡◌, IfOk, List, None, OnOk, Some, map};
ghost use Rattle.chart_text.specs.WellFormed.{AreAllWellFormed, IsWellFormed};
ghost use Rattle.msc_acceptance.specs.ChartFaults.{IsBodyOf};
ghost use Rattle.msc_acceptance.specs.Deciding.{AreFaultsOf, AreWoven, IsBarred, IsNextWoven, IsTakenIn, IsWeaveFault, IsWovenTo, earlier_of};
ghost use Rattle.msc_instances.specs.Instances.{instances};
ghost use Rattle.msc_meaning.specs.Views.{body_view, entry_view};
ghost use Rattle.msc_meaning.specs.WovenTables.{IsEntryOf};
ghost use Rattle.msc_tree.specs.Charts.{Basic};
ghost use Rattle.msc_tree.specs.Statements.{Statement as StatementValue};
ghost use Rattle.msc_tree.specs.Views.{chart_view, statement_view};

use crate::declaring::chart_decls;
use crate::walks::earlier;
use general_ordering::first_name_faults;
use level_weaving::{WeaveFault, weave};
use msc_base::{Names, NoMemory, Place};
use msc_meaning::{Body, ChartEntry, EntryContent, body_levels};
use msc_tree::{Content, RawChart, Statement};
use std::alloc::Global;

/// What charts are woven to.
#[derive(Drop)]
pub struct Weaving {
    /// The entries of the charts that can be woven.
    pub entries: Vec<ChartEntry>,
    /// Where what the charts are woven to breaks a rule.
    pub faults: BodyFaults,
}

/// The earliest places at which charts break the rules on what they are woven to.
#[derive(Clone, Copy, Debug, PartialEq, Eq)]
pub struct BodyFaults {
    /// Of the earliest item that remains where columns cross.
    pub crossed: Option<Place>,
    /// Of an event without partner.
    pub alone: Option<Place>,
    /// Of an event that is ordered with a name that no event of its level has.
    pub unknown: Option<Place>,
    /// Of an event that has the name of an earlier one of its level.
    pub twice: Option<Place>,
}

/// No faults, or crossed columns or an event without partner alone.
fn barring(crossed: Option<Place>, alone: Option<Place>) -> BodyFaults
    ensures crossed { result.crossed ≡ crossed }
    ensures alone { result.alone ≡ alone }
    ensures unknown { result.unknown ≡ None }
    ensures twice { result.twice ≡ None }
{
    BodyFaults {
        crossed,
        alone,
        unknown: None,
        twice: None,
    }
}

/// The earlier places of both.
fn earlier_faults(faults: BodyFaults, others: BodyFaults) -> BodyFaults
    ensures crossed { result.crossed ≡ earlier_of faults.crossed others.crossed }
    ensures alone { result.alone ≡ earlier_of faults.alone others.alone }
    ensures unknown { result.unknown ≡ earlier_of faults.unknown others.unknown }
    ensures twice { result.twice ≡ earlier_of faults.twice others.twice }
{
    BodyFaults {
        crossed: earlier(faults.crossed, others.crossed),
        alone: earlier(faults.alone, others.alone),
        unknown: earlier(faults.unknown, others.unknown),
        twice: earlier(faults.twice, others.twice),
    }
}

/// The entry of a chart, which is woven to that body.
fn entry_of(alloc: Global, chart: &RawChart, body: Body) -> Result<ChartEntry, NoMemory>
    requires { IsBodyOf (chart_view chart.now) (body_view body) }
    ensures { IfOk result (λ entry. IsEntryOf (instances (chart_view chart.now)) (chart_view chart.now) (entry_view entry)) }
{
    let name = chart.name.copy(alloc)?;
    let decls = chart_decls(alloc, chart)?;
    Ok(ChartEntry {
        name,
        decls,
        content: EntryContent::Basic(body),
    })
}

/// What one chart is woven to.
#[derive(Drop)]
enum ChartResult {
    /// Its entry, and where it breaks a rule.
    Entry(ChartEntry, BodyFaults),
    /// Where it breaks a rule so that it has none.
    Barred(BodyFaults),
}

/// Where a chart can't be woven, and that is why.
fn barred_by(chart: &RawChart, fault: WeaveFault) -> Result<BodyFaults, NoMemory>
    requires { IsWeaveFault (chart_view chart.now) fault }
    ensures { IfOk result (IsBarred (chart_view chart.now)) }
{
    match fault {
        WeaveFault::Crossed(place) => Ok(barring(Some(place), None)),
        WeaveFault::Unmatched(place) => Ok(barring(None, Some(place))),
        WeaveFault::NoMemory => Err(NoMemory),
    }
}

/// Where a chart, which is woven to that body, breaks a rule.
fn faults_of(alloc: Global, chart: &RawChart, body: &Body) -> Result<BodyFaults, NoMemory>
    requires { IsWovenTo (chart_view chart.now) (body_view body.now) }
    ensures { IfOk result (AreFaultsOf (chart_view chart.now)) }
{
    let held = body_levels(alloc, body)?;
    let levels = held.as_slice();
    let names = first_name_faults(alloc, levels)?;
    Ok(BodyFaults {
        crossed: None,
        alone: None,
        unknown: names.unknown,
        twice: names.twice,
    })
}

/// The entry of a chart, which is woven to that body, and where it breaks a rule.
fn entry_result(alloc: Global, chart: &RawChart, body: Body) -> Result<ChartResult, NoMemory>
    requires { IsWovenTo (chart_view chart.now) (body_view body) }
    ensures { IfOk result (IsNextWoven (chart_view chart.now)) }
{
    let faults = faults_of(alloc, chart, &body)?;
    let entry = entry_of(alloc, chart, body)?;
    Ok(ChartResult::Entry(entry, faults))
}

/// What a chart, whose instances `names` are, is woven to by its statements.
fn woven_statements(
    alloc: Global,
    chart: &RawChart,
    names: &Names,
    list: &[Statement],
) -> Result<ChartResult, NoMemory>
    requires content { (chart_view chart.now).content ≡ Basic (map statement_view list.now) }
    requires formed { IsWellFormed (chart_view chart.now) }
    requires names { names.now ≡ instances (chart_view chart.now) }
    ensures { IfOk result (IsNextWoven (chart_view chart.now)) }
{
    match weave(alloc, names, list) {
        Ok(body) => entry_result(alloc, chart, body),
        Err(fault) => Ok(ChartResult::Barred(barred_by(chart, fault)?)),
    }
}

/// The entry of a high-level chart, which keeps its graph.
fn drawn_result(alloc: Global, chart: RawChart) -> Result<ChartResult, NoMemory>
    requires { (held : List StatementValue) → (chart_view chart).content ≡ Basic held → ⊥ }
    ensures { IfOk result (IsNextWoven (chart_view chart)) }
{
    let decls = chart_decls(alloc, &chart)?;
    let RawChart { name, content, .. } = chart;
    match content {
        Content::Events(_held) => unreachable!(),
        Content::Graph(graph) => {
            let content = EntryContent::Graph(graph);
            let entry = ChartEntry {
                name,
                decls,
                content,
            };
            Ok(ChartResult::Entry(entry, barring(None, None)))
        }
    }
}

/// What a chart, whose instances `names` are, is woven to. The chart is dropped, but for its graph.
fn woven(alloc: Global, chart: RawChart, names: &Names) -> Result<ChartResult, NoMemory>
    requires formed { IsWellFormed (chart_view chart) }
    requires names { names.now ≡ instances (chart_view chart) }
    ensures { IfOk result (IsNextWoven (chart_view chart)) }
{
    if let Content::Events(list) = &chart.content {
        return woven_statements(alloc, &chart, names, list.as_slice());
    }
    drawn_result(alloc, chart)
}

/// Takes in what one more chart is woven to: the earlier places of both, and its entry, where it has one.
fn take_in(made: &mut Weaving, chart: ChartResult) -> Result<(), NoMemory>
    ensures { OnOk result (IsTakenIn made.old chart made.new) }
{
    match chart {
        ChartResult::Entry(entry, found) => {
            made.entries.push(entry)?;
            made.faults = earlier_faults(made.faults, found);
        }
        ChartResult::Barred(found) => made.faults = earlier_faults(made.faults, found),
    }
    Ok(())
}

/// What the charts, whose instances `lists` are, are woven to. Each is dropped as soon as it is woven, but for its graph.
pub fn woven_charts(
    alloc: Global,
    charts: Vec<RawChart>,
    lists: &[Names],
) -> Result<Weaving, NoMemory>
    requires formed { AreAllWellFormed (map chart_view charts.items) }
    requires lists { lists.now ≡ map instances (map chart_view charts.items) }
    ensures { IfOk result (AreWoven (map chart_view charts.items)) }
{
    let mut made = Weaving {
        entries: Vec::new(alloc),
        faults: barring(None, None),
    };
    let mut number = 0;
    for chart in charts {
        let one = woven(alloc, chart, &lists[number])?;
        take_in(&mut made, one)?;
        number += 1;
    }
    Ok(made)
}
