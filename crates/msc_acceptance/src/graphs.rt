//! The graphs of all charts, and the first fault of their labels and ends: for `deciding`.

ghost use Rattle.std.specs.List.{flat_map, list_any};
ghost use Rattle.std.specs.Prelude.{◌≡◌, ◌++◌, ◌∷◌, [], ℕ, IfOk, List, OnOk, fold, map};
ghost use Rattle.std.specs.Str.{bytes_eq};
ghost use Rattle.chart_links.specs.LinkViews.{link_view};
ghost use Rattle.chart_links.specs.Links.{linked};
ghost use Rattle.chart_links.specs.Summaries.{Summary};
ghost use Rattle.chart_links.specs.SummaryViews.{summary_view};
ghost use Rattle.graph_rules.specs.GraphRules.{AreLabelled, HaveFewLines};
ghost use Rattle.graph_rules.specs.GraphViews.{graphs_view};
ghost use Rattle.msc_acceptance.specs.Acceptance.{BreaksOf};
ghost use Rattle.msc_acceptance.specs.Deciding.{AllKept, IsFirstOf, endings, graph_groups, text_groups};
ghost use Rattle.msc_acceptance.specs.GraphFaults.{charts_graphs, graphs_ending, is_referred};
ghost use Rattle.msc_base.specs.NameTables.{with_name};
ghost use Rattle.msc_instances.specs.Instances.{instances};
ghost use Rattle.msc_rules.specs.FirstFaults.{IsBest};
ghost use Rattle.msc_rules.specs.Rules.{number_of};
ghost use Rattle.msc_tree.specs.Views.{chart_view};

use chart_links::{ChartSummary, Link, chart_summaries};
use graph_rules::{chart_graphs, endless_line, graphs_to_end, label_fault};
use msc_base::{Name, NameTable, Names, NoMemory};
use msc_rules::{Broken, Rule, broken_at};
use msc_tree::{RawChart, RawGraph};
use std::alloc::Global;

/// Appends graphs.
fn append<'a>(list: &mut Vec<&'a RawGraph>, more: &[&'a RawGraph]) -> Result<(), NoMemory>
    ensures { OnOk result (graphs_view list.new.items ≡ graphs_view list.old.items ++ graphs_view more.now) }
{
    list.extend_from_slice(more)?;
    Ok(())
}

/// The graphs of charts, with the frames of their nodes, in the order of the text.
pub fn charts_graphs<'a>(
    alloc: Global,
    charts: &'a [RawChart],
) -> Result<Vec<&'a RawGraph>, NoMemory>
    ensures { IfOk result (λ list. graphs_view list.items ≡ charts_graphs (map chart_view charts.now)) }
{
    let mut list = Vec::new(alloc);
    for chart in charts {
        let own = chart_graphs(alloc, &chart.content)?;
        append(&mut list, own.as_slice())?;
    }
    Ok(list)
}

/// The chart that a link names.
fn linked_name<'a>(link: &Link<'a>) -> &'a Name
    ensures { result.now ≡ linked (link_view link.now) }
{
    match link {
        Link::Refers(chart, _, _, _) => chart,
        Link::Refines(_, chart, _) => chart,
    }
}

/// Adds the charts that links name.
fn add_linked(alloc: Global, names: &mut NameTable, links: &[Link<'_>]) -> Result<(), NoMemory>
    ensures { OnOk result (names.new ≡ fold with_name names.old (map linked (map link_view links.now))) }
{
    for link in links {
        names.add(alloc, linked_name(link).bytes())?;
    }
    Ok(())
}

/// The charts that charts name.
fn linked_names(alloc: Global, summaries: &[ChartSummary<'_>]) -> Result<NameTable, NoMemory>
    ensures { IfOk result (λ names. names ≡ fold with_name [] (flat_map (λ (s : Summary). map linked s.links) (map summary_view summaries.now))) }
{
    let mut names = NameTable::new(alloc);
    for summary in summaries {
        add_linked(alloc, &mut names, summary.links.as_slice())?;
    }
    Ok(names)
}

/// The graphs of charts in which each walk is to come to an end, where these charts are referred to.
fn graphs_ending<'a>(
    alloc: Global,
    charts: &'a [RawChart],
    referred: &NameTable,
) -> Result<Vec<&'a RawGraph>, NoMemory>
    ensures { IfOk result (λ list. graphs_view list.items ≡ graphs_ending (λ (name : List ℕ). list_any (bytes_eq name) referred.now) (map chart_view charts.now)) }
{
    let mut list = Vec::new(alloc);
    for chart in charts {
        let named = referred.has(chart.name.bytes());
        let own = graphs_to_end(alloc, named, &chart.content)?;
        append(&mut list, own.as_slice())?;
    }
    Ok(list)
}

/// The first fault of ends, of charts whose graphs have few lines, and labels that are all known and stand once. `lists` are the instances of
/// the charts.
fn end_fault(
    alloc: Global,
    charts: &[RawChart],
    lists: &[Names],
) -> Result<Option<Broken<Rule>>, NoMemory>
    requires lists { lists.now ≡ map instances (map chart_view charts.now) }
    requires few { HaveFewLines (charts_graphs (map chart_view charts.now)) }
    requires labelled { AreLabelled (charts_graphs (map chart_view charts.now)) }
    ensures { IfOk result (IsBest number_of (BreaksOf (map chart_view charts.now)) endings) }
{
    let summaries = chart_summaries(alloc, charts, lists)?;
    let referred = linked_names(alloc, summaries.as_slice())?;
    let graphs = graphs_ending(alloc, charts, &referred)?;
    let place = endless_line(alloc, graphs.as_slice())?;
    Ok(broken_at(Rule::Endless, place))
}

/// The first fault of the labels of graphs, and of their ends. `lists` are the instances of the charts.
pub fn graph_fault(
    alloc: Global,
    charts: &[RawChart],
    lists: &[Names],
) -> Result<Option<Broken<Rule>>, NoMemory>
    requires lists { lists.now ≡ map instances (map chart_view charts.now) }
    requires kept { AllKept (BreaksOf (map chart_view charts.now)) text_groups }
    ensures { IfOk result (IsFirstOf (map chart_view charts.now) graph_groups) }
{
    let graphs = charts_graphs(alloc, charts)?;
    if graphs.is_empty() {
        return Ok(None);
    }
    if let Some(fault) = label_fault(alloc, graphs.as_slice())? {
        return Ok(Some(fault));
    }
    end_fault(alloc, charts, lists)
}
