//! The first fault of references, and of sizes, which are known where references keep the rules: for `deciding`.

ghost use Rattle.std.specs.List.{list_any};
ghost use Rattle.std.specs.Prelude.{◌≡◌, ℕ, IfOk, None, List, map, true};
ghost use Rattle.chart_extents.specs.Capped.{AreKept};
ghost use Rattle.chart_extents.specs.ExtentRules.{AreTooLarge, IsTooDeep, IsTooLarge};
ghost use Rattle.chart_extents.specs.ExtentViews.{sized_view};
ghost use Rattle.chart_extents.specs.Extents.{sized_charts as sized_by};
ghost use Rattle.chart_links.specs.Ranks.{AreRanks};
ghost use Rattle.chart_links.specs.References.{LeavesUncovered, MissesChart, Recurs};
ghost use Rattle.chart_links.specs.Summaries.{summary_of};
ghost use Rattle.chart_links.specs.SummaryViews.{summary_view};
ghost use Rattle.join_sizes.specs.JoinSizes.{AreJoinSizes};
ghost use Rattle.msc_rules.specs.FirstFaults.{IsBest};
ghost use Rattle.msc_rules.specs.Rules.{number_of};
ghost use Rattle.msc_acceptance.specs.Acceptance.{BreaksOf};
ghost use Rattle.msc_acceptance.specs.Deciding.{HaveExtents, IsFirstOf, link_groups, references, sizes};
ghost use Rattle.msc_acceptance.specs.Linkless.{AreLinkless};
ghost use Rattle.msc_acceptance.specs.ReadCharts.{AreRead};
ghost use Rattle.msc_acceptance.specs.SizedCharts.{OfSizes};
ghost use Rattle.msc_base.specs.Places.{IsLeast};
ghost use Rattle.msc_tree.specs.Charts.{Chart};
ghost use Rattle.msc_tree.specs.Views.{chart_view};

use chart_extents::{ExtentPlaces, SizedChart, chart_extents, extent_places, sized_charts};
use chart_links::{
    ChartSummary, LinkTables, ReferencePlaces, chart_ranks, chart_summaries, link_tables,
    reference_places,
};
use join_sizes::join_sizes;
use join_sizes::laws::join_sizes_are_known;
use msc_base::{Names, NoMemory};
use msc_rules::{Broken, Rule, broken_at, earlier_fault};
use msc_tree::RawChart;
use std::alloc::Global;

/// The first fault of references.
fn reference_fault(places: ReferencePlaces) -> Option<Broken<Rule>>
    ensures { (charts : List Chart) → IsLeast (MissesChart (map summary_of charts)) places.missing → IsLeast (Recurs (map summary_of charts)) places.recursive → IsLeast (LeavesUncovered (map summary_of charts)) places.uncovered
        → IsBest number_of (BreaksOf charts) references result }
{
    let missing = broken_at(Rule::MissingChart, places.missing);
    let recursive = broken_at(Rule::Recursive, places.recursive);
    let uncovered = broken_at(Rule::Uncovered, places.uncovered);
    earlier_fault(earlier_fault(missing, recursive), uncovered)
}

/// The first fault by sizes, of charts with what their joins add.
fn size_fault(places: ExtentPlaces) -> Option<Broken<Rule>>
    ensures { (charts : List Chart) (joined : List ℕ) → AreJoinSizes charts joined → IsLeast (IsTooDeep (sized_by charts joined)) places.deep → IsLeast (IsTooLarge (sized_by charts joined)) places.large → IsLeast (AreTooLarge (sized_by charts joined)) places.total
        → IsBest number_of (BreaksOf charts) sizes result }
{
    join_sizes_are_known();
    let deep = broken_at(Rule::ExpandedNesting, places.deep);
    let large = broken_at(Rule::Size, places.large);
    let total = broken_at(Rule::Total, places.total);
    earlier_fault(earlier_fault(deep, large), total)
}

/// Whether one is so.
pub fn any_of(list: &[bool]) -> bool
    ensures { result ≡ list_any (λ b. b) list.now }
{
    for one in list {
        if *one {
            return true;
        }
    }
    false
}

/// Whether no chart names another.
fn are_linkless(summaries: &[ChartSummary<'_>]) -> bool
    ensures { result ≡ true → AreLinkless (map summary_view summaries.now) }
{
    for summary in summaries {
        if !summary.links.as_slice().is_empty() {
            return false;
        }
    }
    true
}

/// What is known of the charts before their links are looked at.
#[derive(Clone, Copy)]
pub struct ReadCharts<'a> {
    /// The charts.
    pub charts: &'a [RawChart],
    /// The instances of each.
    pub lists: &'a [Names],
    /// Whether a join of each ties two gates.
    pub tied: &'a [bool],
}

/// The first fault by the sizes of charts of these ranks.
fn ranked_fault(
    alloc: Global,
    read: ReadCharts<'_>,
    summaries: &[ChartSummary<'_>],
    ranks: &[usize],
) -> Result<Option<Broken<Rule>>, NoMemory>
    requires read { AreRead read }
    requires summaries { map summary_view summaries.now ≡ map summary_of (map chart_view read.charts.now) }
    requires ranks { AreRanks (map summary_view summaries.now) ranks.now }
    ensures best { IfOk result (IsBest number_of (BreaksOf (map chart_view read.entry.charts.now)) sizes) }
    ensures extents { IfOk result (λ fault. OfSizes (map chart_view read.entry.charts.now) HaveExtents) }
{
    let tied = any_of(read.tied);
    let joined = join_sizes(alloc, tied, read.charts, read.lists, ranks)?;
    let sized = sized_charts(alloc, read.charts, summaries, joined.as_slice())?;
    let values = chart_extents(alloc, sized.as_slice(), ranks)?;
    Ok(size_fault(extent_places(sized.as_slice(), values.as_slice())))
}

/// The first fault of references and sizes, by what is known of the charts' links.
fn linked_fault(
    alloc: Global,
    read: ReadCharts<'_>,
    summaries: &[ChartSummary<'_>],
) -> Result<Option<Broken<Rule>>, NoMemory>
    requires read { AreRead read }
    requires summaries { map summary_view summaries.now ≡ map summary_of (map chart_view read.charts.now) }
    ensures first { IfOk result (IsFirstOf (map chart_view read.entry.charts.now) link_groups) }
    ensures extents { IfOk result (λ fault. fault ≡ None → OfSizes (map chart_view read.entry.charts.now) HaveExtents) }
{
    let tables = link_tables(alloc, summaries)?;
    let places = reference_places(alloc, summaries, &tables)?;
    if let Some(fault) = reference_fault(places) {
        return Ok(Some(fault));
    }
    let ranks = chart_ranks(alloc, summaries, &tables)?;
    ranked_fault(alloc, read, summaries, ranks.as_slice())
}

/// The same, of charts of which none names another.
fn linkless_fault(
    alloc: Global,
    read: ReadCharts<'_>,
    summaries: &[ChartSummary<'_>],
) -> Result<Option<Broken<Rule>>, NoMemory>
    requires read { AreRead read }
    requires summaries { map summary_view summaries.now ≡ map summary_of (map chart_view read.charts.now) }
    requires linkless { AreLinkless (map summary_view summaries.now) }
    ensures first { IfOk result (IsFirstOf (map chart_view read.entry.charts.now) link_groups) }
    ensures extents { IfOk result (λ fault. fault ≡ None → OfSizes (map chart_view read.entry.charts.now) HaveExtents) }
{
    let ranks = vec![in alloc; 0usize; summaries.len()]?;
    ranked_fault(alloc, read, summaries, ranks.as_slice())
}

/// The first fault of references and sizes. Where no chart names another no table of links is made.
pub fn link_fault(alloc: Global, read: ReadCharts<'_>) -> Result<Option<Broken<Rule>>, NoMemory>
    requires read { AreRead read }
    ensures first { IfOk result (IsFirstOf (map chart_view read.entry.charts.now) link_groups) }
    ensures extents { IfOk result (λ fault. fault ≡ None → OfSizes (map chart_view read.entry.charts.now) HaveExtents) }
{
    let summaries = chart_summaries(alloc, read.charts, read.lists)?;
    if are_linkless(summaries.as_slice()) {
        linkless_fault(alloc, read, summaries.as_slice())
    } else {
        linked_fault(alloc, read, summaries.as_slice())
    }
}
