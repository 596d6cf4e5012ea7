//! Charts with what they come to by themselves.

ghost use Rattle.std.specs.Prelude.{◌≡◌, IfOk, map, slice_index_or};
ghost use Rattle.chart_extents.specs.Extents.{sized_charts as sized_by, sized_of};
ghost use Rattle.chart_extents.specs.ExtentViews.{sized_view};
ghost use Rattle.chart_links.specs.Summaries.{summary_of};
ghost use Rattle.chart_links.specs.SummaryViews.{summary_view};
ghost use Rattle.chart_text.specs.PassageViews.{text_view};
ghost use Rattle.chart_text.specs.Texts.{chart_text as text_of};
ghost use Rattle.msc_tree.specs.Views.{chart_view};

use crate::own::with_joins;
use crate::{Extent, own_extent};
use chart_links::ChartSummary;
use chart_text::{Passage, chart_text};
use msc_base::{NoMemory, Place};
use msc_tree::RawChart;
use std::alloc::Global;

/// A chart with what it comes to by itself.
#[derive(Drop)]
pub struct SizedChart<'a, 'b> {
    /// What rules on several charts ask of it.
    pub summary: &'a ChartSummary<'b>,
    /// Where it stands.
    pub place: Place,
    /// What it comes to with what its joins add, without the charts that it names.
    pub own: Extent,
}

/// What the joins of the chart of that number add, where it is told.
fn joined_at(joined: &[u64], number: usize) -> u64
    ensures { result ≡ slice_index_or joined.now number 0 }
{
    if number < joined.len() {
        joined[number]
    } else {
        0
    }
}

/// The chart of that text and summary, with what its joins add.
fn sized_chart<'a, 'b>(
    alloc: Global,
    chart: &RawChart,
    text: &[Passage<'_>],
    summary: &'a ChartSummary<'b>,
    joined: u64,
) -> Result<SizedChart<'a, 'b>, NoMemory>
    requires text { text_view text.now ≡ text_of (chart_view chart.now) }
    requires summary { summary_view summary.now ≡ summary_of (chart_view chart.now) }
    ensures { IfOk result (λ made. sized_view made ≡ sized_of (chart_view chart.now) joined) }
{
    let own = own_extent(alloc, chart, text)?;
    Ok(SizedChart {
        summary,
        place: chart.place,
        own: with_joins(own, joined)?,
    })
}

/// Charts of these summaries with what each comes to by itself; `joined` has what the joins of each add, and nothing where it ends. Each text
/// is listed once, and dropped when its chart is done.
pub fn sized_charts<'a, 'b>(
    alloc: Global,
    charts: &[RawChart],
    summaries: &'a [ChartSummary<'b>],
    joined: &[u64],
) -> Result<Vec<SizedChart<'a, 'b>>, NoMemory>
    requires { map summary_view summaries.now ≡ map summary_of (map chart_view charts.now) }
    ensures { IfOk result (λ made. map sized_view made.items ≡ sized_by (map chart_view charts.now) joined.now) }
{
    let mut made = Vec::new(alloc);
    let mut number = 0;
    for chart in charts {
        let text = chart_text(alloc, chart)?;
        let more = joined_at(joined, number);
        let sized = sized_chart(alloc, chart, text.as_slice(), &summaries[number], more)?;
        made.push(sized)?;
        number += 1;
    }
    Ok(made)
}
