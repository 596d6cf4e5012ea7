//! What rules on several charts ask of each.

ghost use Rattle.std.specs.Prelude.{◌≡◌, IfOk, map};
ghost use Rattle.chart_links.specs.SummaryViews.{summary_view};
ghost use Rattle.chart_links.specs.Summaries.{summary_of};
ghost use Rattle.chart_text.specs.PassageViews.{text_view};
ghost use Rattle.chart_text.specs.Texts.{chart_text as text_of};
ghost use Rattle.msc_instances.specs.Instances.{instances};
ghost use Rattle.msc_tree.specs.Views.{chart_view};

use crate::{LinkList, chart_links};
use chart_text::{Passage, chart_text};
use msc_base::{Name, Names, NoMemory};
use msc_tree::RawChart;
use std::alloc::Global;

/// What rules on several charts ask of one. It holds names of the chart's tree, and nothing of the list that its text was.
#[derive(Drop)]
pub struct ChartSummary<'a> {
    /// The chart's name.
    pub name: &'a Name,
    /// Its instances.
    pub instances: &'a Names,
    /// What it says of charts.
    pub links: LinkList<'a>,
}

/// The summary of a chart of that text and these instances.
pub fn chart_summary<'a>(
    alloc: Global,
    chart: &'a RawChart,
    text: &[Passage<'a>],
    names: &'a Names,
) -> Result<ChartSummary<'a>, NoMemory>
    requires text { text_view text.now ≡ text_of (chart_view chart.now) }
    requires names { names.now ≡ instances (chart_view chart.now) }
    ensures { IfOk result (λ summary. summary_view summary ≡ summary_of (chart_view chart.now)) }
{
    let links = chart_links(alloc, chart, text)?;
    Ok(ChartSummary {
        name: &chart.name,
        instances: names,
        links,
    })
}

/// The summaries of charts of these instances. Each text is listed once, and dropped when its chart is done.
pub fn chart_summaries<'a>(
    alloc: Global,
    charts: &'a [RawChart],
    lists: &'a [Names],
) -> Result<Vec<ChartSummary<'a>>, NoMemory>
    requires { lists.now ≡ map instances (map chart_view charts.now) }
    ensures { IfOk result (λ made. map summary_view made.items ≡ map summary_of (map chart_view charts.now)) }
{
    let mut made = Vec::new(alloc);
    let mut number = 0;
    for chart in charts {
        let text = chart_text(alloc, chart)?;
        made.push(chart_summary(alloc, chart, text.as_slice(), &lists[number])?)?;
        number += 1;
    }
    Ok(made)
}
