//! The charts that tests weave.

ghost use Rattle.std.specs.Prelude.{◌≡◌, IfSome};
ghost use Rattle.chart_text.specs.WellFormed.{IsWellFormed};
ghost use Rattle.msc_instances.specs.Instances.{instances};
ghost use Rattle.msc_tree.specs.Views.{chart_view};

use level_weaving::{WeaveFault, weave};
use msc_base::Names;
use msc_document::{documents_are_exact, parse};
use msc_meaning::Body;
use msc_tokens::lex_all;
use msc_tree::{Content, RawChart};
use std::alloc::Global;

/// The last chart of a document.
pub fn chart_of(alloc: Global, text: &str) -> Option<RawChart>
    ensures { IfSome result (λ chart. IsWellFormed (chart_view chart)) }
{
    documents_are_exact();
    let list = lex_all(alloc, text.as_bytes()).ok()?;
    match parse(alloc, &list) {
        Ok(document) => {
            let mut charts = document.charts;
            charts.pop()
        }
        Err(_) => None,
    }
}

/// What a chart, whose instances `names` are, is woven to, or why it isn't; nothing of a graph.
pub fn woven_to(alloc: Global, chart: &RawChart, names: &Names) -> Option<Result<Body, WeaveFault>>
    requires formed { IsWellFormed (chart_view chart.now) }
    requires names { names.now ≡ instances (chart_view chart.now) }
{
    match &chart.content {
        Content::Events(list) => Some(weave(alloc, names, list.as_slice())),
        Content::Graph(_) => None,
    }
}
