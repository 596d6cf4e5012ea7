//! What a chart comes to by itself, by its text.

ghost use Rattle.std.specs.Prelude.{◌≡◌, ◌+◌, IfOk, map, max};
ghost use Rattle.chart_extents.specs.Extents.{with_joins as with_joined};
ghost use Rattle.chart_extents.specs.OwnExtents.{content_nesting, deepest, expression_nesting, expression_size, form_nesting, own_extent, own_size as size_by_text, parts_nesting, parts_size, passage_nesting, passage_size, reference_size};
ghost use Rattle.chart_text.specs.Gathering.{summed};
ghost use Rattle.chart_text.specs.PassageViews.{passage_view, text_view};
ghost use Rattle.chart_text.specs.Texts.{chart_text as text_of};
ghost use Rattle.graph_text.specs.GraphPartViews.{parts_view};
ghost use Rattle.graph_text.specs.GraphTexts.{graph_text as drawn_of};
ghost use Rattle.msc_tree.specs.Expressions.{expressions};
ghost use Rattle.msc_tree.specs.Views.{chart_view, content_view, expression_view, form_view};

use crate::Extent;
use crate::own_graphs::{parts_nesting as nesting_of_parts, parts_size as size_of_parts};
use chart_forms::size;
use chart_text::Passage;
use graph_text::{GraphPart, graph_text};
use msc_base::NoMemory;
use msc_tree::{Content, RawChart, RawForm, RefExpr};
use std::alloc::Global;

/// The sum; a larger one than 64 bits hold would want more memory than there is.
pub(crate) fn sum_of(a: u64, b: u64) -> Result<u64, NoMemory>
    ensures { IfOk result (λ sum. sum ≡ a + b) }
{
    a.checked_add(b).ok_or(NoMemory)
}

/// What an expression counts by itself.
#[cycle(sizes)]
pub(crate) fn expression_size(expression: &RefExpr) -> Result<u64, NoMemory>
    ensures { IfOk result (λ size. size ≡ expression_size (expression_view expression.now)) }
{
    match expression {
        RefExpr::Empty => Ok(1),
        RefExpr::Chart(_) => Ok(0),
        RefExpr::Alt(list) => sum_of(1, parts_size(list.as_slice())?),
        RefExpr::Par(list) => sum_of(1, parts_size(list.as_slice())?),
        RefExpr::Seq(list) => sum_of(1, parts_size(list.as_slice())?),
        RefExpr::Opt(part) => sum_of(2, expression_size(part)?),
        RefExpr::Loop(_, _, part) => sum_of(2, expression_size(part)?),
    }
}

/// What the parts of an expression count.
#[cycle(sizes)]
fn parts_size(list: &[RefExpr]) -> Result<u64, NoMemory>
    ensures { IfOk result (λ size. size ≡ parts_size (expressions (map expression_view list.now))) }
{
    let mut total = 0u64;
    for part in list {
        total = sum_of(total, expression_size(part)?)?;
    }
    Ok(total)
}

/// How deep an expression is by itself.
#[cycle(nestings)]
pub(crate) fn expression_nesting(expression: &RefExpr) -> Result<u64, NoMemory>
    ensures { IfOk result (λ nesting. nesting ≡ expression_nesting (expression_view expression.now)) }
{
    match expression {
        RefExpr::Empty => Ok(0),
        RefExpr::Chart(_) => Ok(0),
        RefExpr::Alt(list) => sum_of(1, parts_nesting(list.as_slice())?),
        RefExpr::Par(list) => sum_of(1, parts_nesting(list.as_slice())?),
        RefExpr::Seq(list) => sum_of(1, parts_nesting(list.as_slice())?),
        RefExpr::Opt(part) => sum_of(1, expression_nesting(part)?),
        RefExpr::Loop(_, _, part) => sum_of(1, expression_nesting(part)?),
    }
}

/// How deep the parts of an expression are.
#[cycle(nestings)]
fn parts_nesting(list: &[RefExpr]) -> Result<u64, NoMemory>
    ensures { IfOk result (λ nesting. nesting ≡ parts_nesting (expressions (map expression_view list.now))) }
{
    let mut most = 0u64;
    for part in list {
        let inner = expression_nesting(part)?;
        most = most.max(inner);
    }
    Ok(most)
}

/// What an item counts, if it is a reference.
fn reference_size(form: &RawForm) -> Result<u64, NoMemory>
    ensures { IfOk result (λ size. size ≡ reference_size (form_view form.now)) }
{
    match form {
        RawForm::Reference(held) => sum_of(2, expression_size(&held.expr)?),
        RawForm::Single(_) => Ok(0),
        RawForm::Coregion(_) => Ok(0),
        RawForm::Condition(_, _) => Ok(0),
        RawForm::Inline(_) => Ok(0),
        RawForm::Stop => Ok(0),
    }
}

/// How deep an item is by itself.
fn form_nesting(form: &RawForm) -> Result<u64, NoMemory>
    ensures { IfOk result (λ nesting. nesting ≡ form_nesting (form_view form.now)) }
{
    match form {
        RawForm::Single(_) => Ok(1),
        RawForm::Coregion(_) => Ok(2),
        RawForm::Condition(_, _) => Ok(0),
        RawForm::Inline(_) => Ok(1),
        RawForm::Reference(held) => sum_of(1, expression_nesting(&held.expr)?),
        RawForm::Stop => Ok(0),
    }
}

/// What a passage counts, if it is a reference.
fn passage_size(passage: Passage<'_>) -> Result<u64, NoMemory>
    ensures { IfOk result (λ size. size ≡ passage_size (passage_view passage.entry)) }
{
    match passage {
        Passage::Item(_, held) => reference_size(&held.form),
        Passage::Head(_) => Ok(0),
        Passage::Statement(_, _, _) => Ok(0),
        Passage::Operand(_, _) => Ok(0),
    }
}

/// How deep a passage is.
fn passage_nesting(passage: Passage<'_>) -> Result<u64, NoMemory>
    ensures { IfOk result (λ nesting. nesting ≡ passage_nesting (passage_view passage.entry)) }
{
    match passage {
        Passage::Item(standing, held) => {
            let inner = form_nesting(&held.form)?;
            sum_of(standing.depth as u64, inner)
        }
        Passage::Head(_) => Ok(0),
        Passage::Statement(_, _, _) => Ok(0),
        Passage::Operand(_, _) => Ok(0),
    }
}

/// What the references of a text count.
fn references_size(text: &[Passage<'_>]) -> Result<u64, NoMemory>
    ensures { IfOk result (λ size. size ≡ summed passage_size (text_view text.now)) }
{
    let mut total = 0u64;
    for held in text {
        let more = passage_size(*held)?;
        total = sum_of(total, more)?;
    }
    Ok(total)
}

/// How deep a text is.
fn text_nesting(text: &[Passage<'_>]) -> Result<u64, NoMemory>
    ensures { IfOk result (λ nesting. nesting ≡ deepest (text_view text.now)) }
{
    let mut most = 0u64;
    for held in text {
        let inner = passage_nesting(*held)?;
        most = most.max(inner);
    }
    Ok(most)
}

/// An extent with what joins between two gates add.
pub(crate) fn with_joins(own: Extent, joined: u64) -> Result<Extent, NoMemory>
    ensures { IfOk result (λ all. all ≡ with_joined own joined) }
{
    Ok(Extent {
        size: sum_of(own.size, joined)?,
        nesting: own.nesting,
    })
}

/// How deep a basic chart of that text is.
fn chart_nesting(text: &[Passage<'_>]) -> Result<u64, NoMemory>
    ensures { IfOk result (λ nesting. nesting ≡ 2 + deepest (text_view text.now)) }
{
    let nesting = text_nesting(text)?;
    sum_of(2, nesting)
}

/// How deep a chart of that text is, with these parts of its graph.
fn own_nesting(
    content: &Content,
    text: &[Passage<'_>],
    parts: &[GraphPart<'_>],
) -> Result<u64, NoMemory>
    requires { parts_view parts.now ≡ drawn_of (content_view content.now) }
    ensures { IfOk result (λ nesting. nesting ≡ content_nesting (content_view content.now) (text_view text.now)) }
{
    match content {
        Content::Events(_) => chart_nesting(text),
        Content::Graph(_) => nesting_of_parts(parts),
    }
}

/// How large a chart of that text is, with these parts of its graph.
fn own_size(
    chart: &RawChart,
    text: &[Passage<'_>],
    parts: &[GraphPart<'_>],
) -> Result<u64, NoMemory>
    requires text { text_view text.now ≡ text_of (chart_view chart.now) }
    requires parts { parts_view parts.now ≡ drawn_of (content_view chart.now.content) }
    ensures { IfOk result (λ size. size ≡ size_by_text (chart_view chart.now)) }
{
    let items = size(&chart.content, text, parts)?;
    let references = references_size(text)?;
    let nodes = size_of_parts(parts)?;
    sum_of(sum_of(items, references)?, nodes)
}

/// What a chart of that text comes to without the charts that it names and what joins between two gates add.
pub fn own_extent(alloc: Global, chart: &RawChart, text: &[Passage<'_>]) -> Result<Extent, NoMemory>
    requires { text_view text.now ≡ text_of (chart_view chart.now) }
    ensures { IfOk result (λ own. own ≡ own_extent (chart_view chart.now)) }
{
    let parts = graph_text(alloc, &chart.content)?;
    Ok(Extent {
        size: own_size(chart, text, parts.as_slice())?,
        nesting: own_nesting(&chart.content, text, parts.as_slice())?,
    })
}
