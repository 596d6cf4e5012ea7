//! What charts are woven to, as text: for `levels` and `weaving`.

ghost use Rattle.chart_text.specs.WellFormed.{IsWellFormed};
ghost use Rattle.msc_tree.specs.Views.{chart_view};

use crate::charts::{chart_of, woven_to};
use chart_text::chart_text;
use level_weaving::WeaveFault;
use msc_base::{Name, Place};
use msc_instances::chart_names;
use msc_meaning::{Body, EventNode, Item};
use msc_tree::RawChart;
use std::alloc::{AllocError, Global};
use std::test::Fail;

/// The word and the place.
pub(crate) fn at(alloc: Global, word: &str, place: Place) -> Result<String, AllocError> {
    let line = place.line;
    let column = place.column;
    format!(in alloc; "{word} {line}:{column}")
}

/// The instance and the number of an event.
fn node_text(alloc: Global, node: &EventNode) -> Result<String, AllocError> {
    let number = node.number;
    let name = String::from_utf8_lossy(alloc, node.at.bytes())?;
    format!(in alloc; "{name}{number} ")
}

/// The events of a coregion, in parentheses.
fn coregion_text(alloc: Global, nodes: &[EventNode]) -> Result<String, AllocError> {
    let mut text = String::new(alloc);
    text.push_str("( ")?;
    for node in nodes {
        text.push_str(node_text(alloc, node)?.as_str())?;
    }
    text.push_str(") ")?;
    Ok(text)
}

/// The instances that a reference covers, in brackets.
fn cover_text(alloc: Global, names: &[Name]) -> Result<String, AllocError> {
    let mut text = String::new(alloc);
    text.push_str("[ ")?;
    for name in names {
        let name = String::from_utf8_lossy(alloc, name.bytes())?;
        text.push_str(format!(in alloc; "{name} ")?.as_str())?;
    }
    text.push_str("] ")?;
    Ok(text)
}

/// The operands of an inline expression, in braces.
#[cycle(texts)]
fn operands_text(alloc: Global, operands: &[Body]) -> Result<String, AllocError> {
    let mut text = String::new(alloc);
    text.push_str("{ ")?;
    for operand in operands {
        text.push_str(told(alloc, operand)?.as_str())?;
        text.push_str("| ")?;
    }
    text.push_str("} ")?;
    Ok(text)
}

/// An item: an event, a coregion, an inline expression by its operands, or a reference by its cover.
#[cycle(texts)]
fn item_text(alloc: Global, item: &Item) -> Result<String, AllocError> {
    match item {
        Item::Single(node) => node_text(alloc, node),
        Item::Coregion(nodes) => coregion_text(alloc, nodes.as_slice()),
        Item::Reference(held) => cover_text(alloc, held.cover.as_slice()),
        Item::Inline(held) => operands_text(alloc, held.operands.as_slice()),
    }
}

/// The items, and then the pairs of an output and the input that takes it in.
#[cycle(texts)]
fn told(alloc: Global, body: &Body) -> Result<String, AllocError> {
    let mut text = String::new(alloc);
    for item in body.items.as_slice() {
        text.push_str(item_text(alloc, item)?.as_str())?;
    }
    for pair in body.pairs.as_slice() {
        let first = pair.first;
        let second = pair.second;
        text.push_str(format!(in alloc; "{first}>{second} ")?.as_str())?;
    }
    Ok(text)
}

/// What the chart is woven to, or why it isn't.
fn woven(alloc: Global, chart: &RawChart) -> Result<String, AllocError>
    requires { IsWellFormed (chart_view chart.now) }
{
    let Ok(text) = chart_text(alloc, chart) else {
        return Err(AllocError);
    };
    let Ok(named) = chart_names(alloc, chart, text.as_slice()) else {
        return Err(AllocError);
    };
    if let Some(place) = named.twice {
        return at(alloc, "twice", place);
    }
    if let Some(place) = named.undeclared {
        return at(alloc, "undeclared", place);
    }
    match woven_to(alloc, chart, &named.names) {
        Some(Ok(body)) => told(alloc, &body),
        Some(Err(WeaveFault::Crossed(place))) => at(alloc, "crossed", place),
        Some(Err(WeaveFault::Unmatched(place))) => at(alloc, "unmatched", place),
        Some(Err(WeaveFault::NoMemory)) => Err(AllocError),
        None => at(alloc, "a graph", chart.place),
    }
}

/// Whether each text gives what stands beside it.
pub(crate) fn all_give(
    alloc: Global,
    rows: &[(&'static str, &'static str)],
) -> Result<&'static str, Fail> {
    for (text, want) in rows {
        let Some(chart) = chart_of(alloc, text) else {
            return Ok(text);
        };
        if woven(alloc, &chart)?.as_str() != *want {
            return Ok(text);
        }
    }
    Ok("")
}
