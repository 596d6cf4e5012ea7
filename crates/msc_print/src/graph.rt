//! Prints graphs and their frames: for `chart`.

ghost use Rattle.std.specs.Prelude.{◌≡◌, OnOk, codes, map};
ghost use Rattle.msc_tree.specs.Graphs.{graphs, lines as line_tree};
ghost use Rattle.msc_tree.specs.Views.{expression_view, graph_view, line_view, node_view};
ghost use Rattle.msc_print.specs.ExpressionWords.{enclosed, expression_words};
ghost use Rattle.msc_print.specs.GraphWords.{frame_words, graph_words, is_end, label_words, line_words, lines_words, next_words, node_words, label_word};
ghost use Rattle.msc_print.specs.Pages.{put_all};
ghost use Rattle.msc_print.specs.Words.{each_behind};

use crate::expression::expression;
use crate::page::Page;
use crate::parts::{between, end, names};
use msc_base::{LabelRef, NoMemory};
use msc_tree::{NodeKind, RawGraph, RawLine, RefExpr};

#[tactic(auto, using(crate::proofs::Putting::each_step))]
/// Writes other labels, each behind `alt`.
fn other_labels(page: &mut Page, labels: &[LabelRef]) -> Result<(), NoMemory>
    ensures { OnOk result (page.new ≡ put_all page.old (each_behind (codes "alt") label_word labels.now)) }
{
    for label in labels {
        page.word("alt")?;
        page.put(label.name.bytes())?;
    }
    Ok(())
}

/// Writes labels, with `alt` between them.
fn labels(page: &mut Page, labels: &[LabelRef]) -> Result<(), NoMemory>
    ensures { OnOk result (page.new ≡ put_all page.old (label_words labels.now)) }
{
    let Some((first, others)) = labels.split_first() else {
        return Ok(());
    };
    page.put(first.name.bytes())?;
    other_labels(page, others)
}

/// Whether walks end at the node.
fn is_last(node: &NodeKind) -> bool
    ensures { result ≡ is_end (node_view node.now) }
{
    matches!(node, NodeKind::Ends)
}

#[tactic(auto, using(crate::proofs::Putting::put_append))]
/// Writes the labels of the next nodes. The end of walks has none.
fn next(page: &mut Page, node: &NodeKind, list: &[LabelRef]) -> Result<(), NoMemory>
    ensures { OnOk result (page.new ≡ put_all page.old (next_words (node_view node.now) list.now)) }
{
    if is_last(node) {
        return end(page);
    }
    page.word("seq")?;
    page.word("(")?;
    labels(page, list)?;
    page.word(")")?;
    end(page)
}

#[tactic(auto, using(crate::proofs::Putting::put_append))]
/// Writes a node that refers to charts.
fn refer(page: &mut Page, expr: &RefExpr) -> Result<(), NoMemory>
    ensures { OnOk result (page.new ≡ put_all page.old (enclosed (expression_words (expression_view expr.now)))) }
{
    page.word("(")?;
    expression(page, expr)?;
    page.word(")")
}

#[tactic(auto, using(crate::proofs::Endings::graph_done))]
/// Writes a graph.
#[cycle(graphs)]
pub fn graph(page: &mut Page, graph: &RawGraph) -> Result<(), NoMemory>
    ensures { OnOk result (page.new ≡ put_all page.old (graph_words (graph_view graph.now))) }
{
    page.word("expr")?;
    labels(page, graph.starts.as_slice())?;
    end(page)?;
    lines(page, graph.lines.as_slice())
}

#[tactic(auto, using(crate::proofs::Putting::line_step))]
/// Writes the lines of a graph.
#[cycle(graphs)]
fn lines(page: &mut Page, lines: &[RawLine]) -> Result<(), NoMemory>
    ensures { OnOk result (page.new ≡ put_all page.old (lines_words (line_tree (map line_view lines.now)))) }
{
    for held in lines {
        line(page, held)?;
    }
    Ok(())
}

#[tactic(auto, using(crate::proofs::Endings::line_done))]
/// Writes a line of a graph.
#[cycle(graphs)]
fn line(page: &mut Page, line: &RawLine) -> Result<(), NoMemory>
    ensures { OnOk result (page.new ≡ put_all page.old (line_words (line_view line.now))) }
{
    page.put(line.label.bytes())?;
    page.word(":")?;
    node(page, &line.node)?;
    next(page, &line.node, line.next.as_slice())
}

/// Writes a node.
#[cycle(graphs)]
fn node(page: &mut Page, node: &NodeKind) -> Result<(), NoMemory>
    ensures { OnOk result (page.new ≡ put_all page.old (node_words (node_view node.now))) }
{
    match node {
        NodeKind::Ends => page.word("end"),
        NodeKind::Connect => page.word("connect"),
        NodeKind::Condition(list) => {
            page.word("condition")?;
            names(page, list.as_slice())
        }
        NodeKind::Refer(expr) => refer(page, expr),
        NodeKind::Frames(list) => frames(page, list.as_slice()),
    }
}

#[tactic(auto, using(crate::proofs::Putting::frame_step))]
/// Writes frames, with `par` between them.
#[cycle(graphs)]
fn frames(page: &mut Page, list: &[RawGraph]) -> Result<(), NoMemory>
    ensures { OnOk result (page.new ≡ put_all page.old (frame_words (graphs (map graph_view list.now)))) }
{
    let mut first = true;
    for frame in list {
        between(page, first, "par")?;
        graph(page, frame)?;
        page.word("endexpr")?;
        first = false;
    }
    Ok(())
}
