//! Graphs of high-level charts with lines, nodes and frames: msc_document reads a chart's graph by it.

ghost use Rattle.std.specs.Prelude.{◌≡◌, map, length, codes};
ghost use Rattle.msc_tree.specs.Views.{graph_view, line_view, node_view};
ghost use Rattle.token_grammar.specs.Answers.{Gives};
ghost use Rattle.token_grammar.specs.PartReaders.{separated_at};
ghost use Rattle.msc_expression.specs.ExpressionReaders.{expression_at};
ghost use Rattle.msc_expression.specs.GraphReaders.{label_at, next_label_at, more_labels_at, labels_at, lines_at, graph_rest_at, frame_rest_at, frame_at, next_frame_at, more_frames_at, reference_node_at, condition_at, node_at, next_at, line_rest_at, line_in_at, graph_line_at, chart_graph_at};

use crate::expressions::expression;
use crate::level::open;
use msc_base::{LabelRef, LabelRefs};
use msc_tokens::Token;
use msc_tree::{NodeKind, RawGraph, RawLine};
use std::alloc::Global;
use token_grammar::{ReadFault, ending, names, placed_name, starts_with, starts_with_name, word};

/// A label.
fn label(alloc: Global, tokens: &[Token]) -> Result<(LabelRef, &[Token]), ReadFault>
    ensures { Gives (λ x. (x.0, x.1.now)) result (label_at tokens.now) }
{
    let (name, place, rest) = placed_name(alloc, tokens)?;
    Ok((LabelRef { name, place }, rest))
}

/// A label behind `alt`.
fn next_label(alloc: Global, tokens: &[Token]) -> Result<(LabelRef, &[Token]), ReadFault>
    ensures { Gives (λ x. (x.0, x.1.now)) result (next_label_at tokens.now) }
{
    let (_alt, rest) = word(tokens, "alt")?;
    label(alloc, rest)
}

/// Other labels, each behind `alt`, appended to those that there are.
fn more_labels(
    alloc: Global,
    tokens: &[Token],
    prefix: LabelRefs,
) -> Result<(LabelRefs, &[Token]), ReadFault>
    ensures { Gives (λ x. (x.0, x.1.now)) result (more_labels_at prefix (length tokens.now) tokens.now) }
{
    let mut labels = prefix;
    let mut rest = tokens;
    for _k in 0..tokens.len() {
        if !starts_with(rest, "alt") {
            break;
        }
        match next_label(alloc, rest) {
            Ok((label, behind)) => {
                labels.push(label)?;
                rest = behind;
            }
            Err(fault) => return Err(fault),
        }
    }
    Ok((labels, rest))
}

/// Labels with `alt` between them.
fn labels(alloc: Global, tokens: &[Token]) -> Result<(LabelRefs, &[Token]), ReadFault>
    ensures { Gives (λ x. (x.0, x.1.now)) result (labels_at tokens.now) }
{
    let (first, rest) = label(alloc, tokens)?;
    let mut labels = LabelRefs::new(alloc);
    labels.push(first)?;
    more_labels(alloc, rest, labels)
}

/// The labels of the next nodes.
fn next(alloc: Global, tokens: &[Token]) -> Result<(LabelRefs, &[Token]), ReadFault>
    ensures { Gives (λ x. (x.0, x.1.now)) result (next_at tokens.now) }
{
    let (_seq, rest) = word(tokens, "seq")?;
    let (_open, rest) = word(rest, "(")?;
    let (labels, rest) = labels(alloc, rest)?;
    let (_close, rest) = word(rest, ")")?;
    let rest = ending(rest)?;
    Ok((labels, rest))
}

/// A node that refers to charts. Its parenthesis opens no level.
fn reference_node(
    alloc: Global,
    tokens: &[Token],
    levels: usize,
) -> Result<(NodeKind, &[Token]), ReadFault>
    ensures { Gives (λ x. (node_view x.0, x.1.now)) result (reference_node_at (expression_at levels) tokens.now) }
{
    let (_open, rest) = word(tokens, "(")?;
    let (expr, rest) = expression(alloc, rest, levels)?;
    let (_close, rest) = word(rest, ")")?;
    Ok((NodeKind::Refer(expr), rest))
}

/// A node of conditions.
fn condition(alloc: Global, tokens: &[Token]) -> Result<(NodeKind, &[Token]), ReadFault>
    ensures { Gives (λ x. (node_view x.0, x.1.now)) result (condition_at tokens.now) }
{
    let (_condition, rest) = word(tokens, "condition")?;
    let (names, rest) = names(alloc, rest)?;
    Ok((NodeKind::Condition(names), rest))
}

/// The graph of a chart, up to a token that begins no line, where so many levels may be opened in it. Its `expr` opens
/// none.
pub fn graph(
    alloc: Global,
    tokens: &[Token],
    levels: usize,
) -> Result<(RawGraph, &[Token]), ReadFault>
    ensures { Gives (λ x. (graph_view x.0, x.1.now)) result (chart_graph_at levels tokens.now) }
{
    let (_expr, rest) = word(tokens, "expr")?;
    graph_rest(alloc, rest, levels)
}

/// A graph behind `expr`, up to a token that begins no line.
#[cycle(graphs)]
fn graph_rest(
    alloc: Global,
    tokens: &[Token],
    levels: usize,
) -> Result<(RawGraph, &[Token]), ReadFault>
    ensures { Gives (λ x. (graph_view x.0, x.1.now)) result (graph_rest_at (graph_line_at levels) tokens.now) }
{
    let (starts, rest) = labels(alloc, tokens)?;
    let rest = ending(rest)?;
    let (lines, rest) = lines(alloc, rest, levels)?;
    Ok((RawGraph { starts, lines }, rest))
}

/// Lines, up to a token that begins none.
#[cycle(graphs)]
fn lines(
    alloc: Global,
    tokens: &[Token],
    levels: usize,
) -> Result<(Vec<RawLine>, &[Token]), ReadFault>
    ensures { Gives (λ x. (map line_view x.0.items, x.1.now)) result (lines_at (graph_line_at levels) tokens.now) }
{
    let mut lines = Vec::new(alloc);
    let mut rest = tokens;
    for _k in 0..tokens.len() {
        if !starts_with_name(rest) {
            break;
        }
        match line(alloc, rest, levels) {
            Ok((line, behind)) => {
                lines.push(line)?;
                rest = behind;
            }
            Err(fault) => return Err(fault),
        }
    }
    Ok((lines, rest))
}

/// A line.
#[cycle(graphs)]
fn line(alloc: Global, tokens: &[Token], levels: usize) -> Result<(RawLine, &[Token]), ReadFault>
    ensures { Gives (λ x. (line_view x.0, x.1.now)) result (graph_line_at levels tokens.now) }
{
    labelled_line(alloc, tokens, levels)
}

/// A line: its label, its node and the next labels.
#[cycle(graphs)]
fn labelled_line(
    alloc: Global,
    tokens: &[Token],
    levels: usize,
) -> Result<(RawLine, &[Token]), ReadFault>
    ensures { Gives (λ x. (line_view x.0, x.1.now)) result (line_in_at (expression_at levels) (frame_at levels) tokens.now) }
{
    let (label, rest) = label(alloc, tokens)?;
    let (_colon, rest) = word(rest, ":")?;
    let (node, next, rest) = line_rest(alloc, rest, levels)?;
    let line = RawLine {
        label: label.name,
        place: label.place,
        node,
        next,
    };
    Ok((line, rest))
}

/// What stands behind a line's label: the end of walks, or a node and the next labels.
#[cycle(graphs)]
fn line_rest(
    alloc: Global,
    tokens: &[Token],
    levels: usize,
) -> Result<(NodeKind, LabelRefs, &[Token]), ReadFault>
    ensures { Gives (λ x. ((node_view x.0, x.1), x.2.now)) result (line_rest_at (expression_at levels) (frame_at levels) tokens.now) }
{
    if starts_with(tokens, "end") {
        let (_end, rest) = word(tokens, "end")?;
        let rest = ending(rest)?;
        return Ok((NodeKind::Ends, LabelRefs::new(alloc), rest));
    }
    let (node, rest) = node(alloc, tokens, levels)?;
    let (next, rest) = next(alloc, rest)?;
    Ok((node, next, rest))
}

/// A node, by its first token.
#[cycle(graphs)]
fn node(alloc: Global, tokens: &[Token], levels: usize) -> Result<(NodeKind, &[Token]), ReadFault>
    ensures { Gives (λ x. (node_view x.0, x.1.now)) result (node_at (expression_at levels) (frame_at levels) tokens.now) }
{
    if starts_with(tokens, "(") {
        return reference_node(alloc, tokens, levels);
    }
    if starts_with(tokens, "connect") {
        let (_connect, rest) = word(tokens, "connect")?;
        return Ok((NodeKind::Connect, rest));
    }
    if starts_with(tokens, "condition") {
        return condition(alloc, tokens);
    }
    let (frames, rest) = frames(alloc, tokens, levels)?;
    Ok((NodeKind::Frames(frames), rest))
}

/// Frames with `par` between them.
#[cycle(graphs)]
fn frames(
    alloc: Global,
    tokens: &[Token],
    levels: usize,
) -> Result<(Vec<RawGraph>, &[Token]), ReadFault>
    ensures { Gives (λ x. (map graph_view x.0.items, x.1.now)) result (separated_at (codes "par") (frame_at levels) tokens.now) }
{
    let (first, rest) = frame(alloc, tokens, levels)?;
    let mut prefix = Vec::new(alloc);
    prefix.push(first)?;
    more_frames(alloc, rest, levels, prefix)
}

/// Other frames, each behind `par`, appended to those that there are.
#[cycle(graphs)]
fn more_frames(
    alloc: Global,
    tokens: &[Token],
    levels: usize,
    prefix: Vec<RawGraph>,
) -> Result<(Vec<RawGraph>, &[Token]), ReadFault>
    ensures { Gives (λ x. (map graph_view x.0.items, x.1.now)) result (more_frames_at levels (map graph_view prefix.items) (length tokens.now) tokens.now) }
{
    let mut frames = prefix;
    let mut rest = tokens;
    for _k in 0..tokens.len() {
        if !starts_with(rest, "par") {
            break;
        }
        match next_frame(alloc, rest, levels) {
            Ok((frame, behind)) => {
                frames.push(frame)?;
                rest = behind;
            }
            Err(fault) => return Err(fault),
        }
    }
    Ok((frames, rest))
}

/// A frame behind `par`.
#[cycle(graphs)]
fn next_frame(
    alloc: Global,
    tokens: &[Token],
    levels: usize,
) -> Result<(RawGraph, &[Token]), ReadFault>
    ensures { Gives (λ x. (graph_view x.0, x.1.now)) result (next_frame_at levels tokens.now) }
{
    let (_par, rest) = word(tokens, "par")?;
    frame(alloc, rest, levels)
}

/// A frame. Its `expr` opens a level.
#[cycle(graphs)]
fn frame(alloc: Global, tokens: &[Token], levels: usize) -> Result<(RawGraph, &[Token]), ReadFault>
    ensures { Gives (λ x. (graph_view x.0, x.1.now)) result (frame_at levels tokens.now) }
{
    let (inner, rest) = open(tokens, "expr", levels)?;
    frame_rest(alloc, rest, inner)
}

/// A frame behind its `expr`, up to `endexpr`.
#[cycle(graphs)]
fn frame_rest(
    alloc: Global,
    tokens: &[Token],
    levels: usize,
) -> Result<(RawGraph, &[Token]), ReadFault>
    ensures { Gives (λ x. (graph_view x.0, x.1.now)) result (frame_rest_at (graph_line_at levels) tokens.now) }
{
    let (graph, rest) = graph_rest(alloc, tokens, levels)?;
    let (_endexpr, rest) = word(rest, "endexpr")?;
    Ok((graph, rest))
}
