//! Goes through a graph once, and lists what stands in its text.

ghost use Rattle.std.specs.Prelude.{◌≡◌, ◌+◌, ◌++◌, ◌∷◌, [], IfOk, OnOk, map};
ghost use Rattle.graph_text.specs.GraphPartViews.{part_view, parts_view};
ghost use Rattle.graph_text.specs.GraphTexts.{frames_parts, graph_parts, graph_text as text_of, line_parts, lines_parts, node_parts};
ghost use Rattle.msc_tree.specs.Graphs.{graphs as graph_tree, lines as line_tree};
ghost use Rattle.msc_tree.specs.Views.{content_view, graph_view, line_view, node_view};

use crate::GraphPart;
use msc_base::NoMemory;
use msc_tree::{Content, NodeKind, RawGraph, RawLine};
use std::alloc::Global;

/// Two levels further down. More depth than 32 bits hold would want more memory than there is.
fn deeper(depth: u32) -> Result<u32, NoMemory>
    ensures { IfOk result (λ deeper. deeper ≡ depth + 2) }
{
    depth.checked_add(2).ok_or(NoMemory)
}

/// Appends a part.
fn push<'a>(parts: &mut Vec<GraphPart<'a>>, part: GraphPart<'a>) -> Result<(), NoMemory>
    ensures { OnOk result (parts_view parts.new.items ≡ parts_view parts.old.items ++ part_view part.entry ∷ []) }
{
    parts.push(part)?;
    Ok(())
}

/// Adds a graph, and what stands in it.
#[cycle(parts)]
fn graph<'a>(
    parts: &mut Vec<GraphPart<'a>>,
    depth: u32,
    graph: &'a RawGraph,
) -> Result<(), NoMemory>
    ensures { OnOk result (parts_view parts.new.items ≡ parts_view parts.old.items ++ graph_parts depth (graph_view graph.now)) }
{
    push(parts, GraphPart::Graph(depth, graph))?;
    let inner = deeper(depth)?;
    lines(parts, inner, graph.lines.as_slice())
}

/// Adds lines.
#[cycle(parts)]
fn lines<'a>(
    parts: &mut Vec<GraphPart<'a>>,
    depth: u32,
    list: &'a [RawLine],
) -> Result<(), NoMemory>
    ensures { OnOk result (parts_view parts.new.items ≡ parts_view parts.old.items ++ lines_parts depth (line_tree (map line_view list.now))) }
{
    for held in list {
        line(parts, depth, held)?;
    }
    Ok(())
}

/// Adds a line, and what stands in it.
#[cycle(parts)]
fn line<'a>(parts: &mut Vec<GraphPart<'a>>, depth: u32, line: &'a RawLine) -> Result<(), NoMemory>
    ensures { OnOk result (parts_view parts.new.items ≡ parts_view parts.old.items ++ line_parts depth (line_view line.now)) }
{
    push(parts, GraphPart::Line(depth, line))?;
    node(parts, depth, &line.node)
}

/// Adds what stands in a node.
#[cycle(parts)]
fn node<'a>(parts: &mut Vec<GraphPart<'a>>, depth: u32, node: &'a NodeKind) -> Result<(), NoMemory>
    ensures { OnOk result (parts_view parts.new.items ≡ parts_view parts.old.items ++ node_parts depth (node_view node.now)) }
{
    match node {
        NodeKind::Frames(list) => {
            let inner = deeper(depth)?;
            frames(parts, inner, list.as_slice())
        }
        NodeKind::Ends => Ok(()),
        NodeKind::Connect => Ok(()),
        NodeKind::Condition(_) => Ok(()),
        NodeKind::Refer(_) => Ok(()),
    }
}

/// Adds frames.
#[cycle(parts)]
fn frames<'a>(
    parts: &mut Vec<GraphPart<'a>>,
    depth: u32,
    list: &'a [RawGraph],
) -> Result<(), NoMemory>
    ensures { OnOk result (parts_view parts.new.items ≡ parts_view parts.old.items ++ frames_parts depth (graph_tree (map graph_view list.now))) }
{
    for held in list {
        graph(parts, depth, held)?;
    }
    Ok(())
}

/// The text of what a chart holds, part by part, where it is a graph. It fails only for want of memory.
pub fn graph_text<'a>(alloc: Global, content: &'a Content) -> Result<Vec<GraphPart<'a>>, NoMemory>
    ensures { IfOk result (λ parts. parts_view parts.items ≡ text_of (content_view content.now)) }
{
    let mut parts = Vec::new(alloc);
    match content {
        Content::Events(_) => {}
        Content::Graph(held) => graph(&mut parts, 0, held)?,
    }
    Ok(parts)
}
