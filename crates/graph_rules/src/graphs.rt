//! The graphs of a chart, with the frames of its nodes.

ghost use Rattle.std.specs.Prelude.{◌≡◌, ◌++◌, ◌∷◌, [], map, IfOk, OnOk};
ghost use Rattle.graph_rules.specs.GraphRules.{content_graphs, ending_graphs, frames_within};
ghost use Rattle.graph_rules.specs.GraphViews.{graphs_view};
ghost use Rattle.graph_shapes.specs.GraphLists.{frames_in, frames_of, graphs_among, graphs_in};
ghost use Rattle.msc_tree.specs.Graphs.{graphs, lines};
ghost use Rattle.msc_tree.specs.Views.{content_view, graph_view, line_view, node_view};

use msc_base::NoMemory;
use msc_tree::{Content, NodeKind, RawGraph, RawLine};
use std::alloc::Global;

/// Appends a graph.
fn push<'a>(list: &mut Vec<&'a RawGraph>, graph: &'a RawGraph) -> Result<(), NoMemory>
    ensures { OnOk result (graphs_view list.new.items ≡ graphs_view list.old.items ++ graph_view graph.now ∷ []) }
{
    list.push(graph)?;
    Ok(())
}

/// Adds a graph, and the frames of its nodes.
#[cycle(graphs)]
fn add_graph<'a>(list: &mut Vec<&'a RawGraph>, graph: &'a RawGraph) -> Result<(), NoMemory>
    ensures { OnOk result (graphs_view list.new.items ≡ graphs_view list.old.items ++ graphs_in (graph_view graph.now)) }
{
    push(list, graph)?;
    add_lines(list, graph.lines.as_slice())
}

/// Adds the frames of the nodes of these lines.
#[cycle(graphs)]
fn add_lines<'a>(list: &mut Vec<&'a RawGraph>, held: &'a [RawLine]) -> Result<(), NoMemory>
    ensures { OnOk result (graphs_view list.new.items ≡ graphs_view list.old.items ++ frames_in (lines (map line_view held.now))) }
{
    for line in held {
        add_node(list, &line.node)?;
    }
    Ok(())
}

/// Adds the frames of a node.
#[cycle(graphs)]
fn add_node<'a>(list: &mut Vec<&'a RawGraph>, node: &'a NodeKind) -> Result<(), NoMemory>
    ensures { OnOk result (graphs_view list.new.items ≡ graphs_view list.old.items ++ frames_of (node_view node.now)) }
{
    match node {
        NodeKind::Ends => Ok(()),
        NodeKind::Connect => Ok(()),
        NodeKind::Condition(_) => Ok(()),
        NodeKind::Refer(_) => Ok(()),
        NodeKind::Frames(frames) => add_graphs(list, frames.as_slice()),
    }
}

/// Adds graphs, and the frames of their nodes.
#[cycle(graphs)]
fn add_graphs<'a>(list: &mut Vec<&'a RawGraph>, frames: &'a [RawGraph]) -> Result<(), NoMemory>
    ensures { OnOk result (graphs_view list.new.items ≡ graphs_view list.old.items ++ graphs_among (graphs (map graph_view frames.now))) }
{
    for frame in frames {
        add_graph(list, frame)?;
    }
    Ok(())
}

/// The graph of a chart, if it has one, and the frames of its nodes, at any depth, in the order of the text. It fails only for want of
/// memory.
pub fn chart_graphs<'a>(alloc: Global, content: &'a Content) -> Result<Vec<&'a RawGraph>, NoMemory>
    ensures { IfOk result (λ list. graphs_view list.items ≡ content_graphs (content_view content.now)) }
{
    let mut list = Vec::new(alloc);
    match content {
        Content::Events(_) => Ok(list),
        Content::Graph(graph) => {
            add_graph(&mut list, graph)?;
            Ok(list)
        }
    }
}

/// Those of them in which each walk is to come to an end: the frames, and the graph itself where charts refer to its chart. It fails only
/// for want of memory.
pub fn graphs_to_end<'a>(
    alloc: Global,
    referred: bool,
    content: &'a Content,
) -> Result<Vec<&'a RawGraph>, NoMemory>
    ensures { IfOk result (λ list. graphs_view list.items ≡ ending_graphs referred (content_view content.now)) }
{
    let mut list = Vec::new(alloc);
    match content {
        Content::Events(_) => Ok(list),
        Content::Graph(graph) => {
            if referred {
                add_graph(&mut list, graph)?;
            } else {
                add_lines(&mut list, graph.lines.as_slice())?;
            }
            Ok(list)
        }
    }
}
