//! The shape of a graph, which hmsc_graph makes a net of.

ghost use Rattle.std.specs.Prelude.{◌≡◌, IfOk};
ghost use Rattle.graph_shapes.specs.GraphShapes.{is_end, shape_line, shape_of};
ghost use Rattle.msc_tree.specs.Views.{graph_view, line_view, node_view};

use hmsc_graph::{Shape, ShapeLine, ShapeLines};
use msc_base::{LabelRef, LabelRefs, NoMemory};
use msc_tree::{NodeKind, RawGraph, RawLine};
use std::alloc::Global;

/// Whether walks end at the node.
fn is_end(node: &NodeKind) -> bool
    ensures { result ≡ is_end (node_view node.now) }
{
    matches!(node, NodeKind::Ends)
}

/// A copy of the labels, in their order.
fn copied(alloc: Global, labels: &[LabelRef]) -> Result<LabelRefs, NoMemory>
    ensures { IfOk result (λ list. list ≡ labels.now) }
{
    let mut list = LabelRefs::new(alloc);
    for label in labels {
        let name = label.name.copy(alloc)?;
        list.push(LabelRef {
            name,
            place: label.place,
        })?;
    }
    Ok(list)
}

/// A line without the content of its node.
fn line_shape(alloc: Global, line: &RawLine) -> Result<ShapeLine, NoMemory>
    ensures { IfOk result (λ made. made ≡ shape_line (line_view line.now)) }
{
    let label = line.label.copy(alloc)?;
    let next = copied(alloc, line.next.as_slice())?;
    let ends = is_end(&line.node);
    Ok(ShapeLine {
        label,
        place: line.place,
        ends,
        next,
    })
}

/// The graph without the contents of its nodes.
pub fn graph_shape(alloc: Global, graph: &RawGraph) -> Result<Shape, NoMemory>
    ensures { IfOk result (λ shape. shape ≡ shape_of (graph_view graph.now)) }
{
    let starts = copied(alloc, graph.starts.as_slice())?;
    let mut lines = ShapeLines::new(alloc);
    for line in graph.lines.as_slice() {
        let made = line_shape(alloc, line)?;
        lines.push(made)?;
    }
    Ok(Shape { starts, lines })
}
