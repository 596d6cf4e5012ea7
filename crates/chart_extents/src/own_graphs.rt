//! What the lines of a graph and of its frames come to by themselves: for `own`.

ghost use Rattle.std.specs.Prelude.{◌≡◌, ◌+◌, IfOk, max};
ghost use Rattle.chart_extents.specs.OwnExtents.{node_nesting, node_size, part_nesting, part_size};
ghost use Rattle.graph_text.specs.GraphGathering.{deepest_part, summed_parts};
ghost use Rattle.graph_text.specs.GraphPartViews.{part_view, parts_view};
ghost use Rattle.msc_tree.specs.Views.{node_view};

use crate::own::{expression_nesting, expression_size, sum_of};
use graph_text::GraphPart;
use msc_base::NoMemory;
use msc_tree::NodeKind;

/// What the expression of a node counts by itself.
fn node_size(node: &NodeKind) -> Result<u64, NoMemory>
    ensures { IfOk result (λ size. size ≡ node_size (node_view node.now)) }
{
    match node {
        NodeKind::Refer(held) => expression_size(held),
        NodeKind::Ends => Ok(0),
        NodeKind::Connect => Ok(0),
        NodeKind::Condition(_) => Ok(0),
        NodeKind::Frames(_) => Ok(0),
    }
}

/// What the expression of a part counts by itself.
fn part_size(part: GraphPart<'_>) -> Result<u64, NoMemory>
    ensures { IfOk result (λ size. size ≡ part_size (part_view part.entry)) }
{
    match part {
        GraphPart::Graph(_, _) => Ok(0),
        GraphPart::Line(_, held) => node_size(&held.node),
    }
}

/// What the expressions of the parts of a graph count.
pub(crate) fn parts_size(parts: &[GraphPart<'_>]) -> Result<u64, NoMemory>
    ensures { IfOk result (λ size. size ≡ summed_parts part_size (parts_view parts.now)) }
{
    let mut total = 0u64;
    for held in parts {
        let more = part_size(*held)?;
        total = sum_of(total, more)?;
    }
    Ok(total)
}

/// How deep a node is by itself.
fn node_nesting(node: &NodeKind) -> Result<u64, NoMemory>
    ensures { IfOk result (λ nesting. nesting ≡ node_nesting (node_view node.now)) }
{
    match node {
        NodeKind::Ends => Ok(0),
        NodeKind::Connect => Ok(0),
        NodeKind::Condition(_) => Ok(0),
        NodeKind::Refer(held) => expression_nesting(held),
        NodeKind::Frames(_) => Ok(2),
    }
}

/// How deep a part is.
fn part_nesting(part: GraphPart<'_>) -> Result<u64, NoMemory>
    ensures { IfOk result (λ nesting. nesting ≡ part_nesting (part_view part.entry)) }
{
    match part {
        GraphPart::Graph(depth, _) => sum_of(depth as u64, 2),
        GraphPart::Line(depth, held) => {
            let inner = node_nesting(&held.node)?;
            sum_of(depth as u64, inner)
        }
    }
}

/// How deep the parts of a graph are.
pub(crate) fn parts_nesting(parts: &[GraphPart<'_>]) -> Result<u64, NoMemory>
    ensures { IfOk result (λ nesting. nesting ≡ deepest_part part_nesting (parts_view parts.now)) }
{
    let mut most = 0u64;
    for held in parts {
        let inner = part_nesting(*held)?;
        most = most.max(inner);
    }
    Ok(most)
}
