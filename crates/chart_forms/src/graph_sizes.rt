//! What the lines of a graph and of its frames come to: for `sizes`.

ghost use Rattle.std.specs.Prelude.{◌≡◌, ◌+◌, IfOk};
ghost use Rattle.chart_forms.specs.ChartSizes.{node_size, part_size};
ghost use Rattle.graph_text.specs.GraphGathering.{summed_parts};
ghost use Rattle.graph_text.specs.GraphPartViews.{part_view, parts_view};
ghost use Rattle.msc_tree.specs.Views.{node_view};

use crate::sizes::sum_of;
use graph_text::GraphPart;
use msc_base::NoMemory;
use msc_tree::NodeKind;

/// The size of a node by itself.
fn node_size(node: &NodeKind) -> u64
    ensures { result ≡ node_size (node_view node.now) }
{
    match node {
        NodeKind::Ends => 0,
        NodeKind::Connect => 0,
        NodeKind::Condition(_) => 0,
        NodeKind::Refer(_) => 0,
        NodeKind::Frames(_) => 1,
    }
}

/// The size of a part of a graph.
fn part_size(part: GraphPart<'_>) -> Result<u64, NoMemory>
    ensures { IfOk result (λ size. size ≡ part_size (part_view part.entry)) }
{
    match part {
        GraphPart::Graph(_, _) => Ok(2),
        GraphPart::Line(_, held) => sum_of(2, node_size(&held.node)),
    }
}

/// The size of the parts of a graph.
pub(crate) fn parts_size(parts: &[GraphPart<'_>]) -> Result<u64, NoMemory>
    ensures { IfOk result (λ size. size ≡ summed_parts part_size (parts_view parts.now)) }
{
    let mut total = 0u64;
    for held in parts {
        let more = part_size(*held)?;
        total = sum_of(total, more)?;
    }
    Ok(total)
}
