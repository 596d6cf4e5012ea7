//! The net of a graph, by its shape.

ghost use Rattle.std.specs.Prelude.{◌≡◌, ◌≤◌, length, IfErr, IfOk};
ghost use Rattle.graph_shapes.specs.GraphNets.{IsNetOfGraph, lines_of};
ghost use Rattle.graph_shapes.specs.GraphShapes.{shape_of};
ghost use Rattle.hmsc_graph.specs.Graphs.{Net as NetValue};
ghost use Rattle.hmsc_graph.specs.Shapes.{IsFaultOf};
ghost use Rattle.msc_base.specs.declared.limits.TheConstants.Limits.{NODE_LINES};
ghost use Rattle.msc_tree.specs.Graphs.{line_list};
ghost use Rattle.msc_tree.specs.Views.{graph_view};

use crate::shapes::graph_shape;
use hmsc_graph::{Net, NetFault};
use msc_tree::RawGraph;
use std::alloc::Global;

/// The net of the graph. It is refused at the first label that no line has, or that a line before its own has.
pub fn graph_net(alloc: Global, graph: &RawGraph) -> Result<Net, NetFault>
    requires { length (line_list (lines_of (graph_view graph.now))) ≤ NODE_LINES }
    ensures net { IfOk result (λ net. IsNetOfGraph (graph_view graph.now) net) }
    ensures only { IfOk result (λ net. (other : NetValue) → IsNetOfGraph (graph_view graph.now) other → other ≡ net) }
    ensures fault { IfErr result (λ fault. IsFaultOf (shape_of (graph_view graph.now)) fault) }
{
    let shape = graph_shape(alloc, graph)?;
    let net = Net::build(alloc, &shape)?;
    Ok(net)
}
