//! The first line of graphs from which no walk comes to an end.

ghost use Rattle.std.specs.Prelude.{◌≡◌, ◌≤◌, ◌↔◌, ℕ, length, IfOk};
ghost use Rattle.graph_rules.specs.GraphRules.{AreLabelled, HasEndlessLine, HaveFewLines, InGraphs};
ghost use Rattle.graph_rules.specs.GraphViews.{graphs_view};
ghost use Rattle.graph_rules.specs.StuckLines.{HasStuckLine, IsStuck};
ghost use Rattle.graph_shapes.specs.GraphShapes.{shape_of};
ghost use Rattle.hmsc_graph.specs.Graphs.{Net as NetValue};
ghost use Rattle.hmsc_graph.specs.Shapes.{IsFaulty, IsGraphOf};
ghost use Rattle.msc_base.specs.Lists.{IsIn};
ghost use Rattle.msc_base.specs.Places.{IsLeast};
ghost use Rattle.msc_base.specs.declared.limits.TheConstants.Limits.{NODE_LINES};
ghost use Rattle.msc_base.specs.declared.place.Place.{Place as PlaceValue};
ghost use Rattle.msc_tree.specs.Views.{graph_view};

use crate::lines::{earlier, place_of};
use bit_sets::NodeSet;
use graph_shapes::graph_shape;
use hmsc_graph::{Net, NetFault, Shape, endless_nodes};
use msc_base::{NoMemory, Place, earlier_if};
use msc_tree::{RawGraph, RawLine};
use std::alloc::Global;

/// The net of a graph whose labels are all known and stand once.
fn net_of(alloc: Global, shape: &Shape) -> Result<Net, NoMemory>
    requires few { length shape.now.lines ≤ NODE_LINES }
    requires labelled { (place : PlaceValue) → IsFaulty shape.now place → ⊥ }
    ensures drawn { IfOk result (IsGraphOf shape.now) }
    ensures only { IfOk result (λ net. (other : NetValue) → IsGraphOf shape.now other → other ≡ net) }
{
    match Net::build(alloc, shape) {
        Ok(net) => Ok(net),
        Err(NetFault::NoMemory) => Err(NoMemory),
        Err(NetFault::UnknownLabel(_)) => unreachable!(),
        Err(NetFault::TwiceLabel(_)) => unreachable!(),
    }
}

/// The nodes of a graph from which no walk comes to an end, though one leads to them.
fn stuck_nodes(alloc: Global, shape: &Shape) -> Result<NodeSet, NoMemory>
    requires few { length shape.now.lines ≤ NODE_LINES }
    requires labelled { (place : PlaceValue) → IsFaulty shape.now place → ⊥ }
    ensures { IfOk result (λ stuck. (node : ℕ) → IsIn node stuck.nodes ↔ IsStuck shape.now node) }
{
    let net = net_of(alloc, shape)?;
    let stuck = endless_nodes(alloc, &net)?;
    Ok(stuck)
}

/// The earliest label of the lines that are some of these nodes.
fn first_stuck(lines: &[RawLine], stuck: &NodeSet) -> Option<Place>
    requires { length lines.now ≤ NODE_LINES }
    ensures { IsLeast (HasStuckLine lines.now (length lines.now) stuck.now.nodes) result }
{
    let mut found = None;
    for index in 0..lines.len() {
        found = earlier_if(found, place_of(&lines[index]), stuck.has(index as u32));
    }
    found
}

/// The earliest label of the lines of a graph from which no walk comes to an end.
fn endless_in(alloc: Global, graph: &RawGraph) -> Result<Option<Place>, NoMemory>
    requires few { length (shape_of (graph_view graph.now)).lines ≤ NODE_LINES }
    requires labelled { (place : PlaceValue) → IsFaulty (shape_of (graph_view graph.now)) place → ⊥ }
    ensures { IfOk result (IsLeast (HasEndlessLine (shape_of (graph_view graph.now)))) }
{
    let shape = graph_shape(alloc, graph)?;
    let stuck = stuck_nodes(alloc, &shape)?;
    Ok(first_stuck(graph.lines.as_slice(), &stuck))
}

/// The earliest label of the lines of graphs from which no walk comes to an end. It fails only for want of memory.
pub fn endless_line(alloc: Global, graphs: &[&RawGraph]) -> Result<Option<Place>, NoMemory>
    requires few { HaveFewLines (graphs_view graphs.now) }
    requires labelled { AreLabelled (graphs_view graphs.now) }
    ensures { IfOk result (IsLeast (InGraphs HasEndlessLine (graphs_view graphs.now))) }
{
    let mut found = None;
    for graph in graphs {
        let place = endless_in(alloc, graph)?;
        found = earlier(found, place);
    }
    Ok(found)
}
