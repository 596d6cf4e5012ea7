//! The first label of graphs that no line has, or that a line before its own has.

ghost use Rattle.std.specs.Prelude.{◌≡◌, ◌≤◌, length, IfOk};
ghost use Rattle.graph_rules.specs.GraphRules.{BreakLabels, HaveFewLines, labels};
ghost use Rattle.graph_rules.specs.GraphViews.{graphs_view};
ghost use Rattle.graph_shapes.specs.GraphShapes.{shape_of};
ghost use Rattle.hmsc_graph.specs.Shapes.{BreaksLabels};
ghost use Rattle.msc_base.specs.declared.limits.TheConstants.Limits.{NODE_LINES};
ghost use Rattle.msc_rules.specs.FirstFaults.{IsBest};
ghost use Rattle.msc_rules.specs.Rules.{number_of};
ghost use Rattle.msc_tree.specs.Views.{graph_view};

use graph_shapes::graph_shape;
use hmsc_graph::{Net, NetFault};
use msc_base::NoMemory;
use msc_rules::{Broken, Rule, earlier_fault};
use msc_tree::RawGraph;
use std::alloc::Global;

/// The first fault of the labels of a graph.
fn fault_in(alloc: Global, graph: &RawGraph) -> Result<Option<Broken<Rule>>, NoMemory>
    requires { length (shape_of (graph_view graph.now)).lines ≤ NODE_LINES }
    ensures { IfOk result (IsBest number_of (BreaksLabels (shape_of (graph_view graph.now))) labels) }
{
    let shape = graph_shape(alloc, graph)?;
    match Net::build(alloc, &shape) {
        Ok(_) => Ok(None),
        Err(NetFault::UnknownLabel(place)) => Ok(Some(Broken {
            rule: Rule::UnknownLabel,
            place,
        })),
        Err(NetFault::TwiceLabel(place)) => Ok(Some(Broken {
            rule: Rule::LabelNamedTwice,
            place,
        })),
        Err(NetFault::NoMemory) => Err(NoMemory),
    }
}

/// The first fault of the labels of graphs, by place, and at one place by the rules' numbers. It fails only for want of memory.
pub fn label_fault(alloc: Global, graphs: &[&RawGraph]) -> Result<Option<Broken<Rule>>, NoMemory>
    requires { HaveFewLines (graphs_view graphs.now) }
    ensures { IfOk result (IsBest number_of (BreakLabels (graphs_view graphs.now)) labels) }
{
    let mut found = None;
    for graph in graphs {
        let fault = fault_in(alloc, graph)?;
        found = earlier_fault(found, fault);
    }
    Ok(found)
}
