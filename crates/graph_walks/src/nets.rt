//! The net of a graph with the terms of its nodes, and the walks through it.

ghost use Rattle.std.specs.Prelude.{◌≡◌, ◌<◌, ◌≤◌, Some, length, IfOk, IfErr, IfSome, IfNone, OnOk, OnErr};
ghost use Rattle.chart_term.specs.Properties.{Each};
ghost use Rattle.chart_term.specs.Tables.{net_count};
ghost use Rattle.graph_shapes.specs.GraphNets.{lines_of};
ghost use Rattle.graph_shapes.specs.GraphShapes.{shape_of};
ghost use Rattle.graph_walks.specs.AddedNets.{IsAdded, IsClosed, IsJudged, LeadsToNoEnd};
ghost use Rattle.hmsc_graph.specs.Graphs.{Any};
ghost use Rattle.hmsc_graph.specs.Shapes.{IsFaultOf};
ghost use Rattle.msc_base.specs.Stored.{most_numbered};
ghost use Rattle.msc_base.specs.declared.limits.TheConstants.Limits.{NODE_LINES};
ghost use Rattle.msc_tree.specs.Graphs.{line_list};
ghost use Rattle.msc_tree.specs.Views.{graph_view};
ghost use Rattle.term_laws.specs.FullSoundness.{fresh_walk};
ghost use Rattle.term_permission.specs.Ready.{AreReadyTables, IsReady};

use crate::laws::graph_terms_mean;
use chart_term::{Term, TermList};
use graph_shapes::graph_net;
use hmsc_graph::{Goal, NetFault};
use msc_base::NoMemory;
use msc_tree::RawGraph;
use std::alloc::Global;
use term_permission::fresh_walk;
use term_tables::Nets;

/// Appends the net of the graph, with the terms of its nodes, and gives its number. It is refused at the first label that no line has,
/// or that a line before its own has; then, and after want of memory, the tables are as they were.
pub fn add_graph(
    alloc: Global,
    nets: &mut Nets,
    graph: &RawGraph,
    nodes: TermList,
) -> Result<u32, NetFault>
    requires few { net_count nets.old.tables < most_numbered }
    requires lines { length (line_list (lines_of (graph_view graph.now))) ≤ NODE_LINES }
    requires nodes { length nodes ≡ length (line_list (lines_of (graph_view graph.now))) }
    ensures number { IfOk result (λ number. number ≡ net_count nets.old.tables) }
    ensures added { OnOk result (IsAdded (graph_view graph.now) nodes nets.old nets.new) }
    ensures err { OnErr result (nets.new ≡ nets.old) }
    ensures fault { IfErr result (λ fault. IsFaultOf (shape_of (graph_view graph.now)) fault) }
{
    let net = graph_net(alloc, graph)?;
    let number = nets.add_net(net, nodes)?;
    Ok(number)
}

/// The walk through a net that goes on to any node.
fn open_walk(alloc: Global, nets: &Nets, net: u32) -> Result<Term, NoMemory>
    requires tables { AreReadyTables nets.now.tables }
    requires net { net < net_count nets.now.tables }
    ensures { IfOk result (λ term. fresh_walk nets.now.tables net Any ≡ Some term) }
{
    match fresh_walk(alloc, nets, net, Goal::Any)? {
        Some(term) => Ok(term),
        None => unreachable!(),
    }
}

/// The term of the judged graph, whose nodes have these terms: walks that go on to any node. Its net is behind those that were there.
pub fn judged_graph(
    alloc: Global,
    nets: &mut Nets,
    graph: &RawGraph,
    nodes: TermList,
) -> Result<Term, NetFault>
    requires few { net_count nets.old.tables < most_numbered }
    requires lines { length (line_list (lines_of (graph_view graph.now))) ≤ NODE_LINES }
    requires nodes { length nodes ≡ length (line_list (lines_of (graph_view graph.now))) }
    requires tables { AreReadyTables nets.old.tables }
    requires ready { Each (IsReady nets.old.tables) nodes }
    ensures judged { IfOk result (IsJudged (graph_view graph.now) nodes nets.old nets.new) }
    ensures fault { IfErr result (λ fault. IsFaultOf (shape_of (graph_view graph.now)) fault) }
{
    graph_terms_mean();
    let net = add_graph(alloc, nets, graph, nodes)?;
    let term = open_walk(alloc, nets, net)?;
    Ok(term)
}

/// The term of a graph that is referred to, or of a frame, whose nodes have these terms: walks to an end. There is none where no walk
/// leads to an end. Its net is behind those that were there.
pub fn closed_graph(
    alloc: Global,
    nets: &mut Nets,
    graph: &RawGraph,
    nodes: TermList,
) -> Result<Option<Term>, NetFault>
    requires few { net_count nets.old.tables < most_numbered }
    requires lines { length (line_list (lines_of (graph_view graph.now))) ≤ NODE_LINES }
    requires nodes { length nodes ≡ length (line_list (lines_of (graph_view graph.now))) }
    requires tables { AreReadyTables nets.old.tables }
    requires ready { Each (IsReady nets.old.tables) nodes }
    ensures closed { IfOk result (λ made. IfSome made (IsClosed (graph_view graph.now) nodes nets.old nets.new)) }
    ensures none { IfOk result (λ made. IfNone made (LeadsToNoEnd (graph_view graph.now) nodes nets.old nets.new)) }
    ensures fault { IfErr result (λ fault. IsFaultOf (shape_of (graph_view graph.now)) fault) }
{
    graph_terms_mean();
    let net = add_graph(alloc, nets, graph, nodes)?;
    let term = fresh_walk(alloc, nets, net, Goal::End)?;
    Ok(term)
}
