//! The nodes of a walk from which an event with a label may be taken, one by one: for `descent`.

ghost use Rattle.std.specs.Prelude.{◌≡◌, ◌<◌, IfOk, IfSome, true, false};
ghost use Rattle.chart_term.specs.Tables.{net_count, net_of};
ghost use Rattle.chart_term.specs.Terms.{Walk};
ghost use Rattle.hmsc_graph.specs.Nets.{size_of};
ghost use Rattle.hmsc_graph.specs.Spots.{spot_of, goal_of, IsSpotBelow};
ghost use Rattle.term_laws.specs.Normality.{IsSet};
ghost use Rattle.term_laws.specs.Permission.{kept_of};
ghost use Rattle.term_permission.specs.Ready.{AreReadyTables};
ghost use Rattle.term_step.specs.Reaching.{IsLeftOut, IsNodeOr, IsReachOfMet};
ghost use Rattle.term_step.specs.Searches.{IsNext, IsTaken};
ghost use Rattle.term_step.specs.Skips.{ArePlaced};

use crate::ascent::Taken;
use crate::descent::Step;
use bit_sets::{Block, NodeSet};
use chart_term::Term;
use msc_base::NoMemory;
use std::alloc::Global;
use term_permission::{WalkParts, permit, reached_nodes, widened};
use term_tables::Nets;

/// The term of the next node of a net from the index on, where the walk may pass it.
///
/// `met` is the last event with the label that was found, if there is one. Where events of one label have the same instances, as
/// `one_place` says, only the nodes are looked at that the walk reaches while nothing happens at these.
#[tactic(auto, using(crate::proofs::Passes::passes, crate::proofs::Descending::descending))]
pub(crate) fn next_node(
    alloc: Global,
    nets: &Nets,
    label: u32,
    way: WalkParts<'_>,
    from: usize,
    met: &Option<Taken>,
    one_place: bool,
) -> Result<Option<Step>, NoMemory>
    requires tables { AreReadyTables nets.now.tables }
    requires net { way.net < net_count nets.now.tables }
    requires from { IsSpotBelow (size_of (net_of nets.now.tables way.net)) way.from }
    requires own { IsSet way.own.now.instances }
    requires met { IfSome met.now IsTaken }
    requires placed { one_place ≡ true → ArePlaced nets.now.tables label (Walk way.net (spot_of way.from) (goal_of way.to) way.own.now.instances) met.now }
    ensures { IfOk result (λ next. IsNext nets.now.tables label (Walk way.entry.net (spot_of way.entry.from) (goal_of way.entry.to) way.entry.own.now.instances) from next) }
{
    let within = reached(alloc, nets, way, met, one_place)?;
    let size = nets.net(way.net).size() as usize;
    for index in from..size {
        if let Some(inner) = node_of(alloc, nets, label, way, index, &within)? {
            return Ok(Some(Step { index, inner }));
        }
    }
    Ok(None)
}

/// The nodes that the walk reaches while nothing happens at the instances of the event that was met, where each event with its label
/// has these; else no node is left out.
fn reached(
    alloc: Global,
    nets: &Nets,
    way: WalkParts<'_>,
    met: &Option<Taken>,
    one_place: bool,
) -> Result<Option<NodeSet>, NoMemory>
    requires tables { AreReadyTables nets.now.tables }
    requires net { way.net < net_count nets.now.tables }
    requires from { IsSpotBelow (size_of (net_of nets.now.tables way.net)) way.from }
    requires own { IsSet way.own.now.instances }
    ensures { IfOk result (λ reached. IfSome reached (IsReachOfMet nets.now.tables way.entry.net (spot_of way.entry.from) way.entry.own.now.instances met.now one_place)) }
{
    if !one_place {
        return Ok(None);
    }
    let Some(event) = met else {
        return Ok(None);
    };
    let wide = widened(alloc, way.own, &event.at)?;
    let nodes = reached_nodes(alloc, nets, way.net, way.from, &wide)?;
    Ok(Some(nodes))
}

/// Whether the walk may reach the node.
fn may_reach(reached: &Option<NodeSet>, node: u32) -> bool
    ensures { result ≡ false → IsLeftOut reached.now node }
{
    match reached {
        Some(nodes) => nodes.has(node),
        None => true,
    }
}

/// What the walk's block leaves of a node's term, where this may have the label and the walk may reach the node.
#[tactic(auto, using(crate::proofs::Passes::passes, crate::proofs::Descending::descending))]
fn node_of(
    alloc: Global,
    nets: &Nets,
    label: u32,
    way: WalkParts<'_>,
    index: usize,
    reached: &Option<NodeSet>,
) -> Result<Option<Term>, NoMemory>
    requires tables { AreReadyTables nets.now.tables }
    requires net { way.net < net_count nets.now.tables }
    requires own { IsSet way.own.now.instances }
    requires index { index < size_of (net_of nets.now.tables way.net) }
    ensures { IfOk result (λ node. IsNodeOr label reached.now index (kept_of nets.now.tables way.entry.net index way.entry.own.now.instances) node) }
{
    let node = node_at(nets, way.net, index);
    if !may_reach(reached, node) {
        return Ok(None);
    }
    let term = nets.node(way.net, node);
    if !term.may_have(label) {
        return Ok(None);
    }
    let own = widened(alloc, way.own, &Block::empty(alloc))?;
    let left = permit(alloc, nets, term, &own)?;
    Ok(left)
}

/// The number of the net's node of that index.
pub fn node_at(nets: &Nets, net: u32, index: usize) -> u32
    requires net { net < net_count nets.now.tables }
    requires index { index < size_of (net_of nets.now.tables net) }
    ensures { result ≡ index }
{
    let size = nets.net(net).size() as usize;
    index.min(size) as u32
}
