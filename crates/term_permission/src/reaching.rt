//! The nodes of a net that a walk reaches where nothing may happen at some instances: for term_step.

ghost use Rattle.std.specs.Prelude.{◌≡◌, ◌<◌, ◌↔◌, ℕ, IfOk};
ghost use Rattle.chart_term.specs.NormalForms.{allowed, only};
ghost use Rattle.chart_term.specs.Tables.{net_count, net_of};
ghost use Rattle.hmsc_graph.specs.Graphs.{To, WalkThrough};
ghost use Rattle.hmsc_graph.specs.Nets.{size_of};
ghost use Rattle.hmsc_graph.specs.Spots.{spot_of, IsSpotBelow};
ghost use Rattle.msc_base.specs.Lists.{IsIn};
ghost use Rattle.term_laws.specs.Permission.{permits_of};
ghost use Rattle.term_laws.specs.Values.{block_of};
ghost use Rattle.term_permission.specs.Ready.{AreReadyTables};

use crate::asking::passable;
use bit_sets::{Block, NodeSet};
use hmsc_graph::{Spot, reach};
use msc_base::NoMemory;
use std::alloc::Global;
use term_tables::Nets;

/// The nodes of the net that a walk reaches from there, where on its way to them nothing happens at the instances of the block.
///
/// It fails only for want of memory. Permission is asked once of each node that is reached, and of no other.
pub fn reached_nodes(
    alloc: Global,
    nets: &Nets,
    net: u32,
    from: Spot,
    block: &Block,
) -> Result<NodeSet, NoMemory>
    requires tables { AreReadyTables nets.now.tables }
    requires net { net < net_count nets.now.tables }
    requires from { IsSpotBelow (size_of (net_of nets.now.tables net)) from }
    requires block { block_of block.now ≡ only block.now.instances }
    ensures { IfOk result (λ reached. (m : ℕ) → IsIn m reached.nodes ↔ WalkThrough (net_of nets.now.tables net) (allowed (permits_of nets.now.tables) net block.now.instances) (spot_of from) (To m)) }
{
    let nodes = passable(alloc, nets, net, from, block)?;
    let reached = reach(alloc, nets.net(net), from, &nodes.passed)?;
    Ok(reached)
}
