//! The nodes that are reached and can't end, and the first of them, by a search forwards and one backwards. No crate calls
//! them yet.

ghost use Rattle.std.specs.Prelude.{◌≡◌, ◌<◌, ◌↔◌, ◌⊎◌, ℕ, true, IfOk};
ghost use Rattle.bit_sets.specs.NodeSets.{HasAllNodes};
ghost use Rattle.hmsc_graph.specs.Graphs.{At, End, WalkThrough, arrives};
ghost use Rattle.hmsc_graph.specs.Nets.{size_of};
ghost use Rattle.hmsc_graph.specs.Searches.{IsFirstLost, IsLost};
ghost use Rattle.hmsc_graph.specs.Walks.{IsEndless, IsFirstEndless};
ghost use Rattle.msc_base.specs.Lists.{IsIn};

use crate::search::search;
use crate::{Net, Spot, reach};
use bit_sets::NodeSet;
use msc_base::NoMemory;
use std::alloc::Global;

/// The nodes that are `end` lines or can reach one.
fn ending_nodes(alloc: Global, net: &Net, all: &NodeSet) -> Result<NodeSet, NoMemory>
    requires made { all.now.size ≡ size_of net.now }
    requires all { HasAllNodes all.now }
    ensures { IfOk result (λ ending. (m : ℕ) →
        IsIn m ending.nodes ↔ ((arrives net.now End m ≡ true) ⊎ WalkThrough net.now all.now.nodes (At m) End)) }
{
    let ends = net.end_nodes(alloc)?;
    let ending = search(alloc, ends.as_slice(), net.back(), all)?;
    Ok(ending)
}

/// The first node that is reached and can't end.
fn first_lost(size: u32, reached: &NodeSet, ending: &NodeSet) -> Option<u32>
    ensures { IsFirstLost size reached.now.nodes ending.now.nodes result }
{
    for node in 0..size {
        if reached.has(node) && !ending.has(node) {
            return Some(node);
        }
    }
    None
}

/// All nodes that are reached and can't end.
fn all_lost(
    alloc: Global,
    size: u32,
    reached: &NodeSet,
    ending: &NodeSet,
) -> Result<NodeSet, NoMemory>
    ensures size { IfOk result (λ lost. lost.size ≡ size) }
    ensures nodes { IfOk result (λ lost. (m : ℕ) → IsIn m lost.nodes ↔ IsLost size reached.now.nodes ending.now.nodes m) }
{
    let mut lost = NodeSet::empty(alloc, size)?;
    for node in 0..size {
        if reached.has(node) && !ending.has(node) {
            lost.add(node);
        }
    }
    Ok(lost)
}

/// The first node of the text that is no `end` line, is reachable from the start and can't reach an `end` line.
///
/// It fails only for want of memory. It takes the time of one search forwards and one backwards from the `end` lines.
pub fn endless(alloc: Global, net: &Net) -> Result<Option<u32>, NoMemory>
    ensures { IfOk result (λ found. IsFirstEndless net.now found) }
{
    let all = NodeSet::full(alloc, net.size())?;
    let reached = reach(alloc, net, Spot::Start, &all)?;
    let ending = ending_nodes(alloc, net, &all)?;
    Ok(first_lost(net.size(), &reached, &ending))
}

/// The nodes that are no `end` lines, are reachable from the start and can't reach an `end` line.
///
/// It fails only for want of memory. It takes the time of one search forwards and one backwards from the `end` lines.
pub fn endless_nodes(alloc: Global, net: &Net) -> Result<NodeSet, NoMemory>
    ensures size { IfOk result (λ endless. endless.size ≡ size_of net.now) }
    ensures nodes { IfOk result (λ endless. (m : ℕ) → IsIn m endless.nodes ↔ IsEndless net.now m) }
{
    let all = NodeSet::full(alloc, net.size())?;
    let reached = reach(alloc, net, Spot::Start, &all)?;
    let ending = ending_nodes(alloc, net, &all)?;
    let lost = all_lost(alloc, net.size(), &reached, &ending)?;
    Ok(lost)
}
