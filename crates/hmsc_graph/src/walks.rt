//! The nodes that walks through allowed nodes reach, and those from which they lead to a goal. term_step asks by them
//! whether a walk can go on.

ghost use Rattle.std.specs.Prelude.{◌≡◌, ◌<◌, ◌↔◌, ℕ, IfOk, IsTrue};
ghost use Rattle.hmsc_graph.specs.Graphs.{At, To, WalkThrough, arrives};
ghost use Rattle.msc_base.specs.Lists.{IsIn};
ghost use Rattle.hmsc_graph.specs.Nets.{size_of};
ghost use Rattle.hmsc_graph.specs.Spots.{spot_of, goal_of, IsSpotBelow, IsGoalBelow};
ghost use Rattle.hmsc_graph.specs.Searches.{LeadsOn, OneLeads};
ghost use Rattle.hmsc_graph.specs.Walks.{Leads};

use crate::search::search;
use crate::{Goal, Net, Spot};
use bit_sets::NodeSet;
use msc_base::NoMemory;
use std::alloc::Global;

/// The nodes to which a walk of at least one edge leads from there, all inner nodes of which are allowed.
///
/// It fails only for want of memory. It takes the time of the nodes and edges that it meets, each of them once.
pub fn reach(alloc: Global, net: &Net, from: Spot, allowed: &NodeSet) -> Result<NodeSet, NoMemory>
    requires made { allowed.now.size ≡ size_of net.now }
    requires from { IsSpotBelow (size_of net.now) from }
    ensures size { IfOk result (λ reached. reached.size ≡ size_of net.now) }
    ensures nodes { IfOk result (λ reached. (m : ℕ) →
        IsIn m reached.nodes ↔ WalkThrough net.now allowed.now.nodes (spot_of from) (To m)) }
{
    search(alloc, net.behind(from), net.next(), allowed)
}

/// The nodes from which a walk of at least one edge leads there, all inner nodes of which are allowed. Anywhere is led to
/// from each node.
///
/// It fails only for want of memory. It takes the time of the nodes and edges that it meets, each of them once.
pub fn reach_back(
    alloc: Global,
    net: &Net,
    to: Goal,
    allowed: &NodeSet,
) -> Result<NodeSet, NoMemory>
    requires made { allowed.now.size ≡ size_of net.now }
    requires to { IsGoalBelow (size_of net.now) to }
    ensures size { IfOk result (λ leading. leading.size ≡ size_of net.now) }
    ensures nodes { IfOk result (λ leading. (m : ℕ) → m < size_of net.now →
        IsIn m leading.nodes ↔ Leads net.now allowed.now.nodes (At m) (goal_of to)) }
{
    match to {
        Goal::Any => NodeSet::full(alloc, net.size()),
        Goal::Node(node) => {
            let back = net.back();
            search(alloc, back[node as usize].as_slice(), back, allowed)
        }
        Goal::End => search(alloc, net.before_ends(), net.back(), allowed),
    }
}

/// Whether the goal is the node.
pub(crate) fn arrives(net: &Net, to: Goal, node: u32) -> bool
    requires { node < size_of net.now }
    ensures { result ≡ arrives net.now (goal_of to) node }
{
    match to {
        Goal::Node(goal) => node == goal,
        Goal::End => net.is_end(node),
        Goal::Any => true,
    }
}

/// Whether a walk that comes to the node is at the goal, or may go on to it.
fn leads_on(net: &Net, node: u32, to: Goal, allowed: &NodeSet, leading: &NodeSet) -> bool
    requires { node < size_of net.now }
    ensures { IsTrue result ↔ LeadsOn net.now node allowed.now.nodes leading.now.nodes (goal_of to) }
{
    if arrives(net, to, node) {
        return true;
    }
    allowed.has(node) && leading.has(node)
}

/// Whether a walk that comes to one of the nodes is at the goal, or may go on to it.
fn one_leads(net: &Net, nodes: &[u32], to: Goal, allowed: &NodeSet, leading: &NodeSet) -> bool
    requires { (m : ℕ) → IsIn m nodes.now → m < size_of net.now }
    ensures { IsTrue result ↔ OneLeads net.now nodes.now allowed.now.nodes leading.now.nodes (goal_of to) }
{
    for node in nodes {
        if leads_on(net, *node, to, allowed, leading) {
            return true;
        }
    }
    false
}

/// Whether a walk of at least one edge leads there, all inner nodes of which are allowed, where walks lead there from these
/// nodes. Anywhere is always reached.
///
/// It takes no memory, and the time of the edges from the spot.
pub fn leads(net: &Net, from: Spot, to: Goal, allowed: &NodeSet, leading: &NodeSet) -> bool
    requires from { IsSpotBelow (size_of net.now) from }
    requires leading { (m : ℕ) → m < size_of net.now →
        IsIn m leading.now.nodes ↔ Leads net.now allowed.now.nodes (At m) (goal_of to) }
    ensures { IsTrue result ↔ Leads net.now allowed.now.nodes (spot_of from) (goal_of to) }
{
    match to {
        Goal::Any => true,
        Goal::Node(_) => one_leads(net, net.behind(from), to, allowed, leading),
        Goal::End => one_leads(net, net.behind(from), to, allowed, leading),
    }
}

/// Whether a walk of at least one edge leads there, all inner nodes of which are allowed. Anywhere is always reached.
///
/// It fails only for want of memory. It takes the time of one search back from the goal.
pub fn has_walk(
    alloc: Global,
    net: &Net,
    from: Spot,
    to: Goal,
    allowed: &NodeSet,
) -> Result<bool, NoMemory>
    requires made { allowed.now.size ≡ size_of net.now }
    requires from { IsSpotBelow (size_of net.now) from }
    requires to { IsGoalBelow (size_of net.now) to }
    ensures { IfOk result (λ leads. IsTrue leads ↔ Leads net.now allowed.now.nodes (spot_of from) (goal_of to)) }
{
    let leading = reach_back(alloc, net, to, allowed)?;
    let is_led = leads(net, from, to, allowed, &leading);
    Ok(is_led)
}
