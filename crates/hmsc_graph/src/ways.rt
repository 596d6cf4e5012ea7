//! A way through allowed nodes, by a search that keeps how it came to each node. No crate calls it yet.

ghost use Rattle.std.specs.Prelude.{◌≡◌, ◌<◌, ◌≤◌, ◌+◌, ℕ, List, Some, length, reverse, slice_get, true, false, IfOk, OnOk, IfSome, IfNone};
ghost use Rattle.hmsc_graph.specs.Graphs.{Net as GraphValue, Spot as SpotValue, Goal as GoalValue, At, To, WalkThrough, arrives, behind};
ghost use Rattle.hmsc_graph.specs.Nets.{size_of};
ghost use Rattle.hmsc_graph.specs.Searches.{missing};
ghost use Rattle.hmsc_graph.specs.Spots.{spot_of, goal_of, IsSpotBelow};
ghost use Rattle.hmsc_graph.specs.Steps.{AreBack, AreSteps, HaveMet, IsSearched, nodes_of};
ghost use Rattle.hmsc_graph.specs.Ways.{IsWay};
ghost use Rattle.hmsc_graph.specs.declared.ways.Step.{Step as StepValue};
ghost use Rattle.msc_base.specs.Lists.{IsIn};

use crate::walks::arrives;
use crate::{Goal, Net, Spot};
use bit_sets::NodeSet;
use msc_base::{Items, NoMemory};
use std::alloc::Global;

/// A node that a search came to.
#[derive(Clone, Copy)]
pub(crate) struct Step {
    node: u32,
    /// The index of the step to the node before it; none where the search began behind the spot.
    before: Option<usize>,
}

/// Steps in the order in which a search took them.
type Steps = Items<Step>;

/// Takes a step to each of the nodes that wasn't met.
fn meet(
    met: &mut NodeSet,
    steps: &mut Steps,
    nodes: &[u32],
    before: Option<usize>,
) -> Result<(), NoMemory>
    requires { (m : ℕ) → IsIn m nodes.now → m < met.old.size }
    ensures { OnOk result (HaveMet nodes.now before met.old steps.old met.new steps.new) }
{
    for node in nodes {
        if !met.has(*node) {
            met.add(*node);
            steps.push(Step {
                node: *node,
                before,
            })?;
        }
    }
    Ok(())
}

/// Goes on behind the node of the step at that index, if walks may pass it.
fn go_on(
    net: &Net,
    allowed: &NodeSet,
    met: &mut NodeSet,
    steps: &mut Steps,
    index: usize,
) -> Result<(), NoMemory>
    requires made { met.old.size ≡ size_of net.now }
    requires index { index < length steps.old }
    requires below { (m : ℕ) → IsIn m (nodes_of steps.old) → m < size_of net.now }
    ensures on { OnOk result ((from : SpotValue) → IsSearched net.now allowed.now.nodes from met.old steps.old index
        → IsSearched net.now allowed.now.nodes from met.new steps.new (index + 1)) }
    ensures work { OnOk result (missing met.new.nodes met.new.size + length steps.new ≤ missing met.old.nodes met.old.size + length steps.old) }
{
    let node = steps.at(index).node;
    if allowed.has(node) {
        return meet(met, steps, net.behind(Spot::Node(node)), Some(index));
    }
    Ok(())
}

/// The steps to all nodes to which walks lead from there, all inner nodes of which are allowed.
fn steps_from(alloc: Global, net: &Net, from: Spot, allowed: &NodeSet) -> Result<Steps, NoMemory>
    requires { IsSpotBelow (size_of net.now) from }
    ensures steps { IfOk result (λ steps. AreSteps net.now allowed.now.nodes (spot_of from) steps) }
    ensures back { IfOk result (λ steps. AreBack steps) }
    ensures below { IfOk result (λ steps. (m : ℕ) → IsIn m (nodes_of steps) → m < size_of net.now) }
    ensures all { IfOk result (λ steps. (m : ℕ) → WalkThrough net.now allowed.now.nodes (spot_of from) (To m) → IsIn m (nodes_of steps)) }
{
    let mut met = NodeSet::empty(alloc, net.size())?;
    let mut steps = Steps::new(alloc);
    meet(&mut met, &mut steps, net.behind(from), None)?;
    let mut index = 0;
    while index < steps.len() {
        go_on(net, allowed, &mut met, &mut steps, index)?;
        index += 1;
    }
    Ok(steps)
}

/// The index of the first step that comes to the goal.
fn first_at(net: &Net, to: Goal, steps: &Steps) -> Option<usize>
    requires { (m : ℕ) → IsIn m (nodes_of steps.now) → m < size_of net.now }
    ensures some { IfSome result (λ index. (step : StepValue) × (slice_get steps.now index ≡ Some step) × (arrives net.now (goal_of to) step.node ≡ true)) }
    ensures none { IfNone result ((m : ℕ) → IsIn m (nodes_of steps.now) → arrives net.now (goal_of to) m ≡ false) }
{
    for index in 0..steps.len() {
        if arrives(net, to, steps.at(index).node) {
            return Some(index);
        }
    }
    None
}

/// The nodes on the way to the step at that index, back from it to the first step and turned round.
fn way_to(alloc: Global, steps: &Steps, index: usize) -> Result<Vec<u32>, NoMemory>
    requires index { index < length steps.now }
    requires back { AreBack steps.now }
    ensures { IfOk result (λ way. (g : GraphValue) (allowed : List ℕ) (from : SpotValue) (to : GoalValue) (step : StepValue) → AreSteps g allowed from steps.now
        → slice_get steps.now index ≡ Some step → arrives g to step.node ≡ true → IsWay g allowed from to way.items) }
{
    let mut way = Vec::new(alloc);
    let mut at = Some(index);
    while let Some(index) = at {
        let step = *steps.at(index);
        way.push(step.node)?;
        at = step.before;
    }
    way.reverse();
    Ok(way)
}

/// The nodes of a walk of at least one edge from there to the goal, in their order, if there is one all inner nodes of which
/// are allowed. The last node is at the goal; anywhere is reached at the first node.
///
/// It fails only for want of memory. It takes the time of the nodes and edges that walks from there meet, each of them once.
pub fn way_through(
    alloc: Global,
    net: &Net,
    from: Spot,
    to: Goal,
    allowed: &NodeSet,
) -> Result<Option<Vec<u32>>, NoMemory>
    requires { IsSpotBelow (size_of net.now) from }
    ensures way { IfOk result (λ found. IfSome found (λ way. IsWay net.now allowed.now.nodes (spot_of from) (goal_of to) way.items)) }
    ensures none { IfOk result (λ found. IfNone found (WalkThrough net.now allowed.now.nodes (spot_of from) (goal_of to) → ⊥)) }
{
    let steps = steps_from(alloc, net, from, allowed)?;
    match first_at(net, to, &steps) {
        Some(index) => {
            let way = way_to(alloc, &steps, index)?;
            Ok(Some(way))
        }
        None => Ok(None),
    }
}
