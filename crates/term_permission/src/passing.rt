//! Which nodes of a net a walk reaches and can pass, and whether one of them leaves something: for `asking`.

ghost use Rattle.std.specs.Prelude.{◌≡◌, ◌<◌, ◌⊎◌, ◌↔◌, [], ℕ, IfOk, OnOk, IsTrue, true, false};
ghost use Rattle.hmsc_graph.specs.Graphs.{Any, At, behind};
ghost use Rattle.msc_base.specs.Lists.{IsIn};
ghost use Rattle.hmsc_graph.specs.Nets.{size_of};
ghost use Rattle.hmsc_graph.specs.Searches.{HasEntered};
ghost use Rattle.hmsc_graph.specs.Spots.{goal_of};
ghost use Rattle.bit_sets.specs.NodeSets.{HasNoNodes};
ghost use Rattle.term_permission.specs.Fresh.{IsAimed};
ghost use Rattle.term_permission.specs.Passing.{HasVisited, HaveCommon};

use crate::remnant::Remnant;
use bit_sets::NodeSet;
use hmsc_graph::{Goal, Net, Traversal};
use msc_base::{NoMemory, NumberList};
use std::alloc::Global;

/// Whether the walk is to lead to a node or to an end.
pub(crate) fn is_aimed(to: Goal) -> bool
    ensures aimed { result ≡ true → IsAimed (goal_of to) }
    ensures under_way { result ≡ false → goal_of to ≡ Any }
{
    match to {
        Goal::Node(_) => true,
        Goal::End => true,
        Goal::Any => false,
    }
}

/// Which of the nodes that a walk reaches it can pass.
#[derive(Drop)]
pub(crate) struct Passable {
    /// The nodes whose terms permission doesn't fail for.
    pub(crate) passed: NodeSet,
    /// Those of them that leave more than the empty pattern.
    pub(crate) full: NumberList,
}

impl Passable {
    /// No node, of so many. It fails only for want of memory.
    pub(crate) fn none(alloc: Global, size: u32) -> Result<Passable, NoMemory>
        ensures size { IfOk result (λ nodes. nodes.passed.size ≡ size) }
        ensures passed { IfOk result (λ nodes. HasNoNodes nodes.passed) }
        ensures full { IfOk result (λ nodes. nodes.full ≡ []) }
    {
        let passed = NodeSet::empty(alloc, size)?;
        let full = NumberList::new(alloc);
        Ok(Passable { passed, full })
    }
}

/// Passes the node: it can be passed, and the search goes on behind it.
fn pass(
    search: &mut Traversal,
    nodes: &mut Passable,
    graph: &Net,
    node: u32,
) -> Result<(), NoMemory>
    requires search { search.old.reached.size ≡ size_of graph.now }
    requires nodes { nodes.old.passed.size ≡ size_of graph.now }
    requires node { node < size_of graph.now }
    ensures size { nodes.new.passed.size ≡ nodes.old.passed.size }
    ensures passed { (n : ℕ) → IsIn n nodes.new.passed.nodes ↔ (IsIn n nodes.old.passed.nodes ⊎ (n ≡ node)) }
    ensures full { nodes.new.full ≡ nodes.old.full }
    ensures entered { OnOk result (HasEntered (behind graph.now (At node)) search.old.reached search.old.waiting.items search.new.reached search.new.waiting.items) }
{
    nodes.passed.add(node);
    search.pass(graph, node)
}

/// Looks at a node that is reached, where permission leaves this of its term.
pub(crate) fn visit(
    search: &mut Traversal,
    nodes: &mut Passable,
    graph: &Net,
    node: u32,
    left: Remnant,
) -> Result<(), NoMemory>
    requires search { search.old.reached.size ≡ size_of graph.now }
    requires nodes { nodes.old.passed.size ≡ size_of graph.now }
    requires node { node < size_of graph.now }
    ensures { OnOk result (HasVisited graph.now node left search.old nodes.old search.new nodes.new) }
{
    match left {
        Remnant::Fails => Ok(()),
        Remnant::Empty => pass(search, nodes, graph, node),
        Remnant::More => {
            nodes.full.push(node)?;
            pass(search, nodes, graph, node)
        }
    }
}

/// Whether the set has one of the nodes. It takes no memory.
pub(crate) fn has_one_of(set: &NodeSet, nodes: &[u32]) -> bool
    ensures { IsTrue result ↔ HaveCommon nodes.now set.now.nodes }
{
    for node in nodes {
        if set.has(*node) {
            return true;
        }
    }
    false
}
