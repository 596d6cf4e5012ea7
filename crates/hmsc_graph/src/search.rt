//! A search over edges: for `walks` and `ending`, and for term_step, which says of each node that is met whether walks
//! may pass it.

ghost use Rattle.std.specs.Prelude.{◌≡◌, ◌≤◌, ◌<◌, ◌↔◌, ◌∷◌, ◌++◌, [], None, ℕ, List, length, IfOk, OnOk, IfSome};
ghost use Rattle.hmsc_graph.specs.Reversals.{way_of};
ghost use Rattle.hmsc_graph.specs.Graphs.{Net as GraphValue, Spot as SpotValue, At, Start, To, WalkThrough, behind};
ghost use Rattle.msc_base.specs.Lists.{IsIn};
ghost use Rattle.hmsc_graph.specs.Nets.{IsNet, size_of};
ghost use Rattle.hmsc_graph.specs.Searches.{HasEntered, IsSearch};
ghost use Rattle.hmsc_graph.specs.Spots.{spot_of, IsSpotBelow};

use crate::{Net, Spot};
use bit_sets::NodeSet;
use msc_base::{NoMemory, NumberList};
use std::alloc::Global;

/// A search as far as it has come: the nodes that walks reach, and those of them that wait to be looked at.
///
/// `next` hands out each node that is reached, once. A node that walks may pass is handed on to `pass`.
#[derive(Drop)]
pub struct Traversal {
    /// The nodes that are reached.
    pub reached: NodeSet,
    /// Those that `next` hasn't handed out.
    pub waiting: Vec<u32>,
}

/// Adds the nodes to those that are reached. The new ones wait.
fn enter(reached: &mut NodeSet, waiting: &mut Vec<u32>, nodes: &[u32]) -> Result<(), NoMemory>
    requires { (m : ℕ) → IsIn m nodes.now → m < reached.old.size }
    ensures { OnOk result (HasEntered nodes.now reached.old waiting.old.items reached.new waiting.new.items) }
{
    for node in nodes {
        if !reached.has(*node) {
            reached.add(*node);
            waiting.push(*node)?;
        }
    }
    Ok(())
}

impl Traversal {
    /// A search that begins with these nodes, of so many.
    fn of(alloc: Global, firsts: &[u32], size: u32) -> Result<Traversal, NoMemory>
        requires { (m : ℕ) → IsIn m firsts.now → m < size }
        ensures size { IfOk result (λ search. search.reached.size ≡ size) }
        ensures search { IfOk result (λ search. (g : GraphValue) (allowed : List ℕ) (from : SpotValue) →
            behind g from ≡ firsts.now → IsSearch g allowed from search.reached.nodes search.waiting.items) }
        ensures waiting { IfOk result (λ search. (m : ℕ) → IsIn m search.reached.nodes → IsIn m search.waiting.items) }
    {
        let mut reached = NodeSet::empty(alloc, size)?;
        let mut waiting = Vec::new(alloc);
        enter(&mut reached, &mut waiting, firsts)?;
        Ok(Traversal { reached, waiting })
    }

    /// A search for the nodes to which walks lead from there.
    ///
    /// It fails only for want of memory.
    pub fn from(alloc: Global, net: &Net, from: Spot) -> Result<Traversal, NoMemory>
        requires { IsSpotBelow (size_of net.now) from }
        ensures size { IfOk result (λ search. search.reached.size ≡ size_of net.now) }
        ensures search { IfOk result (λ search. (allowed : List ℕ) →
            IsSearch net.now allowed (spot_of from) search.reached.nodes search.waiting.items) }
        ensures waiting { IfOk result (λ search. (m : ℕ) → IsIn m search.reached.nodes → IsIn m search.waiting.items) }
    {
        let firsts = net.behind(from);
        let search = Traversal::of(alloc, firsts, net.size())?;
        Ok(search)
    }

    /// A node that is reached and hasn't been handed out, if there is one. It takes no memory.
    pub fn next(&mut self) -> Option<u32>
        ensures reached { self.new.reached ≡ self.old.reached }
        ensures node { IfSome result (λ node. self.old.waiting.items ≡ self.new.waiting.items ++ node ∷ []) }
        ensures none { result ≡ None → self.old.waiting.items ≡ [] }
    {
        self.waiting.pop()
    }

    /// Goes on to these nodes.
    fn go_on(&mut self, nodes: &[u32]) -> Result<(), NoMemory>
        requires { (m : ℕ) → IsIn m nodes.now → m < self.old.reached.size }
        ensures { OnOk result (HasEntered nodes.now self.old.reached self.old.waiting.items self.new.reached self.new.waiting.items) }
    {
        enter(&mut self.reached, &mut self.waiting, nodes)
    }

    /// Passes the node: the search goes on behind it.
    ///
    /// It fails only for want of memory.
    pub fn pass(&mut self, net: &Net, node: u32) -> Result<(), NoMemory>
        requires made { self.old.reached.size ≡ size_of net.now }
        requires node { node < size_of net.now }
        ensures entered { OnOk result (HasEntered (behind net.now (At node)) self.old.reached self.old.waiting.items self.new.reached self.new.waiting.items) }
    {
        self.go_on(net.behind(Spot::Node(node)))
    }
}

/// The nodes to which walks lead that begin with one of the first nodes and go on over these edges, all inner nodes of
/// which are allowed.
///
/// It fails only for want of memory. It takes the time of the nodes and edges that it meets, each of them once.
pub(crate) fn search(
    alloc: Global,
    firsts: &[u32],
    next: &[NumberList],
    allowed: &NodeSet,
) -> Result<NodeSet, NoMemory>
    requires made { allowed.now.size ≡ length next.now }
    requires net { IsNet (way_of firsts.now next.now) }
    ensures size { IfOk result (λ reached. reached.size ≡ length next.now) }
    ensures nodes { IfOk result (λ reached. (m : ℕ) →
        IsIn m reached.nodes ↔ WalkThrough (way_of firsts.now next.now) allowed.now.nodes Start (To m)) }
{
    let mut search = Traversal::of(alloc, firsts, next.len() as u32)?;
    while let Some(node) = search.next() {
        if allowed.has(node) {
            search.go_on(next[node as usize].as_slice())?;
        }
    }
    Ok(search.reached)
}
