//! Sets of node numbers below a size. The searches of hmsc_graph and term_step mark nodes in them.

ghost use Rattle.std.specs.Prelude.{◌≡◌, ◌<◌, ◌↔◌, ◌⊎◌, ℕ, IsTrue, IfOk};
ghost use Rattle.msc_base.specs.Lists.{IsIn};
ghost use Rattle.bit_sets.specs.NodeSets.{HasNoNodes, HasAllNodes};

use crate::words::{has_number, set_bit};
use msc_base::NoMemory;
use std::alloc::Global;
use std::marker::Model;

/// A set of node numbers, each below the size that the set was made for.
#[derive(Drop)]
pub struct NodeSet {
    size: u32,
    /// 64 numbers to a word, from its lowest bit on.
    words: Vec<u64>,
}

impl Model for NodeSet {
    ghost use Rattle.std.specs.Prelude.{◌≤◌, ◌*◌, length};
    ghost use Rattle.bit_sets.specs.NodeSets.{NodeSetValue, numbers_in};

    ghost Value = { NodeSetValue };

    ghost view = { λ s. record { size = s.size; nodes = numbers_in s.size s.words.items } };

    ghost invariant = { λ s. s.size ≤ 64 * length s.words.items };
}

impl NodeSet {
    /// The empty set of numbers below the size. It fails only for want of memory.
    pub fn empty(alloc: Global, size: u32) -> Result<NodeSet, NoMemory>
        ensures size { IfOk result (λ set. set.size ≡ size) }
        ensures empty { IfOk result (λ set. HasNoNodes set) }
    {
        let mut words = Vec::new(alloc);
        words.resize((size / 64) as usize + 1, 0)?;
        Ok(NodeSet { size, words })
    }

    /// The set of all numbers below the size. It fails only for want of memory.
    pub fn full(alloc: Global, size: u32) -> Result<NodeSet, NoMemory>
        ensures size { IfOk result (λ set. set.size ≡ size) }
        ensures full { IfOk result (λ set. HasAllNodes set) }
    {
        let mut set = NodeSet::empty(alloc, size)?;
        for node in 0..size {
            set.add(node);
        }
        Ok(set)
    }

    /// Adds the number of a node where it is new. It takes no memory.
    pub fn add(&mut self, node: u32)
        requires { node < self.old.size }
        ensures size { self.new.size ≡ self.old.size }
        ensures nodes { (n : ℕ) → IsIn n self.new.nodes ↔ (IsIn n self.old.nodes ⊎ (n ≡ node)) }
    {
        set_bit(&mut self.words, node);
    }

    /// Whether the number is in the set. It takes no memory.
    pub fn has(&self, node: u32) -> bool
        ensures has { IsTrue result ↔ IsIn node self.now.nodes }
        ensures below { IsTrue result → node < self.now.size }
    {
        node < self.size && has_number(self.words.as_slice(), node)
    }
}
