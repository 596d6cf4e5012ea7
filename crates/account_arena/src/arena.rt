//! Accounts, each by a number: nodes that name nodes of smaller numbers.

ghost use Rattle.std.specs.Prelude.{◌≡◌, ◌<◌, ◌++◌, ◌∷◌, [], List, length, IfOk, OnErr};
ghost use Rattle.account_arena.specs.Arenas.{AreThere, account_at, accounts_at, account_in, is_nothing, row_at, Grows, IsOlder, IsRowThere};
ghost use Rattle.certificate_accounts.specs.Accounts.{Account, at_place, nothing, of_branch, of_parts, of_row};

use crate::numbers::{Number, RowItem, Visit};
use msc_base::NoMemory;
use persistent_sequence::Sequence;
use std::alloc::Global;
use std::marker::Model;

/// An account whose parts have numbers. A tie has the account of what is below it.
#[derive(Drop)]
pub enum Node {
    /// No event.
    Nothing,
    /// An event at this place of the log.
    AtPlace(u64),
    /// The parts of a join.
    OfParts(Sequence<Number>),
    /// The part of a choice with this index, from 0, and its account.
    OfBranch(u64, u32),
    /// The row of a loop.
    OfRow(Sequence<RowItem>),
    /// The nodes that a walk visits, and the one where it arrives.
    OfWalk(Sequence<Visit>, u32),
}

/// How many nodes there may be.
const NODES: usize = 4_000_000_000;

/// Accounts by numbers: a node names nodes of smaller numbers. A contract sees the list of accounts.
#[derive(Drop)]
pub struct Arena {
    nodes: Vec<Node>,
}

impl Model for Arena {
    ghost use Rattle.std.specs.Prelude.{List};
    ghost use Rattle.std.specs.Coded.{coded_list};
    ghost use Rattle.account_arena.specs.AccountCodes.{coded_account};
    ghost use Rattle.account_arena.specs.Arenas.{AreOlder, accounts_of};
    ghost use Rattle.certificate_accounts.specs.Accounts.{Account};

    ghost Value = { List Account };

    ghost coded = { coded_list coded_account };

    ghost view = { λ a. accounts_of a.nodes.items };

    ghost invariant = { λ a. AreOlder 0 a.nodes.items };
}

impl Arena {
    /// No accounts.
    pub fn new(alloc: Global) -> Arena
        ensures { result ≡ [] }
    {
        Arena {
            nodes: Vec::new(alloc),
        }
    }

    /// Adds a node, and gives its number.
    #[tactic(auto, using(crate::proofs::Adding::adding))]
    pub fn add(&mut self, node: Node) -> Result<u32, NoMemory>
        requires { IsOlder (length self.old) node }
        ensures number { IfOk result (λ number. number ≡ length self.old) }
        ensures ok { IfOk result (λ number. self.new ≡ self.old ++ account_in self.old node ∷ []) }
        ensures err { OnErr result (self.new ≡ self.old) }
    {
        let number = self.nodes.len();
        if number >= NODES {
            return Err(NoMemory);
        }
        self.nodes.push(node)?;
        Ok(number as u32)
    }

    /// Adds the account of an event at a place.
    #[tactic(auto, using(crate::proofs::Adding::adding))]
    pub fn add_place(&mut self, place: u64) -> Result<u32, NoMemory>
        ensures account { IfOk result (λ number. account_at self.new number ≡ at_place place) }
        ensures number { IfOk result (λ number. number < length self.new) }
        ensures grows { Grows self.old self.new }
    {
        let number = self.add(Node::AtPlace(place))?;
        Ok(number)
    }

    /// Adds the account of a choice's part, by its index.
    #[tactic(auto, using(crate::proofs::Adding::adding))]
    pub fn add_branch(&mut self, index: u64, part: u32) -> Result<u32, NoMemory>
        requires { part < length self.old }
        ensures account { IfOk result (λ number. account_at self.new number ≡ of_branch index (account_at self.old part)) }
        ensures number { IfOk result (λ number. number < length self.new) }
        ensures grows { Grows self.old self.new }
    {
        let number = self.add(Node::OfBranch(index, part))?;
        Ok(number)
    }

    /// Adds the account of a join, by those of its parts.
    #[tactic(auto, using(crate::proofs::Adding::adding))]
    pub fn add_parts(&mut self, parts: Sequence<Number>) -> Result<u32, NoMemory>
        requires { AreThere self.old parts }
        ensures account { IfOk result (λ number. account_at self.new number ≡ of_parts (accounts_at self.old parts)) }
        ensures number { IfOk result (λ number. number < length self.new) }
        ensures grows { Grows self.old self.new }
    {
        let number = self.add(Node::OfParts(parts))?;
        Ok(number)
    }

    /// Adds the account of a loop, by that of its row.
    #[tactic(auto, using(crate::proofs::Adding::adding))]
    pub fn add_row(&mut self, row: Sequence<RowItem>) -> Result<u32, NoMemory>
        requires { IsRowThere self.old row }
        ensures account { IfOk result (λ number. account_at self.new number ≡ of_row (row_at self.old row)) }
        ensures number { IfOk result (λ number. number < length self.new) }
        ensures grows { Grows self.old self.new }
    {
        let number = self.add(Node::OfRow(row))?;
        Ok(number)
    }

    /// Adds the account without events.
    #[tactic(auto, using(crate::proofs::Adding::adding))]
    pub fn add_nothing(&mut self) -> Result<u32, NoMemory>
        ensures account { IfOk result (λ number. account_at self.new number ≡ nothing) }
        ensures number { IfOk result (λ number. number < length self.new) }
        ensures grows { Grows self.old self.new }
    {
        let number = self.add(Node::Nothing)?;
        Ok(number)
    }

    /// The node of that number.
    #[tactic(auto, using(crate::proofs::Adding::looking))]
    pub fn node(&self, number: u32) -> &Node
        requires { number < length self.now }
        ensures account { account_at self.now number ≡ account_in self.now result.now }
        ensures older { IsOlder number result.now }
    {
        &self.nodes[number as usize]
    }

    /// Whether it is the account without events.
    #[tactic(auto, using(crate::proofs::Adding::testing))]
    pub fn is_nothing(&self, number: u32) -> bool
        requires { number < length self.now }
        ensures { result ≡ is_nothing (account_at self.now number) }
    {
        match self.node(number) {
            Node::Nothing => true,
            Node::AtPlace(_) => false,
            Node::OfParts(_) => false,
            Node::OfBranch(_, _) => false,
            Node::OfRow(_) => false,
            Node::OfWalk(_, _) => false,
        }
    }
}
