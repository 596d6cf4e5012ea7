//! The accounts of the parts of a join, by number: as many as are wanted.

ghost use Rattle.std.specs.Prelude.{◌≡◌, ◌<◌, length, IfOk};
ghost use Rattle.account_arena.specs.Arenas.{account_at, accounts_at, accounts_in, AreThere, Grows, first_accounts, later_accounts};

use crate::arena::{Arena, Node};
use crate::numbers::{Number, repeated};
use msc_base::NoMemory;
use persistent_sequence::Sequence;
use std::alloc::Global;

/// Numbers, cut in two.
#[derive(Drop)]
pub struct Cut {
    /// The first of them, as many as were wanted.
    pub front: Sequence<Number>,
    /// The others.
    pub rest: Sequence<Number>,
}

impl Arena {
    /// The first numbers, as many as are wanted, and the others. Where there are too few, further ones stand for accounts without
    /// events.
    #[tactic(auto, using(crate::proofs::Cutting::cutting))]
    pub fn cut(
        &mut self,
        alloc: Global,
        numbers: &Sequence<Number>,
        count: usize,
    ) -> Result<Cut, NoMemory>
        requires { AreThere self.old numbers.now }
        ensures front { IfOk result (λ cut. accounts_at self.new cut.front ≡ first_accounts count (accounts_at self.old numbers.now)) }
        ensures front_there { IfOk result (λ cut. AreThere self.new cut.front) }
        ensures rest { IfOk result (λ cut. accounts_at self.new cut.rest ≡ later_accounts count (accounts_at self.old numbers.now)) }
        ensures rest_there { IfOk result (λ cut. AreThere self.new cut.rest) }
        ensures grows { Grows self.old self.new }
    {
        let held = numbers.len();
        if count <= held {
            let (front, rest) = numbers.split_at(alloc, count)?;
            return Ok(Cut { front, rest });
        }
        let none = self.add_nothing()?;
        let others = repeated(alloc, none, count - held)?;
        let front = Sequence::concat(alloc, numbers, &others)?;
        let rest = Sequence::empty(alloc)?;
        Ok(Cut { front, rest })
    }

    /// The numbers of the parts of a join that has this account and so many parts: one part is the join itself, and none where it has
    /// no event.
    #[tactic(auto, using(crate::proofs::Cutting::cutting))]
    pub fn parts(
        &self,
        alloc: Global,
        account: u32,
        count: usize,
    ) -> Result<Sequence<Number>, NoMemory>
        requires { account < length self.now }
        ensures accounts { IfOk result (λ parts. accounts_at self.now parts ≡ accounts_in count (account_at self.now account)) }
        ensures there { IfOk result (λ parts. AreThere self.now parts) }
    {
        if count == 0 {
            return Sequence::empty(alloc);
        }
        if count == 1 {
            return repeated(alloc, account, 1);
        }
        match self.node(account) {
            Node::OfParts(parts) => parts.copy(),
            Node::Nothing => Sequence::empty(alloc),
            Node::AtPlace(_) => Sequence::empty(alloc),
            Node::OfBranch(_, _) => Sequence::empty(alloc),
            Node::OfRow(_) => Sequence::empty(alloc),
            Node::OfWalk(_, _) => Sequence::empty(alloc),
        }
    }
}
