//! What nodes hold in sequences: numbers of accounts, items of rows, visits of walks.

ghost use Rattle.std.specs.Prelude.{◌≡◌, List, ℕ, IfOk, replicate};

use msc_base::NoMemory;
use persistent_sequence::{Sequence, Summed};
use std::alloc::Global;
use std::marker::Model;

/// The number of an account.
#[derive(Drop)]
pub struct Number {
    number: u32,
}

impl Model for Number {
    ghost use Rattle.std.specs.Prelude.{ℕ};

    ghost Value = { ℕ };

    ghost view = { λ n. n.number };
}

impl Number {
    /// It as an item of a sequence.
    pub fn of(number: u32) -> Number
        ensures { result ≡ number }
    {
        Number { number }
    }

    /// The number itself.
    pub fn get(&self) -> u32
        ensures { result ≡ self.now }
    {
        self.number
    }
}

/// The account of a part of a loop's row.
#[derive(Drop)]
pub enum RowItem {
    /// The turns in a gap.
    Gap(Sequence<Number>),
    /// A begun turn.
    Turn(u32),
}

/// A node of a graph that a walk visits, and the account of its term.
#[derive(Drop)]
pub struct Visit {
    /// The node.
    pub node: u32,
    /// The number of the account.
    pub account: u32,
}

/// Nothing is stored of the items of such a sequence.
#[derive(Drop)]
pub struct NoFacts {}

impl Summed for Number {
    type Facts = NoFacts;

    ghost use Rattle.account_arena.specs.Unstored.{IsUnstored};

    ghost describes = { IsUnstored };

    fn copy(&self, alloc: Global) -> Result<Number, NoMemory> {
        let _ = alloc;
        Ok(Number::of(self.get()))
    }

    fn none(alloc: Global) -> NoFacts {
        let _ = alloc;
        NoFacts {}
    }

    fn add(&self, facts: &mut NoFacts) -> Result<(), NoMemory> {
        let _ = facts;
        Ok(())
    }

    fn join(alloc: Global, first: &NoFacts, second: &NoFacts) -> Result<NoFacts, NoMemory> {
        let _ = alloc;
        let _ = first;
        let _ = second;
        Ok(NoFacts {})
    }
}

impl Summed for RowItem {
    type Facts = NoFacts;

    ghost use Rattle.account_arena.specs.Unstored.{IsUnstored};

    ghost describes = { IsUnstored };

    fn copy(&self, alloc: Global) -> Result<RowItem, NoMemory> {
        let _ = alloc;
        match self {
            RowItem::Gap(turns) => Ok(RowItem::Gap(turns.copy()?)),
            RowItem::Turn(turn) => Ok(RowItem::Turn(*turn)),
        }
    }

    fn none(alloc: Global) -> NoFacts {
        let _ = alloc;
        NoFacts {}
    }

    fn add(&self, facts: &mut NoFacts) -> Result<(), NoMemory> {
        let _ = facts;
        Ok(())
    }

    fn join(alloc: Global, first: &NoFacts, second: &NoFacts) -> Result<NoFacts, NoMemory> {
        let _ = alloc;
        let _ = first;
        let _ = second;
        Ok(NoFacts {})
    }
}

impl Summed for Visit {
    type Facts = NoFacts;

    ghost use Rattle.account_arena.specs.Unstored.{IsUnstored};

    ghost describes = { IsUnstored };

    fn copy(&self, alloc: Global) -> Result<Visit, NoMemory> {
        let _ = alloc;
        Ok(Visit {
            node: self.node,
            account: self.account,
        })
    }

    fn none(alloc: Global) -> NoFacts {
        let _ = alloc;
        NoFacts {}
    }

    fn add(&self, facts: &mut NoFacts) -> Result<(), NoMemory> {
        let _ = facts;
        Ok(())
    }

    fn join(alloc: Global, first: &NoFacts, second: &NoFacts) -> Result<NoFacts, NoMemory> {
        let _ = alloc;
        let _ = first;
        let _ = second;
        Ok(NoFacts {})
    }
}

/// The number, so often.
#[tactic(auto, using(crate::proofs::Cutting::repeating))]
pub(crate) fn repeated(
    alloc: Global,
    number: u32,
    count: usize,
) -> Result<Sequence<Number>, NoMemory>
    ensures { IfOk result (λ numbers. numbers ≡ replicate count number) }
{
    let mut numbers = Vec::new(alloc);
    for _index in 0..count {
        numbers.push(Number::of(number))?;
    }
    Sequence::from_vec(alloc, numbers)
}
