//! Sequences from items, and sequences with a change at an index.

ghost use Rattle.std.specs.Prelude.{◌≡◌, ◌+◌, ◌++◌, ◌∷◌, ◌<◌, ◌≤◌, List, length, take, drop, IfOk, Some, None};
ghost use Rattle.std.specs.Option.{option_to_list};

use crate::joining::push_copies;
use crate::nodes::{LEAF, Look};
use crate::{Sequence, Summed};
use msc_base::NoMemory;
use std::alloc::Global;

impl<T: Summed> Sequence<T> {
    /// The items as a balanced tree.
    pub fn from_vec(alloc: Global, items: Vec<T>) -> Result<Sequence<T>, NoMemory>
        ensures { IfOk result (λ whole. whole ≡ items.items) }
    {
        let count = items.len();
        if count <= LEAF {
            Sequence::leaf(alloc, items)
        } else {
            let mut front = items;
            let back = front.split_off(count / 2)?;
            let first = Sequence::from_vec(alloc, front)?;
            let second = Sequence::from_vec(alloc, back)?;
            Sequence::concat(alloc, &first, &second)
        }
    }

    /// The items, of which there may be one more than a leaf holds.
    fn leaves(alloc: Global, items: Vec<T>) -> Result<Sequence<T>, NoMemory>
        ensures { IfOk result (λ whole. whole ≡ items.items) }
    {
        let count = items.len();
        if count <= LEAF {
            Sequence::leaf(alloc, items)
        } else {
            let mut front = items;
            let back = front.split_off(count / 2)?;
            let first = Sequence::leaf(alloc, front)?;
            let second = Sequence::leaf(alloc, back)?;
            Sequence::concat(alloc, &first, &second)
        }
    }

    /// The sequence with the item in place of that many items at the index.
    #[tactic(auto, using(crate::proofs::Splices::splices))]
    fn splice(
        &self,
        alloc: Global,
        index: usize,
        skip: usize,
        item: Option<T>,
    ) -> Result<Sequence<T>, NoMemory>
        requires skip { skip ≤ 1 }
        requires index { index + skip ≤ length self.now }
        ensures { IfOk result (λ whole. whole ≡ take index self.now ++ option_to_list item ++ drop (index + skip) self.now) }
    {
        let _ = self.len();
        match self.look() {
            Look::Leaf(items) => {
                let mut changed = Vec::with_capacity(alloc, LEAF)?;
                push_copies(alloc, &items[..index], &mut changed)?;
                if let Some(item) = item {
                    changed.push(item)?;
                }
                push_copies(alloc, &items[index + skip..], &mut changed)?;
                Sequence::leaves(alloc, changed)
            }
            Look::Fork(first, second) => {
                let count = first.len();
                if index + skip <= count {
                    let changed = first.splice(alloc, index, skip, item)?;
                    Sequence::concat(alloc, &changed, second)
                } else {
                    let changed = second.splice(alloc, index - count, skip, item)?;
                    Sequence::concat(alloc, first, &changed)
                }
            }
        }
    }

    /// The sequence with the item in place of the one at the index.
    pub fn replace(&self, alloc: Global, index: usize, item: T) -> Result<Sequence<T>, NoMemory>
        requires { index < length self.now }
        ensures { IfOk result (λ whole. whole ≡ take index self.now ++ item ∷ drop (index + 1) self.now) }
    {
        self.splice(alloc, index, 1, Some(item))
    }

    /// The sequence without the item at the index.
    pub fn remove(&self, alloc: Global, index: usize) -> Result<Sequence<T>, NoMemory>
        requires { index < length self.now }
        ensures { IfOk result (λ whole. whole ≡ take index self.now ++ drop (index + 1) self.now) }
    {
        self.splice(alloc, index, 1, None)
    }

    /// The items before the index, and those from the index on.
    #[tactic(auto, using(crate::proofs::Splices::splices))]
    pub fn split_at(
        &self,
        alloc: Global,
        index: usize,
    ) -> Result<(Sequence<T>, Sequence<T>), NoMemory>
        requires { index ≤ length self.now }
        ensures { IfOk result (λ parts. (parts.0 ≡ take index self.now) × (parts.1 ≡ drop index self.now)) }
    {
        match self.look() {
            Look::Leaf(items) => {
                let mut front = Vec::with_capacity(alloc, LEAF)?;
                push_copies(alloc, &items[..index], &mut front)?;
                let mut back = Vec::with_capacity(alloc, LEAF)?;
                push_copies(alloc, &items[index..], &mut back)?;
                Ok((Sequence::leaf(alloc, front)?, Sequence::leaf(alloc, back)?))
            }
            Look::Fork(first, second) => {
                let count = first.len();
                if index <= count {
                    let (front, back) = first.split_at(alloc, index)?;
                    Ok((front, Sequence::concat(alloc, &back, second)?))
                } else {
                    let (front, back) = second.split_at(alloc, index - count)?;
                    Ok((Sequence::concat(alloc, first, &front)?, back))
                }
            }
        }
    }
}
