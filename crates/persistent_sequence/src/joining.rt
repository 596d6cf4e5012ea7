//! Two sequences joined to one, as a tree that stays balanced.

ghost use Rattle.std.specs.Prelude.{◌≡◌, ◌++◌, ◌<◌, length, IfOk, OnOk};

use crate::nodes::Look;
use crate::{Sequence, Summed};
use msc_base::NoMemory;
use std::alloc::Global;

impl<T: Summed> Sequence<T> {
    /// Both with a fork, or as one leaf where they are small.
    fn pair(
        alloc: Global,
        first: &Sequence<T>,
        second: &Sequence<T>,
    ) -> Result<Sequence<T>, NoMemory>
        requires first { 0 < length first.now }
        requires second { 0 < length second.now }
        ensures { IfOk result (λ whole. whole ≡ first.now ++ second.now) }
    {
        match Sequence::merged(alloc, first, second)? {
            Some(whole) => Ok(whole),
            None => Sequence::fork(alloc, first.copy()?, second.copy()?),
        }
    }

    /// Both, where the first is two levels higher than the second.
    fn lean_left(
        alloc: Global,
        first: &Sequence<T>,
        second: &Sequence<T>,
    ) -> Result<Sequence<T>, NoMemory>
        requires first { 0 < length first.now }
        requires second { 0 < length second.now }
        ensures { IfOk result (λ whole. whole ≡ first.now ++ second.now) }
    {
        match first.look() {
            Look::Leaf(_) => Sequence::pair(alloc, first, second),
            Look::Fork(outer, inner) => {
                if outer.height() >= inner.height() {
                    let right = Sequence::pair(alloc, inner, second)?;
                    Sequence::pair(alloc, outer, &right)
                } else {
                    Sequence::around(alloc, outer, inner, second)
                }
            }
        }
    }

    /// Both, where the second is two levels higher than the first.
    fn lean_right(
        alloc: Global,
        first: &Sequence<T>,
        second: &Sequence<T>,
    ) -> Result<Sequence<T>, NoMemory>
        requires first { 0 < length first.now }
        requires second { 0 < length second.now }
        ensures { IfOk result (λ whole. whole ≡ first.now ++ second.now) }
    {
        match second.look() {
            Look::Leaf(_) => Sequence::pair(alloc, first, second),
            Look::Fork(inner, outer) => {
                if outer.height() >= inner.height() {
                    let left = Sequence::pair(alloc, first, inner)?;
                    Sequence::pair(alloc, &left, outer)
                } else {
                    Sequence::around(alloc, first, inner, outer)
                }
            }
        }
    }

    /// The three, where the one in the middle is the highest.
    fn around(
        alloc: Global,
        first: &Sequence<T>,
        middle: &Sequence<T>,
        second: &Sequence<T>,
    ) -> Result<Sequence<T>, NoMemory>
        requires first { 0 < length first.now }
        requires middle { 0 < length middle.now }
        requires second { 0 < length second.now }
        ensures { IfOk result (λ whole. whole ≡ first.now ++ middle.now ++ second.now) }
    {
        match middle.look() {
            Look::Leaf(_) => {
                let left = Sequence::pair(alloc, first, middle)?;
                Sequence::pair(alloc, &left, second)
            }
            Look::Fork(before, behind) => {
                let left = Sequence::pair(alloc, first, before)?;
                let right = Sequence::pair(alloc, behind, second)?;
                Sequence::pair(alloc, &left, &right)
            }
        }
    }

    /// Both, where their heights differ by two levels at most.
    fn level(
        alloc: Global,
        first: &Sequence<T>,
        second: &Sequence<T>,
    ) -> Result<Sequence<T>, NoMemory>
        requires first { 0 < length first.now }
        requires second { 0 < length second.now }
        ensures { IfOk result (λ whole. whole ≡ first.now ++ second.now) }
    {
        if is_higher(first, second) {
            Sequence::lean_left(alloc, first, second)
        } else if is_higher(second, first) {
            Sequence::lean_right(alloc, first, second)
        } else {
            Sequence::pair(alloc, first, second)
        }
    }

    /// The items of the first, and then those of the second.
    pub fn concat(
        alloc: Global,
        first: &Sequence<T>,
        second: &Sequence<T>,
    ) -> Result<Sequence<T>, NoMemory>
        ensures { IfOk result (λ whole. whole ≡ first.now ++ second.now) }
    {
        if first.is_empty() {
            second.copy()
        } else if second.is_empty() {
            first.copy()
        } else {
            Sequence::concat_full(alloc, first, second)
        }
    }

    /// The items of the first, and then those of the second.
    #[tactic(auto, using(crate::proofs::Parts::parts))]
    fn concat_full(
        alloc: Global,
        first: &Sequence<T>,
        second: &Sequence<T>,
    ) -> Result<Sequence<T>, NoMemory>
        requires first { 0 < length first.now }
        requires second { 0 < length second.now }
        ensures { IfOk result (λ whole. whole ≡ first.now ++ second.now) }
    {
        if is_higher(first, second) {
            match first.look() {
                Look::Leaf(_) => Sequence::pair(alloc, first, second),
                Look::Fork(outer, inner) => {
                    let joined = Sequence::concat_full(alloc, inner, second)?;
                    Sequence::level(alloc, outer, &joined)
                }
            }
        } else if is_higher(second, first) {
            match second.look() {
                Look::Leaf(_) => Sequence::pair(alloc, first, second),
                Look::Fork(inner, outer) => {
                    let joined = Sequence::concat_full(alloc, first, inner)?;
                    Sequence::level(alloc, &joined, outer)
                }
            }
        } else {
            Sequence::pair(alloc, first, second)
        }
    }
}

/// Whether the first is two levels higher than the second, or more.
fn is_higher<T: Summed>(first: &Sequence<T>, second: &Sequence<T>) -> bool {
    first.height() > second.height().saturating_add(1)
}

/// Appends copies of the items.
pub(crate) fn push_copies<T: Summed>(
    alloc: Global,
    items: &[T],
    out: &mut Vec<T>,
) -> Result<(), NoMemory>
    ensures { OnOk result (out.new.items ≡ out.old.items ++ items.now) }
{
    for item in items {
        out.push(item.copy(alloc)?)?;
    }
    Ok(())
}
