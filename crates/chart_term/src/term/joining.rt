//! Two lists of parts joined to one, as a tree that stays balanced.

ghost use Rattle.std.specs.Prelude.{◌≡◌, ◌++◌, ◌<◌, length, IfOk};

use super::PartList;
use crate::PartLook;
use msc_base::NoMemory;
use std::alloc::Global;

impl PartList {
    /// Both with a fork, or as one leaf where they are small.
    fn pair(alloc: Global, first: &PartList, second: &PartList) -> Result<PartList, NoMemory>
        requires first { 0 < length first.now }
        requires second { 0 < length second.now }
        ensures { IfOk result (λ list. list ≡ first.now ++ second.now) }
    {
        match PartList::merged(alloc, first, second)? {
            Some(whole) => Ok(whole),
            None => PartList::fork(alloc, first.copy(alloc)?, second.copy(alloc)?),
        }
    }

    /// Both, where the first is two levels higher than the second.
    fn lean_left(alloc: Global, first: &PartList, second: &PartList) -> Result<PartList, NoMemory>
        requires first { 0 < length first.now }
        requires second { 0 < length second.now }
        ensures { IfOk result (λ list. list ≡ first.now ++ second.now) }
    {
        match first.look() {
            PartLook::Leaf(_) => PartList::pair(alloc, first, second),
            PartLook::Fork(outer, inner) => {
                if outer.height() >= inner.height() {
                    let right = PartList::pair(alloc, inner, second)?;
                    PartList::pair(alloc, outer, &right)
                } else {
                    PartList::around(alloc, outer, inner, second)
                }
            }
        }
    }

    /// Both, where the second is two levels higher than the first.
    fn lean_right(alloc: Global, first: &PartList, second: &PartList) -> Result<PartList, NoMemory>
        requires first { 0 < length first.now }
        requires second { 0 < length second.now }
        ensures { IfOk result (λ list. list ≡ first.now ++ second.now) }
    {
        match second.look() {
            PartLook::Leaf(_) => PartList::pair(alloc, first, second),
            PartLook::Fork(inner, outer) => {
                if outer.height() >= inner.height() {
                    let left = PartList::pair(alloc, first, inner)?;
                    PartList::pair(alloc, &left, outer)
                } else {
                    PartList::around(alloc, first, inner, outer)
                }
            }
        }
    }

    /// The three, where the one in the middle is the highest.
    fn around(
        alloc: Global,
        first: &PartList,
        middle: &PartList,
        second: &PartList,
    ) -> Result<PartList, NoMemory>
        requires first { 0 < length first.now }
        requires middle { 0 < length middle.now }
        requires second { 0 < length second.now }
        ensures { IfOk result (λ list. list ≡ first.now ++ middle.now ++ second.now) }
    {
        match middle.look() {
            PartLook::Leaf(_) => {
                let left = PartList::pair(alloc, first, middle)?;
                PartList::pair(alloc, &left, second)
            }
            PartLook::Fork(before, behind) => {
                let left = PartList::pair(alloc, first, before)?;
                let right = PartList::pair(alloc, behind, second)?;
                PartList::pair(alloc, &left, &right)
            }
        }
    }

    /// Both, where their heights differ by two levels at most.
    fn level(alloc: Global, first: &PartList, second: &PartList) -> Result<PartList, NoMemory>
        requires first { 0 < length first.now }
        requires second { 0 < length second.now }
        ensures { IfOk result (λ list. list ≡ first.now ++ second.now) }
    {
        if is_higher(first, second) {
            PartList::lean_left(alloc, first, second)
        } else if is_higher(second, first) {
            PartList::lean_right(alloc, first, second)
        } else {
            PartList::pair(alloc, first, second)
        }
    }

    /// The parts of the first, and then those of the second.
    pub fn concat(alloc: Global, first: &PartList, second: &PartList) -> Result<PartList, NoMemory>
        ensures { IfOk result (λ list. list ≡ first.now ++ second.now) }
    {
        if first.is_empty() {
            second.copy(alloc)
        } else if second.is_empty() {
            first.copy(alloc)
        } else {
            PartList::concat_full(alloc, first, second)
        }
    }

    /// The parts of the first, and then those of the second.
    #[tactic(auto, using(persistent_sequence::proofs::Parts::parts))]
    fn concat_full(alloc: Global, first: &PartList, second: &PartList) -> Result<PartList, NoMemory>
        requires first { 0 < length first.now }
        requires second { 0 < length second.now }
        ensures { IfOk result (λ list. list ≡ first.now ++ second.now) }
    {
        if is_higher(first, second) {
            match first.look() {
                PartLook::Leaf(_) => PartList::pair(alloc, first, second),
                PartLook::Fork(outer, inner) => {
                    let joined = PartList::concat_full(alloc, inner, second)?;
                    PartList::level(alloc, outer, &joined)
                }
            }
        } else if is_higher(second, first) {
            match second.look() {
                PartLook::Leaf(_) => PartList::pair(alloc, first, second),
                PartLook::Fork(inner, outer) => {
                    let joined = PartList::concat_full(alloc, first, inner)?;
                    PartList::level(alloc, &joined, outer)
                }
            }
        } else {
            PartList::pair(alloc, first, second)
        }
    }
}

/// Whether the first is two levels higher than the second, or more.
fn is_higher(first: &PartList, second: &PartList) -> bool {
    first.height() > second.height().saturating_add(1)
}
