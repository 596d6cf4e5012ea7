//! Lists of parts from their parts, and the front and the rest of a list.

ghost use Rattle.std.specs.Prelude.{◌≡◌, ◌≤◌, length, take, drop, map, IfOk};
ghost use Rattle.chart_term.specs.Rows.{parts_of};
ghost use Rattle.chart_term.specs.Terms.{Turn};

use super::parts::{LEAF, push_copies};
use super::{PartList, RowPart};
use crate::{PartLook, TermList};
use msc_base::NoMemory;
use std::alloc::Global;

impl PartList {
    /// The parts as a balanced tree.
    #[tactic(auto, using(crate::proofs::Cuts::cuts))]
    pub fn from_vec(alloc: Global, parts: Vec<RowPart>) -> Result<PartList, NoMemory>
        ensures { IfOk result (λ list. list ≡ parts_of parts.items) }
    {
        let count = parts.len();
        if count <= LEAF {
            PartList::leaf(alloc, parts)
        } else {
            let mut front = parts;
            let back = front.split_off(count / 2)?;
            let first = PartList::from_vec(alloc, front)?;
            let second = PartList::from_vec(alloc, back)?;
            PartList::concat(alloc, &first, &second)
        }
    }

    /// The terms as turns, as a balanced tree.
    #[tactic(auto, using(crate::proofs::Turns::turns))]
    pub fn from_terms(alloc: Global, terms: &TermList) -> Result<PartList, NoMemory>
        ensures { IfOk result (λ list. list ≡ map Turn terms.now) }
    {
        let mut parts = Vec::with_capacity(alloc, terms.len())?;
        for term in terms.as_slice() {
            parts.push(RowPart::Turn(term.copy(alloc)?))?;
        }
        PartList::from_vec(alloc, parts)
    }

    /// The parts before the index.
    #[tactic(auto, using(crate::proofs::Cuts::cuts))]
    pub fn front(&self, alloc: Global, index: usize) -> Result<PartList, NoMemory>
        requires { index ≤ length self.now }
        ensures { IfOk result (λ list. list ≡ take index self.now) }
    {
        match self.look() {
            PartLook::Leaf(parts) => {
                let mut front = Vec::with_capacity(alloc, LEAF)?;
                push_copies(alloc, &parts[..index], &mut front)?;
                PartList::leaf(alloc, front)
            }
            PartLook::Fork(first, second) => {
                let count = first.len();
                if index <= count {
                    first.front(alloc, index)
                } else {
                    let front = second.front(alloc, index - count)?;
                    PartList::concat(alloc, first, &front)
                }
            }
        }
    }

    /// The parts from the index on.
    #[tactic(auto, using(crate::proofs::Cuts::cuts))]
    pub fn behind(&self, alloc: Global, index: usize) -> Result<PartList, NoMemory>
        requires { index ≤ length self.now }
        ensures { IfOk result (λ list. list ≡ drop index self.now) }
    {
        match self.look() {
            PartLook::Leaf(parts) => {
                let mut behind = Vec::with_capacity(alloc, LEAF)?;
                push_copies(alloc, &parts[index..], &mut behind)?;
                PartList::leaf(alloc, behind)
            }
            PartLook::Fork(first, second) => {
                let count = first.len();
                if index < count {
                    let behind = first.behind(alloc, index)?;
                    PartList::concat(alloc, &behind, second)
                } else {
                    second.behind(alloc, index - count)
                }
            }
        }
    }
}
