//! The parts of a list by index, and the next one that may have an event with a label.

ghost use Rattle.std.specs.Prelude.{◌≡◌, ◌<◌, true, length, slice_get, Some};
ghost use Rattle.chart_term.specs.NormalForms.{begun};
ghost use Rattle.chart_term.specs.PartLists.{AllPassed, AreTurns, IsNext, IsPassed};
ghost use Rattle.chart_term.specs.Rows.{part_of, parts_of};
ghost use Rattle.chart_term.specs.Terms.{Turn};

use super::{PartList, RowPart, Term};
use crate::PartLook;
use bit_sets::Block;

impl RowPart {
    /// Whether a search for the label passes over the part, as far as the stored facts tell.
    #[tactic(auto, using(crate::proofs::Passing::passing))]
    fn is_passed(&self, label: u32, skip: &Block) -> bool
        ensures { result ≡ true → IsPassed label skip.now.instances (part_of self.now) }
    {
        match self {
            RowPart::Gap(_) => false,
            RowPart::Turn(turn) => turn.facts().are_passed(label, skip),
        }
    }
}

/// The first index at or behind the given one at which a search for the label stops.
#[tactic(auto, using(crate::proofs::Passing::passing))]
fn next_of(parts: &[RowPart], from: usize, label: u32, skip: &Block) -> Option<usize>
    ensures { IsNext (parts_of parts.now) from label skip.now.instances result }
{
    for at in from..parts.len() {
        if !parts[at].is_passed(label, skip) {
            return Some(at);
        }
    }
    None
}

impl PartList {
    /// The part at that index, from 0. It takes no memory.
    #[tactic(auto, using(crate::proofs::Cuts::cuts))]
    pub fn at(&self, index: usize) -> &RowPart
        requires { index < length self.now }
        ensures { slice_get self.now index ≡ Some (part_of result.now) }
    {
        match self.look() {
            PartLook::Leaf(parts) => &parts[index],
            PartLook::Fork(first, second) => {
                let count = first.len();
                if index < count {
                    first.at(index)
                } else {
                    second.at(index - count)
                }
            }
        }
    }

    /// The term of the turn at that index, from 0. It takes no memory.
    #[tactic(auto, using(crate::proofs::Turns::turns))]
    pub fn term_at(&self, index: usize) -> &Term
        requires turns { AreTurns self.now }
        requires within { index < length self.now }
        ensures { slice_get (begun self.now) index ≡ Some result.now }
    {
        match self.at(index) {
            RowPart::Turn(term) => term,
            RowPart::Gap(_) => unreachable!(),
        }
    }

    /// Whether a search for the label passes over all parts, as far as the stored facts tell.
    #[tactic(auto, using(crate::proofs::Passing::passing))]
    fn are_passed(&self, label: u32, skip: &Block) -> bool
        ensures { result ≡ true → AllPassed label skip.now.instances self.now }
    {
        !self.has_gap() && self.facts().are_passed(label, skip)
    }

    /// The first index from the given one on whose part may have an event with the label. Passed
    /// over are turns without walks that lack the label, and those whose events are at the
    /// instances of `skip` alone; a gap is never passed over. It takes no memory.
    #[tactic(auto, using(crate::proofs::Passing::passing))]
    pub fn next_with(&self, from: usize, label: u32, skip: &Block) -> Option<usize>
        ensures { IsNext self.now from label skip.now.instances result }
    {
        if self.are_passed(label, skip) {
            return None;
        }
        match self.look() {
            PartLook::Leaf(parts) => next_of(parts, from, label, skip),
            PartLook::Fork(first, second) => {
                let count = first.len();
                let _ = self.len();
                if from >= count {
                    return match second.next_with(from - count, label, skip) {
                        Some(at) => Some(count + at),
                        None => None,
                    };
                }
                match first.next_with(from, label, skip) {
                    Some(at) => Some(at),
                    None => match second.next_with(0, label, skip) {
                        Some(at) => Some(count + at),
                        None => None,
                    },
                }
            }
        }
    }
}
