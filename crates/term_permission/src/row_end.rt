//! The end of a loop's row in normal form, to which parts are put in front: for `permission` and term_step.

ghost use Rattle.std.specs.Prelude.{◌≡◌, ◌++◌, [], true, false, IfOk, OnOk, Some};
ghost use Rattle.chart_term.specs.NormalForms.{begun, has_gap, is_nil};
ghost use Rattle.term_permission.specs.RowEnds.{gap_first};
ghost use Rattle.term_permission.specs.RowRests.{no_rest, turn_before, gap_before};

use bit_sets::Block;
use chart_term::{Look, PartList, RowPart, Term, TermList};
use msc_base::NoMemory;
use std::alloc::Global;
use std::marker::Model;

/// The end of a loop's row in normal form, to which parts are put in front.
///
/// A contract sees its parts in the order of the row, and whether a gap was dropped that leaves only the empty pattern.
#[derive(Drop)]
pub struct RowEnd {
    parts: PartList,
    free: bool,
}

impl Model for RowEnd {
    ghost use Rattle.term_permission.specs.RowRests.{RowRest};
    ghost use Rattle.std.specs.Coded.{codes};
    ghost use Rattle.chart_term.specs.Codes.{coded_part};

    ghost Value = { RowRest };

    ghost coded = { Prim.hlevel (codes, coded_part) };

    ghost view = { λ e. record { parts = e.parts; free = e.free } };
}

/// Whether the term is the empty process.
pub(crate) fn is_empty(term: &Term) -> bool
    ensures { result ≡ is_nil (Some term.now) }
{
    matches!(term.look(), Look::Nil)
}

/// Whether the first part is a gap.
fn begins_with_gap(parts: &PartList) -> bool
    ensures { result ≡ gap_first parts.now }
{
    if parts.is_empty() {
        return false;
    }
    match parts.at(0) {
        RowPart::Gap(_) => true,
        RowPart::Turn(_) => false,
    }
}

impl RowEnd {
    /// The end without parts.
    pub fn new(alloc: Global) -> Result<RowEnd, NoMemory>
        ensures { IfOk result (λ end. end ≡ no_rest) }
    {
        Ok(RowEnd {
            parts: PartList::empty(alloc)?,
            free: false,
        })
    }

    /// Puts the parts in front, as they are.
    pub fn put_all(&mut self, alloc: Global, parts: &PartList) -> Result<(), NoMemory>
        ensures { OnOk result (self.new ≡ record { parts = parts.now ++ self.old.parts; free = self.old.free }) }
    {
        self.parts = PartList::concat(alloc, parts, &self.parts)?;
        Ok(())
    }

    /// Puts a begun turn in front, unless it is over.
    pub fn put_turn(&mut self, alloc: Global, turn: Term) -> Result<(), NoMemory>
        ensures { OnOk result (self.new ≡ turn_before turn self.old) }
    {
        if !is_empty(&turn) {
            let part = PartList::one(alloc, RowPart::Turn(turn))?;
            self.parts = PartList::concat(alloc, &part, &self.parts)?;
        }
        Ok(())
    }

    /// Puts a gap in front, unless a gap comes behind it.
    pub(crate) fn put_gap(&mut self, alloc: Global, block: Block) -> Result<(), NoMemory>
        ensures { OnOk result (self.new ≡ gap_before false block.instances self.old) }
    {
        if !begins_with_gap(&self.parts) {
            let part = PartList::one(alloc, RowPart::Gap(block))?;
            self.parts = PartList::concat(alloc, &part, &self.parts)?;
        }
        Ok(())
    }

    /// Drops a gap that leaves only the empty pattern.
    pub(crate) fn drop_free_gap(&mut self)
        ensures { self.new ≡ gap_before true [] self.old }
    {
        self.free = true;
    }

    /// Whether such a gap was dropped.
    pub(crate) fn is_free(&self) -> bool
        ensures { result ≡ self.now.free }
    {
        self.free
    }

    /// Whether a gap is left.
    pub(crate) fn has_gap(&self) -> bool
        ensures { result ≡ has_gap self.now.parts }
    {
        self.parts.has_gap()
    }

    /// The row.
    pub(crate) fn into_row(self) -> PartList
        ensures { result ≡ self.parts }
    {
        let RowEnd { parts, .. } = self;
        parts
    }

    /// The begun turns, in the order of the row.
    #[tactic(auto, using(crate::proofs::Joins::joins))]
    pub(crate) fn into_turns(self, alloc: Global) -> Result<TermList, NoMemory>
        ensures { IfOk result (λ turns. turns ≡ begun self.parts) }
    {
        let mut turns = TermList::new(alloc);
        let RowEnd { parts, .. } = self;
        for index in 0..parts.len() {
            match parts.at(index) {
                RowPart::Gap(_) => {}
                RowPart::Turn(turn) => turns.push(turn.copy(alloc)?)?,
            }
        }
        Ok(turns)
    }
}
