//! The nodes of a list of parts: leaves and forks, and the facts that each stores.

ghost use Rattle.std.specs.Prelude.{◌≡◌, ℕ, ◌++◌, ◌∷◌, ◌<◌, ◌==◌, [], length, IfOk, IfSome, OnOk};
ghost use Rattle.chart_term.specs.Facts.{RowHasFacts, instances_row, row_misses, row_walk};
ghost use Rattle.chart_term.specs.NormalForms.{has_gap as gap_in};
ghost use Rattle.chart_term.specs.Rows.{part_of, parts_of};
ghost use Rattle.chart_term.specs.Terms.{has, row_of};

use super::{PartList, RowPart, Stretch, StretchForm};
use crate::PartLook;
use bit_sets::Block;
use msc_base::NoMemory;
use std::alloc::Global;
use std::rc::Rc;
use term_facts::Facts;

/// How many parts a leaf holds at most.
pub(crate) const LEAF: usize = 16;

impl RowPart {
    /// The same part once more: the node of a turn is shared.
    pub fn copy(&self, alloc: Global) -> Result<RowPart, NoMemory>
        ensures { IfOk result (λ part. part ≡ self.now) }
    {
        match self {
            RowPart::Gap(block) => Ok(RowPart::Gap(block.copy(alloc)?)),
            RowPart::Turn(turn) => Ok(RowPart::Turn(turn.copy(alloc)?)),
        }
    }
}

/// Appends copies of the parts: turns are shared. After want of memory some of them may stand behind the others.
pub fn push_copies(alloc: Global, parts: &[RowPart], out: &mut Vec<RowPart>) -> Result<(), NoMemory>
    ensures { OnOk result (out.new.items ≡ out.old.items ++ parts.now) }
{
    for part in parts {
        out.push(part.copy(alloc)?)?;
    }
    Ok(())
}

/// The facts of these parts.
#[tactic(auto, using(crate::proofs::Gathering::gathering))]
fn facts_of(alloc: Global, parts: &[RowPart]) -> Result<Facts, NoMemory>
    ensures { IfOk result (λ facts. RowHasFacts (row_of (parts_of parts.now)) facts) }
{
    let mut facts = Facts::none(alloc);
    for part in parts {
        match part {
            RowPart::Gap(_) => facts.add_weight(1),
            RowPart::Turn(turn) => facts.add(turn.facts())?,
        }
    }
    Ok(facts)
}

/// Whether one of the parts is a gap.
#[tactic(auto, using(crate::proofs::Turns::turns))]
fn have_gap(parts: &[RowPart]) -> bool
    ensures { result ≡ gap_in (parts_of parts.now) }
{
    for part in parts {
        match part {
            RowPart::Gap(_) => return true,
            RowPart::Turn(_) => {}
        }
    }
    false
}

impl PartList {
    ghost use Rattle.chart_term.specs.Looks.{ShowsParts};

    /// The list of no parts.
    pub fn empty(alloc: Global) -> Result<PartList, NoMemory>
        ensures { IfOk result (λ list. list ≡ []) }
    {
        PartList::leaf(alloc, Vec::new(alloc))
    }

    /// The list of this part alone.
    pub fn one(alloc: Global, part: RowPart) -> Result<PartList, NoMemory>
        ensures { IfOk result (λ list. list ≡ part_of part ∷ []) }
    {
        let mut parts = Vec::with_capacity(alloc, 1)?;
        parts.push(part)?;
        PartList::leaf(alloc, parts)
    }

    /// A list of this node.
    fn share(alloc: Global, node: Stretch) -> Result<PartList, NoMemory>
        ensures { IfOk result (λ list. list ≡ node) }
    {
        Ok(PartList {
            root: Rc::new(alloc, node)?,
        })
    }

    /// The parts as one leaf.
    pub(crate) fn leaf(alloc: Global, parts: Vec<RowPart>) -> Result<PartList, NoMemory>
        ensures { IfOk result (λ list. list ≡ parts_of parts.items) }
    {
        let facts = facts_of(alloc, parts.as_slice())?;
        let has_gap = have_gap(parts.as_slice());
        let count = parts.len();
        let form = StretchForm::Leaf(parts);
        PartList::share(
            alloc,
            Stretch {
                form,
                count,
                height: 0,
                has_gap,
                facts,
            },
        )
    }

    /// Both below a fork.
    pub(crate) fn fork(
        alloc: Global,
        first: PartList,
        second: PartList,
    ) -> Result<PartList, NoMemory>
        requires first { 0 < length first }
        requires second { 0 < length second }
        ensures { IfOk result (λ list. list ≡ first ++ second) }
    {
        let mut facts = first.facts().copy(alloc)?;
        facts.add(second.facts())?;
        let count = match first.len().checked_add(second.len()) {
            Some(count) => count,
            None => return Err(NoMemory),
        };
        let height = first.height().max(second.height()).saturating_add(1);
        let has_gap = first.has_gap() | second.has_gap();
        let form = StretchForm::Fork(first, second);
        PartList::share(
            alloc,
            Stretch {
                form,
                count,
                height,
                has_gap,
                facts,
            },
        )
    }

    /// How many parts the list has. It takes no memory.
    pub fn len(&self) -> usize
        ensures { result ≡ length self.now }
    {
        let node: &Stretch = &self.root;
        node.count
    }

    /// Whether there is no part. It takes no memory.
    pub fn is_empty(&self) -> bool
        ensures { result ≡ (length self.now == 0) }
    {
        self.len() == 0
    }

    /// Whether one of the parts is a gap. It takes no memory.
    pub fn has_gap(&self) -> bool
        ensures { result ≡ gap_in self.now }
    {
        let node: &Stretch = &self.root;
        node.has_gap
    }

    /// How many levels of forks stand above the lowest leaf's.
    pub(crate) fn height(&self) -> u8 {
        let node: &Stretch = &self.root;
        node.height
    }

    /// The same list once more: its nodes are shared.
    pub fn copy(&self, alloc: Global) -> Result<PartList, NoMemory>
        ensures { IfOk result (λ list. list ≡ self.now) }
    {
        let _ = alloc;
        Ok(PartList {
            root: self.root.clone()?,
        })
    }

    /// The facts that the node stores.
    pub fn facts(&self) -> &Facts
        ensures { RowHasFacts (row_of self.now) result.now }
    {
        let node: &Stretch = &self.root;
        &node.facts
    }

    /// Whether no event of the block can hit a turn, as `Term::misses` says of each; gaps are not
    /// looked at. It takes no memory.
    #[tactic(auto, using(crate::proofs::Gathering::gathering))]
    pub fn misses(&self, block: &Block) -> bool
        ensures { result ≡ row_misses block.now (row_of self.now) }
    {
        self.facts().misses(block)
    }

    /// The instances of the events of the turns; gaps and nets aren't looked into. It takes no memory.
    pub fn instances(&self) -> &Block
        ensures { (n : ℕ) → has result.now.instances n ≡ has (instances_row (row_of self.now)) n }
    {
        &self.facts().instances
    }

    /// Whether a walk stands in one of the turns. It takes no memory.
    pub fn holds_walk(&self) -> bool
        ensures { result ≡ row_walk (row_of self.now) }
    {
        self.facts().holds_walk
    }

    /// The parts of a leaf, or the halves of a fork. It takes no memory.
    pub fn look(&self) -> PartLook<'_>
        ensures { ShowsParts self.now result }
    {
        let node: &Stretch = &self.root;
        match &node.form {
            StretchForm::Leaf(parts) => PartLook::Leaf(parts.as_slice()),
            StretchForm::Fork(first, second) => PartLook::Fork(first, second),
        }
    }

    /// The parts of both as one leaf, where they are two leaves that are small enough.
    pub(crate) fn merged(
        alloc: Global,
        first: &PartList,
        second: &PartList,
    ) -> Result<Option<PartList>, NoMemory>
        ensures { IfOk result (λ merged. IfSome merged (λ list. list ≡ first.now ++ second.now)) }
    {
        if first.len().saturating_add(second.len()) > LEAF {
            return Ok(None);
        }
        match (first.look(), second.look()) {
            (PartLook::Leaf(front), PartLook::Leaf(back)) => {
                let mut parts = Vec::with_capacity(alloc, LEAF)?;
                push_copies(alloc, front, &mut parts)?;
                push_copies(alloc, back, &mut parts)?;
                Ok(Some(PartList::leaf(alloc, parts)?))
            }
            _ => Ok(None),
        }
    }
}
