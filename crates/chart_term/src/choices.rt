//! The choice of parts in normal form, opened and without repeats. term_step calls it for what is left of choices.

ghost use Rattle.std.specs.Prelude.{◌≡◌, ◌<◌, ◌++◌, length, IfOk, OnOk, Some};
ghost use Rattle.chart_term.specs.NormalForms.{begun, open_choice, distinct, choice_form, choice_of};
ghost use Rattle.chart_term.specs.PartLists.{AreTurns};

use crate::{PartList, Term, TermList};
use msc_base::NoMemory;
use std::alloc::Global;
use std::collections::BTreeSet;

/// Appends the terms of the turns.
#[tactic(auto, using(crate::proofs::Turns::turns))]
fn push_turns(list: &mut TermList, alloc: Global, turns: &PartList) -> Result<(), NoMemory>
    requires { AreTurns turns.now }
    ensures { OnOk result (list.new ≡ list.old ++ begun turns.now) }
{
    for index in 0..turns.len() {
        list.push(turns.term_at(index).copy(alloc)?)?;
    }
    Ok(())
}

/// Appends the part, opened where it is a choice.
#[tactic(auto, using(crate::proofs::Turns::turns))]
fn push_opened(list: &mut TermList, alloc: Global, part: &Term) -> Result<(), NoMemory>
    ensures ok { OnOk result (list.new ≡ list.old ++ open_choice part.now) }
    ensures longer { OnOk result (length list.old < length list.new) }
{
    match part.choice_parts() {
        Some(turns) => push_turns(list, alloc, turns),
        None => list.push(part.copy(alloc)?),
    }
}

/// The parts without those that equal an earlier one.
fn distinct(alloc: Global, parts: &TermList) -> Result<TermList, NoMemory>
    ensures { IfOk result (λ kept. kept ≡ distinct parts.now) }
{
    let mut seen = BTreeSet::new(alloc);
    let mut kept = TermList::new(alloc);
    for part in parts.as_slice() {
        if seen.insert(part.copy(alloc)?)? {
            kept.push(part.copy(alloc)?)?;
        }
    }
    Ok(kept)
}

/// The choice of parts that are open and differ.
#[tactic(auto, using(crate::proofs::Turns::turns))]
fn form_of(alloc: Global, parts: TermList) -> Result<Term, NoMemory>
    requires { 0 < length parts }
    ensures { IfOk result (λ term. choice_form parts ≡ Some term) }
{
    if parts.len() > 1 {
        return Term::choice_of(alloc, PartList::from_terms(alloc, &parts)?);
    }
    parts.at(0).copy(alloc)
}

/// The choice of the parts in normal form: parts that are choices are opened, and a part equal to
/// an earlier one dropped; of one part it is that one.
#[tactic(auto, using(crate::proofs::Flattening::flats))]
pub fn choice(alloc: Global, parts: TermList) -> Result<Term, NoMemory>
    requires { 0 < length parts }
    ensures { IfOk result (λ term. choice_of parts ≡ Some term) }
{
    let mut opened = TermList::new(alloc);
    for item in parts.as_slice() {
        push_opened(&mut opened, alloc, item)?;
    }
    let kept = distinct(alloc, &opened)?;
    form_of(alloc, kept)
}
