//! The labels with which a set goes on, marked by number: for `listing`.

ghost use Rattle.std.specs.Prelude.{◌≡◌, ◌∷◌, ◌<◌, [], false, length, slice_get, true, Some, IfOk, OnOk};
ghost use Rattle.chart_term.specs.Properties.{Each};
ghost use Rattle.msc_base.specs.Lists.{IsIn};
ghost use Rattle.trace_judge.specs.Sets.{IsSoundFor};
ghost use Rattle.next_labels.specs.Marks.{AreMarks, MarksMore};

use crate::asking::goes_on_with;
use bit_sets::NodeSet;
use chart_term::Term;
use msc_base::NoMemory;
use std::alloc::Global;
use term_firsts::first_labels;
use term_sets::{SetKey, TermSet};
use term_tables::Nets;

/// Whether the tables have no label of that number, or it is marked.
fn is_told(nets: &Nets, number: u32, marks: &NodeSet) -> bool
    requires { marks.now.size ≡ length nets.now.labels }
    ensures marked { result ≡ true → number < marks.now.size → IsIn number marks.now.nodes }
    ensures below { result ≡ false → number < marks.now.size }
{
    if number >= nets.labels() {
        return true;
    }
    marks.has(number)
}

/// Marks the label of that number, if the set goes on with it. One that is marked isn't asked.
#[tactic(auto, using(crate::proofs::Marked::marking))]
fn mark_label(
    alloc: Global,
    nets: &Nets,
    set: &TermSet,
    number: u32,
    marks: &mut NodeSet,
) -> Result<(), NoMemory>
    requires sound { Each (IsSoundFor nets.now) set.now }
    requires size { marks.old.size ≡ length nets.now.labels }
    ensures { OnOk result (MarksMore nets.now set.now (λ n. n ≡ number) marks.old marks.new) }
{
    if is_told(nets, number, marks) {
        return Ok(());
    }
    let goes = goes_on_with(alloc, nets, set, number)?;
    if !goes {
        return Ok(());
    }
    marks.add(number);
    Ok(())
}

/// The set of this term alone. One that weighs more than can be told is want of memory.
fn set_of(alloc: Global, term: &Term) -> Result<TermSet, NoMemory>
    ensures { IfOk result (λ set. set ≡ term.now ∷ []) }
{
    if term.weight() == u64::MAX {
        return Err(NoMemory);
    }
    TermSet::single(alloc, term.copy(alloc)?)
}

/// The number at that index.
fn number_at(numbers: &Vec<u32>, index: usize) -> u32
    requires { index < length numbers.now.items }
    ensures { slice_get numbers.now.items index ≡ Some result }
{
    numbers[index]
}

/// Marks the labels with which the term goes on: it is asked for those of its events that may come first, for each once.
#[tactic(auto, using(crate::proofs::Marked::marking))]
fn mark_term(alloc: Global, nets: &Nets, term: &Term, marks: &mut NodeSet) -> Result<(), NoMemory>
    requires sound { IsSoundFor nets.now term.now }
    requires size { marks.old.size ≡ length nets.now.labels }
    ensures { OnOk result (MarksMore nets.now (term.now ∷ []) (λ n. Unit {0}) marks.old marks.new) }
{
    let set = set_of(alloc, term)?;
    let labels = first_labels(alloc, nets, term)?;
    let mut asked = NodeSet::empty(alloc, nets.labels())?;
    for index in 0..labels.len() {
        let number = number_at(&labels, index);
        if is_told(nets, number, &asked) {
            continue;
        }
        asked.add(number);
        mark_label(alloc, nets, &set, number, marks)?;
    }
    Ok(())
}

/// The term at that index.
fn term_at(terms: &Vec<Term>, index: usize) -> &Term
    requires { index < length terms.now.items }
    ensures { slice_get terms.now.items index ≡ Some result.now }
{
    &terms[index]
}

/// The marks of the labels with which one of the terms goes on.
#[tactic(auto, using(crate::proofs::Marked::marking))]
fn marks_of_terms(alloc: Global, nets: &Nets, terms: &Vec<Term>) -> Result<NodeSet, NoMemory>
    requires { Each (IsSoundFor nets.now) terms.now.items }
    ensures { IfOk result (λ marks. AreMarks nets.now terms.now.items marks) }
{
    let mut marks = NodeSet::empty(alloc, nets.labels())?;
    for index in 0..terms.len() {
        mark_term(alloc, nets, term_at(terms, index), &mut marks)?;
    }
    Ok(marks)
}

/// The same of a set that is asked for all labels.
#[tactic(auto, using(crate::proofs::Marked::marking))]
fn marks_by_asking(alloc: Global, nets: &Nets, set: &TermSet) -> Result<NodeSet, NoMemory>
    requires { Each (IsSoundFor nets.now) set.now }
    ensures { IfOk result (λ marks. AreMarks nets.now set.now marks) }
{
    let mut marks = NodeSet::empty(alloc, nets.labels())?;
    for number in 0..nets.labels() {
        mark_label(alloc, nets, set, number, &mut marks)?;
    }
    Ok(marks)
}

/// The marks of the labels with which the set goes on. A set of subsets is asked for all labels, as none of its terms is at hand.
pub(crate) fn marks_of(alloc: Global, nets: &Nets, set: &TermSet) -> Result<NodeSet, NoMemory>
    requires { Each (IsSoundFor nets.now) set.now }
    ensures { IfOk result (λ marks. AreMarks nets.now set.now marks) }
{
    let key = set.key(alloc)?;
    match key {
        SetKey::Listed { weight: _, terms } => {
            let marks = marks_of_terms(alloc, nets, &terms)?;
            Ok(marks)
        }
        SetKey::Subsets { .. } => marks_by_asking(alloc, nets, set),
    }
}
