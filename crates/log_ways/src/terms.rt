//! The terms of a set as a list, and the first of them that may end: for `steps` and `log_way`.

ghost use Rattle.std.specs.Prelude.{◌≡◌, ◌++◌, [], IfOk, true, MatchOption, OnOk};
ghost use Rattle.chart_term.specs.NormalForms.{begun};
ghost use Rattle.chart_term.specs.PartLists.{AreTurns};
ghost use Rattle.chart_term.specs.Properties.{Each};
ghost use Rattle.log_ways.specs.Stepping.{AreSame, IsAlone, IsEnding};
ghost use Rattle.msc_base.specs.Lists.{IsAmong};
ghost use Rattle.term_permission.specs.Ready.{AreReadyTables, IsReady};
ghost use Rattle.term_sets.specs.Subsets.{all_spelled, pick, side_by_side, spelled};
ghost use Rattle.trace_judge.specs.Sets.{HasEnding};

use chart_term::{Look, PartList, Term, TermList, par_of};
use msc_base::NoMemory;
use std::alloc::Global;
use term_permission::may_end;
use term_sets::{SetKey, TermSet};
use term_tables::Nets;

/// Adds the event where the bit is set.
fn push_picked(alloc: Global, bit: bool, event: &Term, parts: &mut TermList) -> Result<(), NoMemory>
    ensures { OnOk result (parts.new ≡ parts.old ++ pick bit event.now []) }
{
    if bit {
        parts.push(event.copy(alloc)?)?;
    }
    Ok(())
}

/// The events side by side whose bits the word has; the lowest bit is the first one's.
#[tactic(auto, using(crate::proofs::Spelling::spelling))]
fn spelled(alloc: Global, events: &PartList, word: u64) -> Result<Term, NoMemory>
    requires { AreTurns events.now }
    ensures { IfOk result (λ term. term ≡ spelled (begun events.now) word) }
{
    let mut parts = TermList::new(alloc);
    let mut rest = word;
    for index in 0..events.len() {
        push_picked(alloc, rest % 2 == 1, events.term_at(index), &mut parts)?;
        rest /= 2;
    }
    let turns = PartList::from_terms(alloc, &parts)?;
    let term = par_of(alloc, turns)?;
    Ok(term)
}

/// The terms of the words, for events that stand side by side.
#[tactic(auto, using(crate::proofs::Spelling::spelling))]
fn all_spelled(alloc: Global, events: &PartList, words: &[u64]) -> Result<Vec<Term>, NoMemory>
    requires { AreTurns events.now }
    ensures { IfOk result (λ terms. AreSame terms.items (all_spelled (begun events.now) words.now)) }
{
    let mut terms = Vec::with_capacity(alloc, words.len())?;
    for word in words {
        terms.push(spelled(alloc, events, *word)?)?;
    }
    Ok(terms)
}

/// The parts of a term that is some side by side; of another the given list.
fn parts_of<'a>(term: &'a Term, none: &'a PartList) -> &'a PartList
    requires { none.now ≡ [] }
    ensures turns { AreTurns result.now }
    ensures parts { begun result.now ≡ side_by_side term.now }
{
    match term.look() {
        Look::Par(parts) => parts,
        _ => none,
    }
}

/// The terms of the set, each once.
#[tactic(auto, using(crate::proofs::Spelling::spelling))]
pub(crate) fn terms_of(alloc: Global, set: &TermSet) -> Result<Vec<Term>, NoMemory>
    ensures { IfOk result (λ terms. AreSame terms.items set.now) }
{
    match set.key(alloc)? {
        SetKey::Listed { terms, .. } => Ok(terms),
        SetKey::Subsets { whole, words, .. } => {
            let none = PartList::empty(alloc)?;
            let terms = all_spelled(alloc, parts_of(&whole, &none), words.as_slice())?;
            Ok(terms)
        }
    }
}

/// A term of a set, and where it stands in the list of its terms.
#[derive(Drop)]
pub(crate) struct Found {
    /// The term.
    pub(crate) term: Term,
    /// Its index.
    pub(crate) index: usize,
    /// Whether it is known to be the only one.
    pub(crate) alone: bool,
}

/// Whether the term of the set is known to be the only one: it weighs as much as the whole.
#[tactic(auto, using(crate::proofs::Spelling::alone))]
pub(crate) fn is_alone(set: &TermSet, term: &Term) -> bool
    requires { IsAmong set.now term.now }
    ensures { result ≡ true → IsAlone set.now term.now }
{
    set.weight() == term.weight()
}

/// The first term of the set that may end, if there is one.
pub(crate) fn first_ending(
    alloc: Global,
    nets: &Nets,
    set: &TermSet,
) -> Result<Option<Found>, NoMemory>
    requires tables { AreReadyTables nets.now.tables }
    requires terms { Each (IsReady nets.now.tables) set.now }
    ensures { IfOk result (λ found. MatchOption found (HasEnding nets.now set.now → ⊥) (IsEnding nets.now.tables set.now)) }
{
    let terms = terms_of(alloc, set)?;
    for index in 0..terms.len() {
        let term = &terms[index];
        if may_end(alloc, nets, term)? {
            let term = term.copy(alloc)?;
            let alone = is_alone(set, &term);
            return Ok(Some(Found { term, index, alone }));
        }
    }
    Ok(None)
}
