//! Terms that are some of the same events side by side, each told by a word: for `term_set`.

ghost use Rattle.std.specs.Prelude.{◌≡◌, ◌+◌, ◌^◌, ◌<◌, ◌≤◌, ◌↔◌, ◌∷◌, [], IfOk, IfSome, IsTrue, MatchOption, take, length, slice_get, Some, true, false};
ghost use Rattle.msc_base.specs.Stored.{most_stored};
ghost use Rattle.chart_term.specs.NormalForms.{NetPermits, begun};
ghost use Rattle.chart_term.specs.PartLists.{AreTurns};
ghost use Rattle.chart_term.specs.Properties.{Each};
ghost use Rattle.chart_term.specs.Terms.{Tree};
ghost use Rattle.msc_base.specs.Lists.{AreDifferent, IsAmong};
ghost use Rattle.term_successors.specs.Successors.{AreRising};
ghost use Rattle.term_laws.specs.Listing.{set_weight};
ghost use Rattle.term_sets.specs.Keys.{told};
ghost use Rattle.trace_judge.specs.Sets.{HasEnding};
ghost use Rattle.term_sets.specs.Subsets.{AreAllTaken, AreBits, IsEvent, IsLabelled, IsSideBySide, IsTooMuch, side_by_side, weight_of_size};
ghost use Rattle.term_tables.specs.NetValues.{NetsValue};

use crate::set_key::SetKey;
use crate::words::Words;
use chart_term::{Look, PartList, Term};
use msc_base::NoMemory;
use std::alloc::Global;
use std::marker::Model;

/// How many events there may be: a word has a bit for each.
const EVENTS: usize = 64;

/// Terms each of which is some of the same events side by side, as many in each term.
///
/// A contract sees the terms, in their order.
#[derive(Drop)]
pub(crate) struct Subsets {
    /// All the events side by side.
    whole: Term,
    /// How many of them each term has.
    size: u64,
    /// For each term a word with a bit for each of its events; the lowest bit is that of the first event.
    words: Vec<u64>,
}

impl Model for Subsets {
    ghost use Rattle.std.specs.Prelude.{List, ◌≡◌};
    ghost use Rattle.std.specs.Coded.{coded_list};
    ghost use Rattle.chart_term.specs.Codes.{coded_tree};
    ghost use Rattle.chart_term.specs.Terms.{Tree};
    ghost use Rattle.term_sets.specs.Subsets.{AreSubsets, IsSideBySide, all_spelled, side_by_side};

    ghost Value = { List Tree };

    ghost coded = { coded_list coded_tree };

    ghost view = { λ s. all_spelled (side_by_side s.whole) s.words.items };

    ghost invariant = { λ s. IsSideBySide s.whole × AreSubsets (side_by_side s.whole) s.size s.words.items };
}

/// The parts of a term that is some side by side.
fn parts_of(term: &Term) -> &PartList
    requires { IsSideBySide term.now }
    ensures turns { AreTurns result.now }
    ensures parts { begun result.now ≡ side_by_side term.now }
{
    match term.look() {
        Look::Par(parts) => parts,
        _ => unreachable!(),
    }
}

/// Whether the term is an event.
fn is_event(term: &Term) -> bool
    ensures { result ≡ true → IsEvent term.now }
{
    match term.look() {
        Look::Event { .. } => true,
        _ => false,
    }
}

/// Whether the term is an event with the label.
fn has_label(term: &Term, label: u32) -> bool
    ensures { IsTrue result ↔ IsLabelled label term.now }
{
    match term.look() {
        Look::Event { label: own, .. } => own == label,
        _ => false,
    }
}

/// Whether the part of that index is one before it, too.
#[tactic(auto, using(crate::proofs::Choosing::before))]
fn stands_before(parts: &PartList, index: usize) -> bool
    requires turns { AreTurns parts.now }
    requires index { index < length parts.now }
    ensures { result ≡ false → (x : Tree) → slice_get (begun parts.now) index ≡ Some x → IsAmong (take index (begun parts.now)) x → ⊥ }
{
    for before in 0..index {
        if parts.term_at(before).same(parts.term_at(index)) {
            return true;
        }
    }
    false
}

/// Whether all parts are events.
#[tactic(auto, using(crate::proofs::Choosing::choosing))]
fn are_events(parts: &PartList) -> bool
    requires { AreTurns parts.now }
    ensures { result ≡ true → Each IsEvent (begun parts.now) }
{
    for index in 0..parts.len() {
        if !is_event(parts.term_at(index)) {
            return false;
        }
    }
    true
}

/// Whether no part stands twice.
#[tactic(auto, using(crate::proofs::Choosing::choosing))]
fn are_apart(parts: &PartList) -> bool
    requires { AreTurns parts.now }
    ensures { result ≡ true → AreDifferent (begun parts.now) }
{
    for index in 0..parts.len() {
        if stands_before(parts, index) {
            return false;
        }
    }
    true
}

/// The bits of the events with the label.
#[tactic(auto, using(crate::proofs::Choosing::choosing))]
fn bits_of(alloc: Global, events: &PartList, label: u32) -> Result<Vec<u32>, NoMemory>
    requires turns { AreTurns events.now }
    requires few { length events.now ≤ 64 }
    ensures { IfOk result (λ bits. AreBits (begun events.now) label bits.items) }
{
    let mut bits = Vec::new(alloc);
    for index in 0..events.len() {
        if has_label(events.term_at(index), label) {
            bits.push(index as u32)?;
        }
    }
    Ok(bits)
}

/// The word with this many bits, the lowest.
#[tactic(auto, using(crate::proofs::Choosing::choosing))]
fn all_bits(count: usize) -> u64
    requires { count ≤ 64 }
    ensures { result + 1 ≡ 2 ^ count }
{
    let mut word = 0u64;
    for _ in 0..count {
        word = word * 2 + 1;
    }
    word
}

/// The weight of this many events side by side.
fn weight_of(size: u64) -> u64
    requires { size ≤ 64 }
    ensures { result ≡ weight_of_size size }
{
    if size > 1 { size + 1 } else { 1 }
}

impl Subsets {
    /// The term alone, if it is different events side by side, few enough for a word.
    pub(crate) fn of(alloc: Global, term: &Term) -> Result<Option<Subsets>, NoMemory>
        ensures { IfOk result (λ found. IfSome found (λ set. set ≡ term.now ∷ [])) }
    {
        let Look::Par(parts) = term.look() else {
            return Ok(None);
        };
        let count = parts.len();
        if count < 2 || count > EVENTS || !are_events(parts) || !are_apart(parts) {
            return Ok(None);
        }
        let mut words = Vec::with_capacity(alloc, 1)?;
        words.push(all_bits(count))?;
        Ok(Some(Subsets {
            whole: term.copy(alloc)?,
            size: count as u64,
            words,
        }))
    }

    /// The weight of the terms.
    pub(crate) fn weight(&self) -> u64
        requires { set_weight self.now < most_stored }
        ensures weight { result ≡ set_weight self.now }
        ensures rising { AreRising self.now }
    {
        (self.words.len() as u64).saturating_mul(weight_of(self.size))
    }

    /// Whether there is no term.
    pub(crate) fn is_empty(&self) -> bool
        ensures { IsTrue result ↔ (self.now ≡ []) }
    {
        self.words.is_empty()
    }

    /// Whether one of the terms may end: whether one has no event.
    pub(crate) fn may_end(&self) -> bool
        ensures { (v : NetsValue) → IsTrue result ↔ HasEnding v self.now }
    {
        self.size == 0 && !self.words.is_empty()
    }

    /// What is left of any of the terms after an event with the label. There is none where together they weigh more than `most`.
    pub(crate) fn after(
        &self,
        alloc: Global,
        label: u32,
        most: u64,
    ) -> Result<Option<Subsets>, NoMemory>
        ensures { IfOk result (λ found. (k : NetPermits) → MatchOption found (IsTooMuch k label self.now most) (AreAllTaken k label self.now most)) }
    {
        let bits = bits_of(alloc, parts_of(&self.whole), label)?;
        let size = self.size.saturating_sub(1);
        let mut found = Words::new(alloc, most / weight_of(size));
        if !found.take_all(self.words.as_slice(), bits.as_slice())? {
            return Ok(None);
        }
        let mut words = found.list;
        words.sort_unstable();
        Ok(Some(Subsets {
            whole: self.whole.copy(alloc)?,
            size,
            words,
        }))
    }

    /// Whether both have the same terms by the same words.
    pub(crate) fn is_same(&self, other: &Subsets) -> bool
        ensures { result ≡ true → self.now ≡ other.now }
    {
        self.words == other.words && self.whole.same(&other.whole)
    }

    /// What they are found by, with the weight that they have together.
    pub(crate) fn key(&self, alloc: Global, weight: u64) -> Result<SetKey, NoMemory>
        ensures { IfOk result (λ key. told key ≡ self.now) }
    {
        SetKey::of_words(alloc, weight, &self.whole, self.words.as_slice())
    }
}
