//! The tie of a level: which numbers its pairs come to.

ghost use Rattle.std.specs.BTreeMap.{get};
ghost use Rattle.std.specs.Ordering.{nat_cmp};
ghost use Rattle.std.specs.Prelude.{◌≡◌, ◌++◌, ◌∷◌, true, [], IfOk, OnOk};
ghost use Rattle.msc_meaning.specs.Ties.{own_ties};
ghost use Rattle.expanded_charts.specs.Expanding.{Shown, pairs_between, tied};
ghost use Rattle.expanded_charts.specs.GateNumbers.{HasNumbers};
ghost use Rattle.expanded_charts.specs.GateTies.{end_view, tie_view, ties_view};
ghost use Rattle.expanded_charts.specs.Making.{IsChanged};
ghost use Rattle.expanded_charts.specs.ShownGates.{gates_view};
ghost use Rattle.expanded_charts.specs.TieNumbers.{AreNumbers, found_pair, found_pairs, gate_pairs, listed, numbers_at, numbers_of, tie_pairs};

use crate::gate_numbers::{
    GateNumbers, gate_numbers, list_of, numbers_on, push_between, sought_numbers,
};
use crate::gate_ties::{GateTie, TieEnd};
use crate::made::Made;
use crate::shown::ShownGate;
use expansion_tree::Expansion;
use msc_base::{NoMemory, NumberList, Pair, PairList};
use std::alloc::Global;
use std::collections::BTreeMap;

/// The pairs of numbers that these pairs of events come to, each sought among all numbers that are shown.
fn sought_pairs(alloc: Global, ties: &PairList, shown: &PairList) -> Result<PairList, NoMemory>
    ensures { IfOk result (λ list. list ≡ tie_pairs shown.now ties.now) }
{
    let mut list = PairList::new(alloc);
    for index in 0..ties.len() {
        let tie = *ties.at(index);
        let firsts = sought_numbers(alloc, shown, tie.first)?;
        let seconds = sought_numbers(alloc, shown, tie.second)?;
        push_between(&mut list, firsts.as_slice(), seconds.as_slice())?;
    }
    Ok(list)
}

/// The numbers that are shown, by those of the chart.
#[derive(Drop)]
struct Numbers {
    by_event: BTreeMap<u32, u32>,
    /// No event of the chart is shown twice.
    apart: bool,
}

/// Whether it held, and there was none.
fn still_apart(apart: bool, old: Option<u32>) -> bool
    ensures { result ≡ true → (apart ≡ true) × (old ≡ None) }
{
    apart && old.is_none()
}

/// The numbers that are shown, by those of the chart.
fn numbers_of(alloc: Global, shown: &PairList) -> Result<Numbers, NoMemory>
    ensures { IfOk result (λ numbers. numbers.apart ≡ true → AreNumbers (get nat_cmp numbers.by_event) shown.now) }
{
    let mut by_event = BTreeMap::new(alloc);
    let mut apart = true;
    for index in 0..shown.len() {
        let pair = *shown.at(index);
        let old = by_event.insert(pair.second, pair.first)?;
        apart = still_apart(apart, old);
    }
    Ok(Numbers { by_event, apart })
}

/// Appends the numbers of the two events, where both are found.
fn add_found(list: &mut PairList, by_event: &BTreeMap<u32, u32>, tie: Pair) -> Result<(), NoMemory>
    ensures { OnOk result (list.new ≡ list.old ++ found_pair (get nat_cmp by_event.now tie.first) (get nat_cmp by_event.now tie.second)) }
{
    match by_event.get(&tie.first).copied() {
        None => Ok(()),
        Some(first) => match by_event.get(&tie.second).copied() {
            None => Ok(()),
            Some(second) => {
                list.push(Pair { first, second })?;
                Ok(())
            }
        },
    }
}

/// The pairs of numbers that these pairs of events come to, found by the numbers of the chart.
fn found_pairs_of(
    alloc: Global,
    ties: &PairList,
    by_event: &BTreeMap<u32, u32>,
) -> Result<PairList, NoMemory>
    ensures { IfOk result (λ list. list ≡ found_pairs (get nat_cmp by_event.now) ties.now) }
{
    let mut list = PairList::new(alloc);
    for index in 0..ties.len() {
        add_found(&mut list, by_event, *ties.at(index))?;
    }
    Ok(list)
}

/// The pairs of numbers that these pairs of events come to: where no event is shown twice, each is found by its number in the chart.
fn event_pairs(
    alloc: Global,
    ties: &PairList,
    shown: &PairList,
    numbers: &Numbers,
) -> Result<PairList, NoMemory>
    requires { numbers.now.apart ≡ true → AreNumbers (get nat_cmp numbers.now.by_event) shown.now }
    ensures { IfOk result (λ list. list ≡ tie_pairs shown.now ties.now) }
{
    if numbers.apart {
        let list = found_pairs_of(alloc, ties, &numbers.by_event)?;
        return Ok(list);
    }
    let list = sought_pairs(alloc, ties, shown)?;
    Ok(list)
}

/// The list of the number, where there is one.
fn one_or_none(alloc: Global, number: Option<u32>) -> Result<NumberList, NoMemory>
    ensures { IfOk result (λ list. list ≡ listed number) }
{
    match number {
        None => Ok(NumberList::new(alloc)),
        Some(number) => {
            let list = NumberList::one(alloc, number)?;
            Ok(list)
        }
    }
}

/// The numbers that are shown of the event.
fn event_numbers(
    alloc: Global,
    shown: &PairList,
    numbers: &Numbers,
    event: u32,
) -> Result<NumberList, NoMemory>
    requires { numbers.now.apart ≡ true → AreNumbers (get nat_cmp numbers.now.by_event) shown.now }
    ensures { IfOk result (λ list. list ≡ numbers_of event shown.now) }
{
    if numbers.apart {
        let list = one_or_none(alloc, numbers.by_event.get(&event).copied())?;
        return Ok(list);
    }
    let list = sought_numbers(alloc, shown, event)?;
    Ok(list)
}

/// The numbers that are shown of an end of a tie.
fn end_numbers<'a>(
    alloc: Global,
    shown: &PairList,
    numbers: &Numbers,
    gates: &GateNumbers<'a>,
    end: TieEnd<'a>,
) -> Result<NumberList, NoMemory>
    requires { numbers.now.apart ≡ true → AreNumbers (get nat_cmp numbers.now.by_event) shown.now }
    ensures { IfOk result (λ list. (seen : Shown) → HasNumbers gates.now seen → list ≡ numbers_at shown.now seen (end_view end.entry)) }
{
    match end {
        TieEnd::Event(event) => {
            let list = event_numbers(alloc, shown, numbers, event)?;
            Ok(list)
        }
        TieEnd::Gate(name, gate) => {
            let list = list_of(alloc, numbers_on(gates, name, gate))?;
            Ok(list)
        }
    }
}

/// Appends the pairs of numbers that a tie comes to.
fn push_tie<'a>(
    alloc: Global,
    list: &mut PairList,
    shown: &PairList,
    numbers: &Numbers,
    gates: &GateNumbers<'a>,
    tie: GateTie<'a>,
) -> Result<(), NoMemory>
    requires { numbers.now.apart ≡ true → AreNumbers (get nat_cmp numbers.now.by_event) shown.now }
    ensures { OnOk result ((seen : Shown) → HasNumbers gates.now seen → list.new ≡ list.old ++ gate_pairs shown.now seen (tie_view tie.entry ∷ [])) }
{
    let firsts = end_numbers(alloc, shown, numbers, gates, tie.first)?;
    let seconds = end_numbers(alloc, shown, numbers, gates, tie.second)?;
    push_between(list, firsts.as_slice(), seconds.as_slice())?;
    Ok(())
}

/// Appends the pairs of numbers that ties at gates come to.
fn push_ties<'a>(
    alloc: Global,
    list: &mut PairList,
    shown: &PairList,
    numbers: &Numbers,
    gates: &GateNumbers<'a>,
    ties: &[GateTie<'a>],
) -> Result<(), NoMemory>
    requires { numbers.now.apart ≡ true → AreNumbers (get nat_cmp numbers.now.by_event) shown.now }
    ensures { OnOk result ((seen : Shown) → HasNumbers gates.now seen → list.new ≡ list.old ++ gate_pairs shown.now seen (ties_view ties.now)) }
{
    for tie in ties {
        push_tie(alloc, list, shown, numbers, gates, *tie)?;
    }
    Ok(())
}

/// The pairs of numbers that these pairs of events and these ties at gates come to.
fn tied_numbers<'a>(
    alloc: Global,
    pairs: &PairList,
    ties: &[GateTie<'a>],
    shown: &PairList,
    gates: &[ShownGate<'a>],
) -> Result<PairList, NoMemory>
    ensures { IfOk result (λ list. list ≡ tie_pairs shown.now pairs.now ++ gate_pairs shown.now (gates_view gates.now) (ties_view ties.now)) }
{
    let numbers = numbers_of(alloc, shown)?;
    let mut list = event_pairs(alloc, pairs, shown, &numbers)?;
    if ties.is_empty() {
        return Ok(list);
    }
    let gates = gate_numbers(alloc, gates)?;
    push_ties(alloc, &mut list, shown, &numbers, &gates, ties)?;
    Ok(list)
}

/// The part tied by these pairs of events of its level, and by these ties at gates.
pub(crate) fn level_tied<'a>(
    alloc: Global,
    pairs: &PairList,
    ties: &[GateTie<'a>],
    inner: Made<'a>,
) -> Result<Made<'a>, NoMemory>
    ensures { IfOk result (λ made. IsChanged (λ e. tied (own_ties pairs.now ++ ties_view ties.now) e) inner.entry made) }
{
    let Made {
        part,
        own,
        gates,
        next,
    } = inner;
    let numbers = tied_numbers(alloc, pairs, ties, &own, gates.as_slice())?;
    let part = Box::new(alloc, part)?;
    Ok(Made {
        part: Expansion::Tied(part, numbers),
        own,
        gates,
        next,
    })
}
