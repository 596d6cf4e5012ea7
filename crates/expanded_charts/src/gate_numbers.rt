//! The numbers of the events of a level by what ties name them by: for `ties`.

ghost use Rattle.std.specs.BTreeMap.{get};
ghost use Rattle.std.specs.Ordering.{nat_cmp};
ghost use Rattle.std.specs.Prelude.{◌≡◌, ◌++◌, ◌==◌, ◌∷◌, ℕ, [], List, true, IfOk, OnOk};
ghost use Rattle.msc_unfolding.specs.Unfoldings.{On};
ghost use Rattle.expanded_charts.specs.Expanding.{Shown, numbers_with, pairs_between};
ghost use Rattle.expanded_charts.specs.GateNumbers.{HasNumbers, gate_list};
ghost use Rattle.expanded_charts.specs.GateTies.{end_view, tie_view, ties_view};
ghost use Rattle.expanded_charts.specs.ShownGates.{gates_view, shown_view};
ghost use Rattle.expanded_charts.specs.TieNumbers.{AreNumbers, gate_pairs, numbers_at, numbers_of, pairs_with};

use crate::gate_ties::{GateTie, TieEnd};
use crate::shown::{GateTag, ShownGate};
use msc_base::{Name, NoMemory, NumberList, Pair, PairList};
use std::alloc::Global;
use std::collections::{BTreeMap, HashMap};

/// Of a reference or an inline expression, by its name, a gate.
#[derive(Clone, Copy, PartialEq, Eq, Hash)]
pub(crate) struct GateKey<'a> {
    name: &'a [u8],
    gate: &'a [u8],
}

/// The numbers that are shown of each called gate, in their order.
pub(crate) type GateNumbers<'a> = HashMap<GateKey<'a>, NumberList>;

/// The gate as a key.
fn key_of<'a>(name: &'a Name, gate: &'a Name) -> GateKey<'a>
    ensures name { result.name.now ≡ name.now }
    ensures gate { result.gate.now ≡ gate.now }
{
    GateKey {
        name: name.bytes(),
        gate: gate.bytes(),
    }
}

/// The list, or an empty one.
fn list_or_none(alloc: Global, list: Option<NumberList>) -> NumberList
    ensures { result ≡ gate_list list }
{
    match list {
        Some(list) => list,
        None => NumberList::new(alloc),
    }
}

/// Adds a number that is shown of the gate, behind the others.
fn add_number<'a>(
    alloc: Global,
    numbers: &mut GateNumbers<'a>,
    name: &'a Name,
    gate: &'a Name,
    number: u32,
) -> Result<(), NoMemory>
    ensures { OnOk result ((shown : Shown) → HasNumbers numbers.old shown → HasNumbers numbers.new (shown ++ (number, On name.now gate.now) ∷ [])) }
{
    let key = key_of(name, gate);
    let mut list = list_or_none(alloc, numbers.remove(&key));
    list.push(number)?;
    numbers.insert(key, list)?;
    Ok(())
}

/// Adds a number with its tag.
fn add_shown<'a>(
    alloc: Global,
    numbers: &mut GateNumbers<'a>,
    shown: ShownGate<'a>,
) -> Result<(), NoMemory>
    ensures { OnOk result ((before : Shown) → HasNumbers numbers.old before → HasNumbers numbers.new (before ++ shown_view shown.entry ∷ [])) }
{
    match shown.tag {
        GateTag::Via(_) => Ok(()),
        GateTag::On(name, gate) => add_number(alloc, numbers, name, gate, shown.number),
    }
}

/// The numbers that are shown of each called gate.
pub(crate) fn gate_numbers<'a>(
    alloc: Global,
    gates: &[ShownGate<'a>],
) -> Result<GateNumbers<'a>, NoMemory>
    ensures { IfOk result (λ numbers. HasNumbers numbers (gates_view gates.now)) }
{
    let mut numbers = HashMap::new(alloc);
    for shown in gates {
        add_shown(alloc, &mut numbers, *shown)?;
    }
    Ok(numbers)
}

/// A list of these numbers.
pub(crate) fn list_of(alloc: Global, numbers: &[u32]) -> Result<NumberList, NoMemory>
    ensures { IfOk result (λ list. list ≡ numbers.now) }
{
    let mut list = NumberList::new(alloc);
    for number in numbers {
        list.push(*number)?;
    }
    Ok(list)
}

/// The numbers that are shown of the gate.
pub(crate) fn numbers_on<'b, 'a>(
    numbers: &'b GateNumbers<'a>,
    name: &'a Name,
    gate: &'a Name,
) -> &'b [u32]
    ensures { (shown : Shown) → HasNumbers numbers.now shown → result.now ≡ numbers_with (On name.now gate.now) shown }
{
    match numbers.get(&key_of(name, gate)) {
        Some(list) => list.as_slice(),
        None => &[],
    }
}

/// Whether the number is shown of that event.
fn is_of(pair: &Pair, event: u32) -> bool
    ensures { result ≡ (pair.now.second == event) }
{
    pair.second == event
}

/// The numbers that are shown of the event, sought among all.
pub(crate) fn sought_numbers(
    alloc: Global,
    shown: &PairList,
    event: u32,
) -> Result<NumberList, NoMemory>
    ensures { IfOk result (λ list. list ≡ numbers_of event shown.now) }
{
    let mut list = NumberList::new(alloc);
    for index in 0..shown.len() {
        let pair = *shown.at(index);
        if is_of(&pair, event) {
            list.push(pair.first)?;
        }
    }
    Ok(list)
}

/// Appends the number with each of the others.
fn push_each(list: &mut PairList, first: u32, seconds: &[u32]) -> Result<(), NoMemory>
    ensures { OnOk result (list.new ≡ list.old ++ pairs_with first seconds.now) }
{
    for second in seconds {
        list.push(Pair {
            first,
            second: *second,
        })?;
    }
    Ok(())
}

/// Appends each of the first with each of the second.
pub(crate) fn push_between(
    list: &mut PairList,
    firsts: &[u32],
    seconds: &[u32],
) -> Result<(), NoMemory>
    ensures { OnOk result (list.new ≡ list.old ++ pairs_between firsts.now seconds.now) }
{
    for first in firsts {
        push_each(list, *first, seconds)?;
    }
    Ok(())
}
