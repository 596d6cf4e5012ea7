//! What is shown of events above a refining chart: for `charts`.

ghost use Rattle.std.specs.BTreeMap.{get};
ghost use Rattle.std.specs.Ordering.{nat_cmp};
ghost use Rattle.std.specs.Prelude.{◌≡◌, ◌++◌, ◌∷◌, List, IfOk, OnOk};
ghost use Rattle.msc_meaning.specs.Refinements.{Match, past_refining};
ghost use Rattle.refined_events.specs.MatchViews.{match_view, matches_view};
ghost use Rattle.expanded_charts.specs.Expanding.{past};
ghost use Rattle.expanded_charts.specs.Making.{IsChanged};
ghost use Rattle.expanded_charts.specs.LeftItems.{StandsFor, numbers_past, pair_past};

use crate::made::Made;
use msc_base::{NoMemory, Pair, PairList};
use refined_events::EventMatch;
use std::alloc::Global;
use std::collections::BTreeMap;

/// Puts before those that are there the number of the event that one stands for.
fn add_number(numbers: &mut BTreeMap<u32, u32>, matched: EventMatch<'_>) -> Result<(), NoMemory>
    ensures { OnOk result ((others : List Match) → StandsFor numbers.old others → StandsFor numbers.new (match_view matched.entry ∷ others)) }
{
    numbers.insert(matched.inner.number, matched.event.number)?;
    Ok(())
}

/// By the numbers of events, those of the events that they stand for.
fn numbers_of(alloc: Global, matches: &[EventMatch<'_>]) -> Result<BTreeMap<u32, u32>, NoMemory>
    ensures { IfOk result (λ numbers. StandsFor numbers (matches_view matches.now)) }
{
    let mut numbers = BTreeMap::new(alloc);
    let mut index = matches.len();
    while index > 0 {
        index -= 1;
        add_number(&mut numbers, matches[index])?;
    }
    Ok(numbers)
}

/// Appends the number with that of the event that its own stands for, where there is one.
fn push_past(list: &mut PairList, numbers: &BTreeMap<u32, u32>, shown: Pair) -> Result<(), NoMemory>
    ensures { OnOk result (list.new ≡ list.old ++ pair_past shown.first (get nat_cmp numbers.now shown.second)) }
{
    match numbers.get(&shown.second).copied() {
        None => Ok(()),
        Some(second) => {
            list.push(Pair {
                first: shown.first,
                second,
            })?;
            Ok(())
        }
    }
}

/// The numbers with those of the events that their own stand for.
fn past_numbers(
    alloc: Global,
    numbers: &BTreeMap<u32, u32>,
    own: &PairList,
) -> Result<PairList, NoMemory>
    ensures { IfOk result (λ list. list ≡ numbers_past (get nat_cmp numbers.now) own.now) }
{
    let mut list = PairList::new(alloc);
    for index in 0..own.len() {
        push_past(&mut list, numbers, *own.at(index))?;
    }
    Ok(list)
}

/// A refining chart with what is shown above it: its matched events by the numbers of those that they stand for.
pub(crate) fn past_refined<'a>(
    alloc: Global,
    matches: &[EventMatch<'a>],
    made: Made<'a>,
) -> Result<Made<'a>, NoMemory>
    ensures { IfOk result (λ new. IsChanged (past (past_refining (matches_view matches.now))) made.entry new) }
{
    let numbers = numbers_of(alloc, matches)?;
    let own = past_numbers(alloc, &numbers, &made.own)?;
    Ok(Made {
        part: made.part,
        own,
        gates: Vec::new(alloc),
        next: made.next,
    })
}
