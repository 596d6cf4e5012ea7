//! The names of the events of a level, with the lowest number of the events of each: for `faults`.

ghost use Rattle.std.specs.Prelude.{◌≡◌, ◌<◌, ℕ, IfOk, List, None, Some, map, option_copied};
ghost use Rattle.general_ordering.specs.EventNames.{breaks, is_none as has_none, names_none as none_named, Twice, Unknown};
ghost use Rattle.msc_meaning.specs.ItemViews.{items_view};
ghost use Rattle.general_ordering.specs.LevelNames.{IsWhole, has_before as has_lower, is_lower as lower_than, is_named_twice as twice_named, lower as lower_of, lowest_from, orders_unknown as unknown_ordered};
ghost use Rattle.general_ordering.specs.NamedEvents.{IsEven, group_of};
ghost use Rattle.msc_meaning.specs.Bodies as plain;
ghost use Rattle.msc_meaning.specs.Views.{node_view};

use crate::named::NamedEvents;
use msc_base::{Name, NoMemory, NumberList};
use msc_meaning::{EventNode, Item};
use std::alloc::Global;

/// The names of the events of a level.
#[derive(Drop)]
pub(crate) struct LevelNames {
    /// The events of each name.
    pub(crate) named: NamedEvents,
    /// The lowest number of each group of events, in their order.
    pub(crate) lowest: Vec<Option<u32>>,
}

/// The lower of the number so far and one more.
fn lower(so_far: Option<u32>, number: u32) -> u32
    ensures { result ≡ lower_of so_far number }
{
    match so_far {
        None => number,
        Some(lowest) => lowest.min(number),
    }
}

/// The lowest of the numbers.
fn lowest_of(numbers: &[u32]) -> Option<u32>
    ensures { result ≡ lowest_from None numbers.now }
{
    let mut lowest = None;
    for number in numbers {
        lowest = Some(lower(lowest, *number));
    }
    lowest
}

/// The lowest number of each group.
fn lowest_of_each(alloc: Global, groups: &[NumberList]) -> Result<Vec<Option<u32>>, NoMemory>
    ensures { IfOk result (λ lowest. lowest.items ≡ map (lowest_from None) groups.now) }
{
    let mut lowest = Vec::with_capacity(alloc, groups.len())?;
    for group in groups {
        lowest.push(lowest_of(group.as_slice()))?;
    }
    Ok(lowest)
}

/// Whether there is none.
fn is_none(numbers: &[u32]) -> bool
    ensures { result ≡ has_none numbers.now }
{
    numbers.is_empty()
}

/// Whether one of the names has no event.
fn names_none(named: &NamedEvents, names: &[Name]) -> bool
    requires { IsEven named.now }
    ensures { result ≡ none_named (group_of named.now) names.now }
{
    let mut found = false;
    for name in names {
        found |= is_none(named.numbers(name));
    }
    found
}

/// Whether there is a lowest number, and it is lower.
fn is_lower(lowest: Option<u32>, number: u32) -> bool
    ensures { result ≡ lower_than lowest number }
{
    match lowest {
        None => false,
        Some(lowest) => lowest < number,
    }
}

impl LevelNames {
    /// The names of the own events of these items.
    pub(crate) fn of(alloc: Global, items: &[Item]) -> Result<LevelNames, NoMemory>
        ensures whole { IfOk result (λ names. IsWhole names) }
        ensures unknown { IfOk result (λ names. (n : plain.EventNode) → unknown_ordered names n ≡ breaks Unknown (plain.events (items_view items.now)) n) }
        ensures twice { IfOk result (λ names. (n : plain.EventNode) → twice_named names n ≡ breaks Twice (plain.events (items_view items.now)) n) }
    {
        let named = NamedEvents::of(alloc, items)?;
        let lowest = lowest_of_each(alloc, named.groups.as_slice())?;
        Ok(LevelNames { named, lowest })
    }

    /// The lowest number of the events of the name.
    fn lowest(&self, name: &Name) -> Option<u32>
        requires { IsWhole self.now }
        ensures { result ≡ lowest_from None (group_of self.now.named name.now) }
    {
        match self.named.names.number_of(name.bytes()) {
            Some(index) => self.lowest[index],
            None => None,
        }
    }

    /// Whether an event of the name has a lower number.
    fn has_before(&self, name: Option<&Name>, number: u32) -> bool
        requires { IsWhole self.now }
        ensures { result ≡ has_lower (group_of self.now.named) (option_copied name.entry) number }
    {
        match name {
            None => false,
            Some(name) => is_lower(self.lowest(name), number),
        }
    }

    /// Whether the event is ordered with a name that no event of the level has.
    pub(crate) fn orders_unknown(&self, node: &EventNode) -> bool
        requires { IsWhole self.now }
        ensures { result ≡ unknown_ordered self.now (node_view node.now) }
    {
        names_none(&self.named, node.event.order.earlier_than())
            || names_none(&self.named, node.event.order.later_than())
    }

    /// Whether the event has the name of an earlier one.
    pub(crate) fn is_named_twice(&self, node: &EventNode) -> bool
        requires { IsWhole self.now }
        ensures { result ≡ twice_named self.now (node_view node.now) }
    {
        self.has_before(node.event.order.event_name(), node.number)
    }
}
