//! Which events of a level come before which: its messages and its general ordering.

ghost use Rattle.std.specs.Prelude.{◌≡◌, ◌++◌, IfOk, OnOk, map};
ghost use Rattle.general_ordering.specs.NamedEvents.{IsEven, group_of};
ghost use Rattle.msc_meaning.specs.ItemViews.{items_view};
ghost use Rattle.msc_meaning.specs.Bodies.{events, item_events};
ghost use Rattle.msc_meaning.specs.Ties.{after_pairs, before_pairs, each_after, each_before, level_pairs, order_pairs};
ghost use Rattle.msc_meaning.specs.Views.{item_view, node_view};

use crate::named::NamedEvents;
use msc_base::{Name, NoMemory, Pair, PairList};
use msc_meaning::{EventNode, Item};
use std::alloc::Global;

/// Appends the number before each of those.
fn add_after(list: &mut PairList, first: u32, seconds: &[u32]) -> Result<(), NoMemory>
    ensures { OnOk result (list.new ≡ list.old ++ each_after first seconds.now) }
{
    for second in seconds {
        list.push(Pair {
            first,
            second: *second,
        })?;
    }
    Ok(())
}

/// Appends each of these before the number.
fn add_before(list: &mut PairList, firsts: &[u32], second: u32) -> Result<(), NoMemory>
    ensures { OnOk result (list.new ≡ list.old ++ each_before second firsts.now) }
{
    for first in firsts {
        list.push(Pair {
            first: *first,
            second,
        })?;
    }
    Ok(())
}

/// Appends the event before the events of these names.
fn add_earlier(
    list: &mut PairList,
    named: &NamedEvents,
    number: u32,
    names: &[Name],
) -> Result<(), NoMemory>
    requires { IsEven named.now }
    ensures { OnOk result (list.new ≡ list.old ++ before_pairs (group_of named.now) number names.now) }
{
    for name in names {
        add_after(list, number, named.numbers(name))?;
    }
    Ok(())
}

/// Appends the events of these names before the event.
fn add_later(
    list: &mut PairList,
    named: &NamedEvents,
    number: u32,
    names: &[Name],
) -> Result<(), NoMemory>
    requires { IsEven named.now }
    ensures { OnOk result (list.new ≡ list.old ++ after_pairs (group_of named.now) number names.now) }
{
    for name in names {
        add_before(list, named.numbers(name), number)?;
    }
    Ok(())
}

/// Appends the general ordering of these events.
fn add_events(list: &mut PairList, named: &NamedEvents, nodes: &[EventNode]) -> Result<(), NoMemory>
    requires { IsEven named.now }
    ensures { OnOk result (list.new ≡ list.old ++ order_pairs (group_of named.now) (map node_view nodes.now)) }
{
    for node in nodes {
        add_earlier(list, named, node.number, node.event.order.earlier_than())?;
        add_later(list, named, node.number, node.event.order.later_than())?;
    }
    Ok(())
}

/// Appends the general ordering of an item's own events.
fn add_item(list: &mut PairList, named: &NamedEvents, item: &Item) -> Result<(), NoMemory>
    requires { IsEven named.now }
    ensures { OnOk result (list.new ≡ list.old ++ order_pairs (group_of named.now) (item_events (item_view item.now))) }
{
    match item {
        Item::Single(node) => {
            add_earlier(list, named, node.number, node.event.order.earlier_than())?;
            add_later(list, named, node.number, node.event.order.later_than())
        }
        Item::Coregion(nodes) => add_events(list, named, nodes.as_slice()),
        Item::Inline(_) => Ok(()),
        Item::Reference(_) => Ok(()),
    }
}

/// Appends the general ordering of the own events of these items.
fn add_items(list: &mut PairList, named: &NamedEvents, items: &[Item]) -> Result<(), NoMemory>
    requires { IsEven named.now }
    ensures { OnOk result (list.new ≡ list.old ++ order_pairs (group_of named.now) (events (items_view items.now))) }
{
    for item in items {
        add_item(list, named, item)?;
    }
    Ok(())
}

/// The pairs once more.
fn copied(alloc: Global, pairs: &[Pair]) -> Result<PairList, NoMemory>
    ensures { IfOk result (λ list. list ≡ pairs.now) }
{
    let mut list = PairList::new(alloc);
    for pair in pairs {
        list.push(*pair)?;
    }
    Ok(list)
}

/// Which events of a level come before which, by their numbers: its message pairs, as they are given, and behind them its general
/// ordering (Z.120, 4.4 and 4.5), an event before all events of each name that it comes before, and behind all of each name that it
/// comes after.
pub fn level_pairs_of(alloc: Global, items: &[Item], pairs: &[Pair]) -> Result<PairList, NoMemory>
    ensures { IfOk result (λ list. list ≡ level_pairs (items_view items.now) pairs.now) }
{
    let named = NamedEvents::of(alloc, items)?;
    let mut list = copied(alloc, pairs)?;
    add_items(&mut list, &named, items)?;
    Ok(list)
}
