//! Events at their instances.

ghost use Rattle.std.specs.Prelude.{◌≡◌, ◌++◌, IfOk, OnOk, map};
ghost use Rattle.expansion_tree.specs.Views.{expansion_view, expansions_view};
ghost use Rattle.expansion_order.specs.Stops.{all_stops, event_stops, numbered, stops};

use expansion_tree::{ExpandedEvent, Expansion};
use msc_base::{Items, NoMemory};
use std::alloc::Global;

/// An event, or a loop or walk that counts as one, at one of its instances.
#[derive(Clone, Copy, Debug, PartialEq, Eq)]
pub struct Stop {
    /// The number of the instance.
    pub column: u32,
    /// The number of the event.
    pub number: u32,
}

/// Adds an event at its instances.
pub(crate) fn add_event(list: &mut Items<Stop>, event: ExpandedEvent) -> Result<(), NoMemory>
    ensures { OnOk result (list.new ≡ list.old ++ event_stops event) }
{
    let number = event.number;
    list.push(Stop {
        column: event.at,
        number,
    })?;
    if let Some(column) = event.also {
        list.push(Stop { column, number })?;
    }
    Ok(())
}

/// Adds the events of an expansion, those of its loops and walks too.
#[cycle(stops)]
fn add_stops(list: &mut Items<Stop>, part: &Expansion) -> Result<(), NoMemory>
    ensures { OnOk result (list.new ≡ list.old ++ stops (expansion_view part.now)) }
{
    match part {
        Expansion::Event(event) => add_event(list, *event),
        Expansion::InRow(parts) => add_all(list, parts.as_slice()),
        Expansion::Aside(parts) => add_all(list, parts.as_slice()),
        Expansion::OneOf(parts) => add_all(list, parts.as_slice()),
        Expansion::Exception(inner) => add_stops(list, inner),
        Expansion::Turns(_, _, _, inner) => add_stops(list, inner),
        Expansion::Tied(inner, _) => add_stops(list, inner),
        Expansion::Walk(_, _, parts) => add_all(list, parts.as_slice()),
    }
}

/// Adds the events of expansions.
#[cycle(stops)]
fn add_all(list: &mut Items<Stop>, parts: &[Expansion]) -> Result<(), NoMemory>
    ensures { OnOk result (list.new ≡ list.old ++ all_stops (expansions_view parts.now)) }
{
    for part in parts {
        add_stops(list, part)?;
    }
    Ok(())
}

/// Appends the stops.
pub(crate) fn append(list: &mut Items<Stop>, others: &[Stop]) -> Result<(), NoMemory>
    ensures { OnOk result (list.new ≡ list.old ++ others.now) }
{
    for stop in others {
        list.push(*stop)?;
    }
    Ok(())
}

/// The stops with that number.
fn with_number(alloc: Global, number: u32, stops: &[Stop]) -> Result<Items<Stop>, NoMemory>
    ensures { IfOk result (λ all. all ≡ map (numbered number) stops.now) }
{
    let mut all = Items::new(alloc);
    for stop in stops {
        all.push(Stop {
            column: stop.column,
            number,
        })?;
    }
    Ok(all)
}

/// The stops of a loop that counts as one event of that number: its instances are those of all events inside.
pub(crate) fn loop_stops(
    alloc: Global,
    number: u32,
    inner: &Expansion,
) -> Result<Items<Stop>, NoMemory>
    ensures { IfOk result (λ all. all ≡ map (numbered number) (stops (expansion_view inner.now))) }
{
    let mut list = Items::new(alloc);
    add_stops(&mut list, inner)?;
    let all = with_number(alloc, number, list.as_slice())?;
    Ok(all)
}

/// The stops of a walk that counts as one event of that number: its instances are those of all events of its nodes.
pub(crate) fn walk_stops(
    alloc: Global,
    number: u32,
    parts: &[Expansion],
) -> Result<Items<Stop>, NoMemory>
    ensures { IfOk result (λ all. all ≡ map (numbered number) (all_stops (expansions_view parts.now))) }
{
    let mut list = Items::new(alloc);
    add_all(&mut list, parts)?;
    let all = with_number(alloc, number, list.as_slice())?;
    Ok(all)
}
