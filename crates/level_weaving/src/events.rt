//! The events of a level with their numbers and instances, in the order of the woven list: for `matching` and `alone`.

ghost use Rattle.std.specs.Prelude.{◌≡◌, ◌<◌, ◌++◌, ◌∷◌, [], All, List, IfOk, OnOk, OnErr, length, map};
ghost use Rattle.level_weaving.specs.LevelNodes.{nodes_at, ordered_nodes, piece_nodes};
ghost use Rattle.level_weaving.specs.EventViews.{event_view};
ghost use Rattle.level_pieces.specs.ItemNumbers.{first_parts};
ghost use Rattle.level_pieces.specs.PieceViews.{parts_view, piece_view};
ghost use Rattle.msc_meaning.specs.Bodies.{EventNode};
ghost use Rattle.msc_meaning.specs.Levels.{nodes_from};
ghost use Rattle.msc_tree.specs.Views.{form_view};
ghost use Rattle.std.specs.Prelude.{Some};

use level_pieces::{LevelItem, Piece, lead_of, sum_of};
use msc_base::{Name, NoMemory};
use msc_tree::{RawEvent, RawForm};
use std::alloc::Global;
use std::marker::Model;

/// An event of a level.
#[derive(Clone, Copy)]
pub struct PlacedEvent<'a> {
    /// Its number in the chart.
    pub number: u32,
    /// The instance at which it happens.
    pub at: &'a Name,
    /// What was written.
    pub event: &'a RawEvent,
}

/// Events, in the order of the woven list.
#[derive(Drop)]
pub struct EventList<'a> {
    held: Vec<PlacedEvent<'a>>,
}

impl<'a> Model for EventList<'a> {
    ghost Value = { List EventNode };

    ghost view = { λ l. map event_view l.held.items };
}

impl<'a> EventList<'a> {
    /// No events, with room for so many.
    pub fn with_room(alloc: Global, room: usize) -> Result<EventList<'a>, NoMemory>
        ensures { IfOk result (λ events. events ≡ []) }
    {
        Ok(EventList {
            held: Vec::with_capacity(alloc, room)?,
        })
    }

    /// Appends an event. After want of memory the list is as it was.
    pub fn push(&mut self, event: PlacedEvent<'a>) -> Result<(), NoMemory>
        ensures ok { OnOk result (self.new ≡ self.old ++ event_view event.entry ∷ []) }
        ensures err { OnErr result (self.new ≡ self.old) }
    {
        self.held.push(event)?;
        Ok(())
    }

    /// The events as a slice.
    pub fn as_slice(&self) -> &[PlacedEvent<'a>]
        ensures { map event_view result.now ≡ self.now }
    {
        self.held.as_slice()
    }
}

/// Adds the events of a coregion at this instance, numbered from `first` on.
fn coregion<'a>(
    events: &mut EventList<'a>,
    at: &'a Name,
    first: u32,
    list: &'a [RawEvent],
) -> Result<(), NoMemory>
    ensures { OnOk result (events.new ≡ events.old ++ nodes_from first at.now list.now) }
{
    let mut number = first;
    for event in list {
        events.push(PlacedEvent { number, at, event })?;
        number = sum_of(number, 1)?;
    }
    Ok(())
}

/// Adds the events of a piece at this instance.
fn form<'a>(
    events: &mut EventList<'a>,
    at: &'a Name,
    first: u32,
    form: &'a RawForm,
) -> Result<(), NoMemory>
    ensures { OnOk result (events.new ≡ events.old ++ nodes_at (Some at.now) first (form_view form.now)) }
{
    match form {
        RawForm::Single(event) => events.push(PlacedEvent {
            number: first,
            at,
            event,
        }),
        RawForm::Coregion(list) => coregion(events, at, first, list.as_slice()),
        _ => Ok(()),
    }
}

/// Adds the events of a piece.
fn piece<'a>(events: &mut EventList<'a>, piece: Piece<'a, 'a>) -> Result<(), NoMemory>
    ensures { OnOk result (events.new ≡ events.old ++ piece_nodes (piece_view piece.entry)) }
{
    match lead_of(piece) {
        None => Ok(()),
        Some(at) => form(events, at, piece.first, piece.form),
    }
}

/// The events of the items of these numbers, one after another.
pub fn ordered_events<'a>(
    alloc: Global,
    items: &[LevelItem<'a, 'a>],
    order: &[u32],
) -> Result<EventList<'a>, NoMemory>
    requires { All (λ x. x < length items.now) order.now }
    ensures { IfOk result (λ events. events ≡ ordered_nodes (first_parts (map parts_view items.now)) order.now) }
{
    let mut events = EventList::with_room(alloc, order.len())?;
    for number in order {
        piece(&mut events, items[*number as usize].first)?;
    }
    Ok(events)
}
