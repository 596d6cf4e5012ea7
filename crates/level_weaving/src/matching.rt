//! Pairs outputs with inputs by message, pairing name and both instances: for `levels`.

ghost use Rattle.std.specs.Prelude.{◌≡◌, ◌++◌, IfOk, OnOk, Some, map, option_copied};
ghost use Rattle.column_order.specs.Pairing.{RiseFrom};
ghost use Rattle.level_weaving.specs.EventViews.{event_view};
ghost use Rattle.level_weaving.specs.Marks.{AreMarked, IsMark, KeepsNumbers, LeadsPairs, edges_from, end_edges, key_view};
ghost use Rattle.level_weaving.specs.Messages.{key_of, way};

use crate::PlacedEvent;
use column_order::{Edge, pair_up};
use indexmap::IndexSet;
use msc_base::{Name, NoMemory, number_of};
use msc_tree::{Direction, far_bytes, label_text, way_of};
use std::alloc::Global;

/// What an output and the input that takes it in have in common.
#[derive(Drop, PartialEq, Eq, Hash)]
struct MessageKey<'a> {
    sender: &'a [u8],
    receiver: &'a [u8],
    text: Vec<u8>,
    pairing: Option<&'a [u8]>,
}

/// What the pairing sees of an event: the number of its key, and its direction.
#[derive(Clone, Copy)]
struct Mark {
    class: u32,
    direction: Direction,
}

/// The marks of events, and how many classes they have.
#[derive(Drop)]
struct Marks {
    held: Vec<Option<Mark>>,
    classes: u32,
}

/// The bytes of the name, where there is one.
fn name_bytes(name: &Option<Name>) -> Option<&[u8]>
    ensures { option_copied result ≡ name.now }
{
    match name {
        Some(name) => Some(name.bytes()),
        None => None,
    }
}

/// The key of an output, or of an input.
fn message_key<'a>(
    alloc: Global,
    placed: PlacedEvent<'a>,
    direction: Direction,
) -> Result<MessageKey<'a>, NoMemory>
    requires { way (event_view placed) ≡ Some direction }
    ensures { IfOk result (λ key. key_view key ≡ key_of (event_view placed.entry)) }
{
    let at = placed.at.bytes();
    let far = far_bytes(&placed.event.target);
    let text = label_text(
        alloc,
        placed.event.text.bytes(),
        placed.event.parameters.items(),
    )?;
    let pairing = name_bytes(&placed.event.pairing);
    match direction {
        Direction::Out => Ok(MessageKey {
            sender: at,
            receiver: far,
            text,
            pairing,
        }),
        Direction::In => Ok(MessageKey {
            sender: far,
            receiver: at,
            text,
            pairing,
        }),
    }
}

/// The mark of an event, whose key is numbered where it is new.
fn mark_of<'a>(
    alloc: Global,
    keys: &mut IndexSet<MessageKey<'a>>,
    placed: PlacedEvent<'a>,
) -> Result<Option<Mark>, NoMemory>
    ensures mark { IfOk result (IsMark (map key_view keys.new.keys) (event_view placed.entry)) }
    ensures kept { KeepsNumbers (map key_view keys.old.keys) (map key_view keys.new.keys) }
{
    let Some(direction) = way_of(placed.event) else {
        return Ok(None);
    };
    let key = message_key(alloc, placed, direction)?;
    let (number, _) = keys.insert_full(key)?;
    let class = number_of(number)?;
    Ok(Some(Mark { class, direction }))
}

/// The marks of the events.
fn marks_of(alloc: Global, events: &[PlacedEvent<'_>]) -> Result<Marks, NoMemory>
    ensures { IfOk result (λ marks. AreMarked (map event_view events.now) marks.held.items marks.classes) }
{
    let mut keys = IndexSet::new(alloc);
    let mut held = Vec::with_capacity(alloc, events.len())?;
    for placed in events {
        let mark = mark_of(alloc, &mut keys, *placed)?;
        held.push(mark)?;
    }
    let classes = number_of(keys.len())?;
    Ok(Marks { held, classes })
}

/// Appends the edge of the event of this number, where it goes that way.
fn push_edge(
    edges: &mut Vec<Edge>,
    mark: &Option<Mark>,
    direction: Direction,
    number: u32,
) -> Result<(), NoMemory>
    ensures { OnOk result (edges.new.items ≡ edges.old.items ++ end_edges direction number mark.now) }
{
    match mark {
        Some(mark) => {
            if mark.direction.is(direction) {
                edges.push(Edge {
                    from: mark.class,
                    to: number,
                })?;
            }
            Ok(())
        }
        None => Ok(()),
    }
}

/// The ends of one direction, each leading from its class to its event.
fn edges_of(
    alloc: Global,
    marks: &[Option<Mark>],
    direction: Direction,
) -> Result<Vec<Edge>, NoMemory>
    ensures { IfOk result (λ edges. edges.items ≡ edges_from direction 0 marks.now) }
{
    let mut edges = Vec::with_capacity(alloc, marks.len())?;
    let mut index = 0;
    for mark in marks {
        let number = number_of(index)?;
        push_edge(&mut edges, mark, direction, number)?;
        index += 1;
    }
    Ok(edges)
}

/// The pairs of outputs and inputs, by the numbers of the events, in the order of the outputs.
pub fn pairs_of(alloc: Global, events: &[PlacedEvent<'_>]) -> Result<Vec<Edge>, NoMemory>
    ensures pairs { IfOk result (λ pairs. LeadsPairs (map event_view events.now) pairs.items) }
    ensures rising { IfOk result (λ pairs. RiseFrom 0 pairs.items) }
{
    let marks = marks_of(alloc, events)?;
    let outputs = edges_of(alloc, marks.held.as_slice(), Direction::Out)?;
    let inputs = edges_of(alloc, marks.held.as_slice(), Direction::In)?;
    pair_up(alloc, marks.classes, outputs.as_slice(), inputs.as_slice())
}
