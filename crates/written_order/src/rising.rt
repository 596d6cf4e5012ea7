//! Whether the text of a body has the events in an order in which they can happen. It takes no memory.

ghost use Rattle.std.specs.Prelude.{◌≡◌, ◌<◌, ◌∷◌, [], All, IfSome, map, true};
ghost use Rattle.msc_meaning.specs.Bodies.{events, item_events};
ghost use Rattle.msc_meaning.specs.ItemViews.{bodies_view, inline_view, items_view};
ghost use Rattle.msc_meaning.specs.Views.{body_view, item_view, node_view};
ghost use Rattle.written_order.specs.Rising.{AreRisingBodies, AreRisingItems, IsAtNoGate, IsFree, IsRisingBody, IsRisingItem, RiseTo};

use msc_base::{Name, Pair};
use msc_meaning::{Body, EventNode, InlineItem, Item};
use msc_tree::{Join, Target};

/// Whether the first event of each pair has the lower number.
fn do_rise(pairs: &[Pair]) -> bool
    ensures { result ≡ true → All (λ pair. pair.first < pair.second) pairs.now }
{
    for pair in pairs {
        if pair.first >= pair.second {
            return false;
        }
    }
    true
}

/// Whether there are no names.
fn is_empty(names: &[Name]) -> bool
    ensures { result ≡ true → names.now ≡ [] }
{
    names.is_empty()
}

/// Whether the other end of an event is no gate.
fn is_at_no_gate(target: &Target) -> bool
    ensures { result ≡ true → IsAtNoGate target.now }
{
    match target {
        Target::Nobody => true,
        Target::Env(None) => true,
        Target::Env(Some(_)) => false,
        Target::Instance(_) => true,
        Target::Gate(_, _) => false,
    }
}

/// Whether the event is ordered with no others by their names.
fn is_unordered(node: &EventNode) -> bool
    ensures earlier { result ≡ true → node.now.event.order.earlier_than ≡ [] }
    ensures later { result ≡ true → node.now.event.order.later_than ≡ [] }
{
    is_empty(node.event.order.earlier_than()) && is_empty(node.event.order.later_than())
}

/// Whether the event is ordered with no others by their names, and at no gate.
fn is_free(node: &EventNode) -> bool
    ensures { result ≡ true → IsFree (node_view node.now) }
{
    is_unordered(node) && is_at_no_gate(&node.event.target)
}

/// The number behind that of the event, where this is no lower than the bound, and the event is ordered with no others by their names, and
/// at no gate.
fn behind_event(low: u64, node: &EventNode) -> Option<u64>
    ensures { IfSome result (λ high. RiseTo low (node_view node.now ∷ []) high) }
{
    let number = node.number as u64;
    if low <= number && is_free(node) {
        Some(number + 1)
    } else {
        None
    }
}

/// The same of events.
fn behind_events(low: u64, nodes: &[EventNode]) -> Option<u64>
    ensures { IfSome result (λ high. RiseTo low (map node_view nodes.now) high) }
{
    let mut high = low;
    for node in nodes {
        high = behind_event(high, node)?;
    }
    Some(high)
}

/// The same of an item's own events.
fn behind_item(low: u64, item: &Item) -> Option<u64>
    ensures { IfSome result (λ high. RiseTo low (item_events (item_view item.now)) high) }
{
    match item {
        Item::Single(node) => behind_event(low, node),
        Item::Coregion(nodes) => behind_events(low, nodes.as_slice()),
        Item::Inline(_) => Some(low),
        Item::Reference(_) => Some(low),
    }
}

/// The same of a level's own events.
fn behind_items(items: &[Item]) -> Option<u64>
    ensures { IfSome result (λ high. RiseTo 0 (events (items_view items.now)) high) }
{
    let mut high = 0;
    for item in items {
        high = behind_item(high, item)?;
    }
    Some(high)
}

/// Whether there are no joins.
fn joins_none(joins: &[Join]) -> bool
    ensures { result ≡ true → joins.now ≡ [] }
{
    joins.is_empty()
}

/// Whether the text of the body has the events in an order in which they can happen: on each level their numbers rise, and so do those
/// of each message, none is ordered with others by their names, and none is at a gate, nor does a reference join its gates. It takes no
/// memory; the time grows with the body.
#[cycle(rising)]
pub fn is_rising(body: &Body) -> bool
    ensures { result ≡ true → IsRisingBody (body_view body.now) }
{
    if !do_rise(body.pairs.as_slice()) {
        return false;
    }
    match behind_items(body.items.as_slice()) {
        None => false,
        Some(_) => are_rising(body.items.as_slice()),
    }
}

/// The same of what is inside items.
#[cycle(rising)]
fn are_rising(items: &[Item]) -> bool
    ensures { result ≡ true → AreRisingItems (items_view items.now) }
{
    for item in items {
        if !is_rising_item(item) {
            return false;
        }
    }
    true
}

/// The same of what is inside an item.
#[cycle(rising)]
fn is_rising_item(item: &Item) -> bool
    ensures { result ≡ true → IsRisingItem (item_view item.now) }
{
    match item {
        Item::Inline(inline) => is_rising_inline(inline),
        Item::Single(_) => true,
        Item::Coregion(_) => true,
        Item::Reference(held) => joins_none(held.joins.as_slice()),
    }
}

/// The same of an inline expression.
#[cycle(rising)]
fn is_rising_inline(inline: &InlineItem) -> bool
    ensures { result ≡ true → IsRisingItem (inline_view inline.now) }
{
    have_rising(inline.operands.as_slice())
}

/// The same of operands.
#[cycle(rising)]
fn have_rising(operands: &[Body]) -> bool
    ensures { result ≡ true → AreRisingBodies (bodies_view operands.now) }
{
    for operand in operands {
        if !is_rising(operand) {
            return false;
        }
    }
    true
}
