//! Whether the items of a level call a gate.

ghost use Rattle.std.specs.Prelude.{◌≡◌, [], false, ℕ, List, Option, map};
ghost use Rattle.msc_meaning.specs.Calls.{calls, event_calls, events_calls, item_calls, join_calls, joins_calls};
ghost use Rattle.msc_meaning.specs.ItemViews.{items_view};
ghost use Rattle.msc_meaning.specs.Views.{item_view, node_view};

use msc_meaning::{EventNode, Item};
use msc_tree::{Join, JoinEnd, Target};

/// Whether the event calls a gate.
fn event_calls_gate(node: &EventNode) -> bool
    ensures { result ≡ false → event_calls (node_view node.now) node.now.event.target ≡ [] }
{
    match &node.event.target {
        Target::Gate(_, _) => true,
        Target::Nobody => false,
        Target::Env(_) => false,
        Target::Instance(_) => false,
    }
}

/// Whether one of the events calls a gate.
fn events_call_gate(nodes: &[EventNode]) -> bool
    ensures { result ≡ false → events_calls (map node_view nodes.now) ≡ [] }
{
    for node in nodes {
        if event_calls_gate(node) {
            return true;
        }
    }
    false
}

/// Whether the join calls a gate of its level.
fn join_calls_gate(join: &Join) -> bool
    ensures { result ≡ false → (own : Option (List ℕ)) → join_calls own join.now.gate join.now.to ≡ [] }
{
    match &join.to {
        JoinEnd::Env(_) => false,
        JoinEnd::Reference(_, _) => true,
    }
}

/// Whether one of the joins calls a gate of their level.
fn joins_call_gate(joins: &[Join]) -> bool
    ensures { result ≡ false → (own : Option (List ℕ)) → joins_calls own joins.now ≡ [] }
{
    for join in joins {
        if join_calls_gate(join) {
            return true;
        }
    }
    false
}

/// Whether the item calls a gate.
fn item_calls_gate(item: &Item) -> bool
    ensures { result ≡ false → item_calls (item_view item.now) ≡ [] }
{
    match item {
        Item::Single(node) => event_calls_gate(node),
        Item::Coregion(nodes) => events_call_gate(nodes.as_slice()),
        Item::Inline(_) => false,
        Item::Reference(reference) => joins_call_gate(reference.joins.as_slice()),
    }
}

/// Whether one of the items of a level calls a gate; where it says no, none does. It takes no memory.
pub fn items_call_gate(items: &[Item]) -> bool
    ensures { result ≡ false → calls (items_view items.now) ≡ [] }
{
    for item in items {
        if item_calls_gate(item) {
            return true;
        }
    }
    false
}
