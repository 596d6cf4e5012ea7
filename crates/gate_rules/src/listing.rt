//! The callers of a level, in the order of the woven list: for `faults`.

ghost use Rattle.std.specs.Prelude.{◌≡◌, ◌++◌, ◌∷◌, [], IfOk, OnOk, map};
ghost use Rattle.std.specs.List.{flat_map};
ghost use Rattle.gate_rules.specs.Callers.{callers_view, part_view};
ghost use Rattle.gate_rules.specs.GateRules.{by_join, callers as callers_in, event_caller, events_callers, item_callers};
ghost use Rattle.msc_meaning.specs.ItemViews.{items_view};
ghost use Rattle.msc_meaning.specs.Views.{item_view, node_view};

use crate::caller::{Caller, GateKey};
use msc_base::NoMemory;
use msc_meaning::{EventNode, Item, ReferenceItem};
use msc_tree::Target;
use std::alloc::Global;

/// Appends a caller.
fn push<'a>(callers: &mut Vec<Caller<'a>>, caller: Caller<'a>) -> Result<(), NoMemory>
    ensures { OnOk result (callers_view callers.new.items ≡ callers_view callers.old.items ++ callers_view (caller.entry ∷ [])) }
{
    callers.push(caller)?;
    Ok(())
}

/// Appends the event, where it calls a gate.
fn add_event<'a>(callers: &mut Vec<Caller<'a>>, node: &'a EventNode) -> Result<(), NoMemory>
    ensures { OnOk result (callers_view callers.new.items ≡ callers_view callers.old.items ++ event_caller (node_view node.now) node.now.event.target) }
{
    match &node.event.target {
        Target::Gate(name, gate) => {
            let key = GateKey {
                name: name.name().bytes(),
                gate: gate.name().bytes(),
            };
            push(callers, Caller::Event(node, key))
        }
        Target::Nobody => Ok(()),
        Target::Env(_) => Ok(()),
        Target::Instance(_) => Ok(()),
    }
}

/// Appends those of the events that call gates.
fn add_events<'a>(callers: &mut Vec<Caller<'a>>, nodes: &'a [EventNode]) -> Result<(), NoMemory>
    ensures { OnOk result (callers_view callers.new.items ≡ callers_view callers.old.items ++ events_callers (map node_view nodes.now)) }
{
    for node in nodes {
        add_event(callers, node)?;
    }
    Ok(())
}

/// Appends the joins of a reference.
fn add_joins<'a>(
    callers: &mut Vec<Caller<'a>>,
    reference: &'a ReferenceItem,
) -> Result<(), NoMemory>
    ensures { OnOk result (callers_view callers.new.items ≡ callers_view callers.old.items ++ map (by_join (part_view reference.now)) reference.now.joins) }
{
    for join in reference.joins.as_slice() {
        push(callers, Caller::Join(reference, join))?;
    }
    Ok(())
}

/// Appends the callers of an item.
fn add_item<'a>(callers: &mut Vec<Caller<'a>>, item: &'a Item) -> Result<(), NoMemory>
    ensures { OnOk result (callers_view callers.new.items ≡ callers_view callers.old.items ++ item_callers (item_view item.now)) }
{
    match item {
        Item::Single(node) => add_event(callers, node),
        Item::Coregion(nodes) => add_events(callers, nodes.as_slice()),
        Item::Inline(_) => Ok(()),
        Item::Reference(reference) => add_joins(callers, reference),
    }
}

/// The callers of the level of these items. Where it has none it takes no memory.
pub(crate) fn callers_of<'a>(alloc: Global, items: &'a [Item]) -> Result<Vec<Caller<'a>>, NoMemory>
    ensures { IfOk result (λ callers. callers_view callers.items ≡ callers_in (items_view items.now)) }
{
    let mut callers = Vec::new(alloc);
    for item in items {
        add_item(&mut callers, item)?;
    }
    Ok(callers)
}
