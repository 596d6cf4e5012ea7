//! What ties the events of a level at gates: its callers, and the joins of its references. For `charts` and `ties`.

ghost use Rattle.std.specs.List.{flat_map};
ghost use Rattle.std.specs.Prelude.{◌≡◌, ◌++◌, ◌∷◌, [], IfOk, OnOk, map};
ghost use Rattle.msc_meaning.specs.Calls.{calls, event_calls, events_calls, item_calls};
ghost use Rattle.msc_meaning.specs.ItemViews.{items_view};
ghost use Rattle.msc_meaning.specs.Ties.{event_ties, in_order as ordered, item_joins_ties, items_joins_ties, join_tie, joins_ties};
ghost use Rattle.msc_meaning.specs.Views.{item_view, node_view};
ghost use Rattle.msc_tree.specs.declared.reference.Join.{Join};
ghost use Rattle.expanded_charts.specs.GateTies.{end_view, tie_view, ties_view};

use level_surroundings::CalledGates;
use msc_base::{Kind, Name, NoMemory};
use msc_meaning::{EventNode, Item};
use msc_tree::{Join, JoinEnd, Target};
use std::alloc::Global;

/// By what a tie names events.
#[derive(Clone, Copy)]
pub(crate) enum TieEnd<'a> {
    /// By the number of an event of the level.
    Event(u32),
    /// Of a reference or an inline expression of the level, by its name, by a gate.
    Gate(&'a Name, &'a Name),
}

/// A tie: the events of the first end come before those of the second.
#[derive(Clone, Copy)]
pub(crate) struct GateTie<'a> {
    pub(crate) first: TieEnd<'a>,
    pub(crate) second: TieEnd<'a>,
}

/// The tie of two ends; inputs come behind the events of the other end.
fn in_order<'a>(kind: Kind, one: TieEnd<'a>, other: TieEnd<'a>) -> GateTie<'a>
    ensures { tie_view result ≡ ordered kind (end_view one.entry) (end_view other.entry) }
{
    match kind {
        Kind::Input => GateTie {
            first: other,
            second: one,
        },
        Kind::Output
        | Kind::OutputLost
        | Kind::InputFound
        | Kind::Action
        | Kind::TimerStart
        | Kind::TimerStop
        | Kind::Timeout
        | Kind::Create => GateTie {
            first: one,
            second: other,
        },
    }
}

/// Appends the tie of an event, where it calls a gate.
fn push_event<'a>(ties: &mut Vec<GateTie<'a>>, node: &'a EventNode) -> Result<(), NoMemory>
    ensures { OnOk result (ties_view ties.new.items ≡ ties_view ties.old.items ++ event_ties (event_calls (node_view node.now) node.now.event.target)) }
{
    match &node.event.target {
        Target::Gate(name, gate) => {
            let called = TieEnd::Gate(name.name(), gate.name());
            ties.push(in_order(node.event.kind, TieEnd::Event(node.number), called))?;
            Ok(())
        }
        Target::Nobody => Ok(()),
        Target::Env(_) => Ok(()),
        Target::Instance(_) => Ok(()),
    }
}

/// Appends the ties of events.
fn push_events<'a>(ties: &mut Vec<GateTie<'a>>, nodes: &'a [EventNode]) -> Result<(), NoMemory>
    ensures { OnOk result (ties_view ties.new.items ≡ ties_view ties.old.items ++ event_ties (events_calls (map node_view nodes.now))) }
{
    for node in nodes {
        push_event(ties, node)?;
    }
    Ok(())
}

/// Appends the ties of the own events of an item.
fn push_item<'a>(ties: &mut Vec<GateTie<'a>>, item: &'a Item) -> Result<(), NoMemory>
    ensures { OnOk result (ties_view ties.new.items ≡ ties_view ties.old.items ++ event_ties (item_calls (item_view item.now))) }
{
    match item {
        Item::Single(node) => push_event(ties, node),
        Item::Coregion(nodes) => push_events(ties, nodes.as_slice()),
        Item::Inline(_) => Ok(()),
        Item::Reference(_) => Ok(()),
    }
}

/// Appends the ties of the own events of the items of a level.
fn push_callers<'a>(ties: &mut Vec<GateTie<'a>>, items: &'a [Item]) -> Result<(), NoMemory>
    ensures { OnOk result (ties_view ties.new.items ≡ ties_view ties.old.items ++ event_ties (calls (items_view items.now))) }
{
    for item in items {
        push_item(ties, item)?;
    }
    Ok(())
}

/// Appends the tie of a join of the reference of that name, where it leads to another gate of the level.
fn push_join<'a>(
    ties: &mut Vec<GateTie<'a>>,
    level: &CalledGates<'a>,
    own: &'a Name,
    join: &'a Join,
) -> Result<(), NoMemory>
    ensures { OnOk result (ties_view ties.new.items ≡ ties_view ties.old.items ++ join_tie level.now.ends own.now join.now.gate join.now.to) }
{
    match &join.to {
        JoinEnd::Env(_) => Ok(()),
        JoinEnd::Reference(name, gate) => match level.kind_at(own.bytes(), join.gate.bytes()) {
            None => Ok(()),
            Some(kind) => {
                let here = TieEnd::Gate(own, &join.gate);
                ties.push(in_order(kind, here, TieEnd::Gate(name, gate)))?;
                Ok(())
            }
        },
    }
}

/// Appends the ties of the joins of the reference of that name.
fn push_joins<'a>(
    ties: &mut Vec<GateTie<'a>>,
    level: &CalledGates<'a>,
    own: &'a Name,
    joins: &'a [Join],
) -> Result<(), NoMemory>
    ensures { OnOk result (ties_view ties.new.items ≡ ties_view ties.old.items ++ flat_map (λ (j : Join). join_tie level.now.ends own.now j.gate j.to) joins.now) }
{
    for join in joins {
        push_join(ties, level, own, join)?;
    }
    Ok(())
}

/// Appends the ties of the joins of an item.
fn push_item_joins<'a>(
    ties: &mut Vec<GateTie<'a>>,
    level: &CalledGates<'a>,
    item: &'a Item,
) -> Result<(), NoMemory>
    ensures { OnOk result (ties_view ties.new.items ≡ ties_view ties.old.items ++ item_joins_ties level.now.ends (item_view item.now)) }
{
    match item {
        Item::Single(_) => Ok(()),
        Item::Coregion(_) => Ok(()),
        Item::Inline(_) => Ok(()),
        Item::Reference(reference) => match &reference.name {
            None => Ok(()),
            Some(own) => push_joins(ties, level, own, reference.joins.as_slice()),
        },
    }
}

/// Appends the ties of the joins of the items of a level.
fn push_all_joins<'a>(
    ties: &mut Vec<GateTie<'a>>,
    level: &CalledGates<'a>,
    items: &'a [Item],
) -> Result<(), NoMemory>
    ensures { OnOk result (ties_view ties.new.items ≡ ties_view ties.old.items ++ items_joins_ties level.now.ends (items_view items.now)) }
{
    for item in items {
        push_item_joins(ties, level, item)?;
    }
    Ok(())
}

/// What ties the events of a level at gates.
pub(crate) fn gate_ties<'a>(
    alloc: Global,
    level: &CalledGates<'a>,
    items: &'a [Item],
) -> Result<Vec<GateTie<'a>>, NoMemory>
    requires { level.now.calls ≡ calls (items_view items.now) }
    ensures { IfOk result (λ ties. ties_view ties.items ≡ event_ties (calls (items_view items.now)) ++ items_joins_ties level.now.ends (items_view items.now)) }
{
    let mut ties = Vec::new(alloc);
    if level.is_none() {
        return Ok(ties);
    }
    push_callers(&mut ties, items)?;
    push_all_joins(&mut ties, level, items)?;
    Ok(ties)
}
