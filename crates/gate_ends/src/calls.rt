//! The calls of a level, with the first caller of each gate.

ghost use Rattle.std.specs.List.{find, list_any};
ghost use Rattle.std.specs.Option.{option_copied};
ghost use Rattle.std.specs.Prelude.{◌≡◌, ◌==◌, ◌++◌, ◌∷◌, [], List, ℕ, IfOk, OnOk, length, map, option_map};
ghost use Rattle.gate_ends.specs.CallViews.{call_view, caller_view, calls_view, AreFirst};
ghost use Rattle.msc_meaning.specs.Calls.{Call as PlainCall, Caller as PlainCaller, calls as calls_of, event_calls, events_calls, is_call_of, item_calls, join_calls, joins_calls, own_call};
ghost use Rattle.msc_meaning.specs.ItemViews.{items_view};
ghost use Rattle.msc_meaning.specs.Views.{item_view, node_view};

use indexmap::IndexMap;
use msc_base::{Name, NoMemory};
use msc_meaning::{EventNode, Item};
use msc_tree::{Join, JoinEnd, Target};
use std::alloc::Global;
use std::marker::Model;

/// One that calls a gate.
#[derive(Clone, Copy)]
pub enum Caller<'a> {
    /// An event of the level.
    Event(&'a EventNode),
    /// By a join, of the reference of the first name, where it has one, the gate of the second.
    Gate(Option<&'a [u8]>, &'a [u8]),
}

/// A call of a gate.
#[derive(Clone, Copy)]
struct Call<'a> {
    /// The name of the reference or inline expression.
    name: &'a [u8],
    /// Its gate.
    gate: &'a [u8],
    /// Who calls it.
    by: Caller<'a>,
}

/// A gate of a reference or inline expression.
#[derive(Drop, PartialEq, Eq, Hash)]
struct CalledGate<'a> {
    name: &'a [u8],
    gate: &'a [u8],
}

/// The calls of a level, with the first caller of each gate.
#[derive(Drop)]
pub struct LevelCalls<'a> {
    held: Vec<Call<'a>>,
    first: IndexMap<CalledGate<'a>, Caller<'a>>,
}

impl<'a> Model for LevelCalls<'a> {
    ghost use Rattle.std.specs.Prelude.{List};
    ghost use Rattle.gate_ends.specs.CallViews.{AreFirst, calls_view};
    ghost use Rattle.msc_meaning.specs.Calls.{Call};

    ghost Value = { List Call };

    ghost view = { λ c. calls_view c.held.items };

    ghost invariant = { λ c. AreFirst c.first (calls_view c.held.items) };
}

/// The bytes of the name, where there is one.
fn name_bytes(name: &Option<Name>) -> Option<&[u8]>
    ensures { option_copied result ≡ name.now }
{
    match name {
        Some(name) => Some(name.bytes()),
        None => None,
    }
}

/// Appends a call.
fn push<'a>(calls: &mut Vec<Call<'a>>, call: Call<'a>) -> Result<(), NoMemory>
    ensures { OnOk result (calls_view calls.new.items ≡ calls_view calls.old.items ++ call_view call.entry ∷ []) }
{
    calls.push(call)?;
    Ok(())
}

/// Appends the call of an event, where it calls.
fn add_event<'a>(calls: &mut Vec<Call<'a>>, node: &'a EventNode) -> Result<(), NoMemory>
    ensures { OnOk result (calls_view calls.new.items ≡ calls_view calls.old.items ++ event_calls (node_view node.now) (node_view node.now).event.target) }
{
    match &node.event.target {
        Target::Gate(name, gate) => push(
            calls,
            Call {
                name: name.name().bytes(),
                gate: gate.name().bytes(),
                by: Caller::Event(node),
            },
        ),
        Target::Nobody => Ok(()),
        Target::Env(_) => Ok(()),
        Target::Instance(_) => Ok(()),
    }
}

/// Appends the calls of events.
fn add_events<'a>(calls: &mut Vec<Call<'a>>, nodes: &'a [EventNode]) -> Result<(), NoMemory>
    ensures { OnOk result (calls_view calls.new.items ≡ calls_view calls.old.items ++ events_calls (map node_view nodes.now)) }
{
    for node in nodes {
        add_event(calls, node)?;
    }
    Ok(())
}

/// Appends the call of a gate of a reference, where this has a name.
fn add_own<'a>(
    calls: &mut Vec<Call<'a>>,
    own: Option<&'a [u8]>,
    gate: &'a [u8],
    by: Caller<'a>,
) -> Result<(), NoMemory>
    ensures { OnOk result (calls_view calls.new.items ≡ calls_view calls.old.items ++ own_call (option_copied own.entry) gate.entry.now (caller_view by.entry)) }
{
    match own {
        Some(name) => push(calls, Call { name, gate, by }),
        None => Ok(()),
    }
}

/// Appends the calls of a join of a reference.
fn add_join<'a>(
    calls: &mut Vec<Call<'a>>,
    own: Option<&'a [u8]>,
    join: &'a Join,
) -> Result<(), NoMemory>
    ensures { OnOk result (calls_view calls.new.items ≡ calls_view calls.old.items ++ join_calls (option_copied own.entry) join.now.gate join.now.to) }
{
    match &join.to {
        JoinEnd::Env(_) => Ok(()),
        JoinEnd::Reference(name, to) => {
            let gate = join.gate.bytes();
            push(
                calls,
                Call {
                    name: name.bytes(),
                    gate: to.bytes(),
                    by: Caller::Gate(own, gate),
                },
            )?;
            add_own(
                calls,
                own,
                gate,
                Caller::Gate(Some(name.bytes()), to.bytes()),
            )
        }
    }
}

/// Appends the calls of the joins of a reference.
fn add_joins<'a>(
    calls: &mut Vec<Call<'a>>,
    own: Option<&'a [u8]>,
    joins: &'a [Join],
) -> Result<(), NoMemory>
    ensures { OnOk result (calls_view calls.new.items ≡ calls_view calls.old.items ++ joins_calls (option_copied own.entry) joins.now) }
{
    for join in joins {
        add_join(calls, own, join)?;
    }
    Ok(())
}

/// Appends the calls of an item.
fn add_item<'a>(calls: &mut Vec<Call<'a>>, item: &'a Item) -> Result<(), NoMemory>
    ensures { OnOk result (calls_view calls.new.items ≡ calls_view calls.old.items ++ item_calls (item_view item.now)) }
{
    match item {
        Item::Single(node) => add_event(calls, node),
        Item::Coregion(nodes) => add_events(calls, nodes.as_slice()),
        Item::Inline(_) => Ok(()),
        Item::Reference(reference) => add_joins(
            calls,
            name_bytes(&reference.name),
            reference.joins.as_slice(),
        ),
    }
}

/// The calls of the items of a level.
fn calls_in<'a>(alloc: Global, items: &'a [Item]) -> Result<Vec<Call<'a>>, NoMemory>
    ensures { IfOk result (λ calls. calls_view calls.items ≡ calls_of (items_view items.now)) }
{
    let mut calls = Vec::new(alloc);
    for item in items {
        add_item(&mut calls, item)?;
    }
    Ok(calls)
}

/// The first caller of each gate.
fn first_callers<'a>(
    alloc: Global,
    calls: &[Call<'a>],
) -> Result<IndexMap<CalledGate<'a>, Caller<'a>>, NoMemory>
    ensures { IfOk result (λ first. AreFirst first (calls_view calls.now)) }
{
    let mut first = IndexMap::new(alloc);
    let mut left = calls.len();
    while left > 0 {
        left -= 1;
        let call = calls[left];
        let key = CalledGate {
            name: call.name,
            gate: call.gate,
        };
        first.insert(key, call.by)?;
    }
    Ok(first)
}

impl<'a> LevelCalls<'a> {
    /// The calls of the items of a level. It fails only for want of memory.
    pub fn of(alloc: Global, items: &'a [Item]) -> Result<LevelCalls<'a>, NoMemory>
        ensures { IfOk result (λ calls. calls ≡ calls_of (items_view items.now)) }
    {
        let held = calls_in(alloc, items)?;
        let first = first_callers(alloc, held.as_slice())?;
        Ok(LevelCalls { held, first })
    }

    /// Whether there is no call. It takes no memory.
    pub fn is_empty(&self) -> bool
        ensures { result ≡ (length self.now == 0) }
    {
        self.held.is_empty()
    }

    /// The first caller of the gate, where it has one. It takes no memory.
    pub fn caller(&self, name: &[u8], gate: &[u8]) -> Option<Caller<'a>>
        ensures { option_map caller_view result ≡ option_map (λ (c : PlainCall). c.by) (find (is_call_of name.now gate.now) self.now) }
    {
        self.first.get(&CalledGate { name, gate }).copied()
    }

    /// Whether the gate has a caller. It takes no memory.
    pub fn is_called(&self, name: &[u8], gate: &[u8]) -> bool
        ensures { result ≡ list_any (is_call_of name.now gate.now) self.now }
    {
        self.caller(name, gate).is_some()
    }
}
