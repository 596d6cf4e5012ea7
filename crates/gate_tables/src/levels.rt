//! The facts of the gates of levels, by those of the charts that they name: one recursion through operands. For `tables` and `named`.

ghost use Rattle.std.specs.Option.{option_copied};
ghost use Rattle.std.specs.Prelude.{◌≡◌, List, ℕ, IfOk, OnOk, Some, map, true};
ghost use Rattle.gate_tables.specs.FactMaps.{at_gate};
ghost use Rattle.gate_tables.specs.KeptMaps.{kept_of};
ghost use Rattle.gate_tables.specs.KnownFacts.{event_known, events_known, expression_known, gate_named, goes_on, inline_part_known, is_par, item_known, items_known, joined_known, joins_known, level_known, operands_known, turned_known};
ghost use Rattle.gate_tables.specs.Together.{facts_unless, together};
ghost use Rattle.msc_meaning.specs.Calls.{is_called};
ghost use Rattle.msc_meaning.specs.ItemViews.{bodies_view, inline_view, items_view};
ghost use Rattle.msc_meaning.specs.Views.{body_view, item_view, node_view};
ghost use Rattle.msc_tree.specs.Views.{expression_view};

use crate::expressions::expression_seen;
use crate::fact_map::{FactMap, SeenGate, joined, looped};
use crate::facts::SeenFacts;
use crate::kept::KeptMaps;
use gate_ends::LevelCalls;
use msc_base::{Name, NoMemory};
use msc_meaning::{Body, EventNode, InlineItem, Item, ReferenceItem};
use msc_tree::{InlineForm, Join, JoinEnd, Target};
use std::alloc::Global;

/// The gate of the chart that an event names, where it names one.
fn gate_of(target: &Target) -> Option<&[u8]>
    ensures { option_copied result ≡ gate_named target.now }
{
    match target {
        Target::Env(Some(gate)) => Some(gate.name().bytes()),
        Target::Env(None) => None,
        Target::Nobody => None,
        Target::Instance(_) => None,
        Target::Gate(_, _) => None,
    }
}

/// Puts the facts of an event in front.
fn add_event<'a>(made: &mut FactMap<'a>, node: &'a EventNode) -> Result<(), NoMemory>
    ensures { OnOk result ((g : List ℕ) → at_gate made.new g ≡ together true (event_known (node_view node.now) g) (at_gate made.old g)) }
{
    match gate_of(&node.event.target) {
        Some(gate) => {
            let facts = SeenFacts::of_event(node);
            made.add_in_front(SeenGate { gate, facts }, true)
        }
        None => Ok(()),
    }
}

/// The facts of an event.
fn event_seen<'a>(alloc: Global, node: &'a EventNode) -> Result<FactMap<'a>, NoMemory>
    ensures { IfOk result (λ made. (g : List ℕ) → at_gate made g ≡ event_known (node_view node.now) g) }
{
    let mut made = FactMap::new(alloc);
    add_event(&mut made, node)?;
    Ok(made)
}

/// The facts of the events of a coregion.
fn events_seen<'a>(alloc: Global, nodes: &'a [EventNode]) -> Result<FactMap<'a>, NoMemory>
    ensures { IfOk result (λ made. (g : List ℕ) → at_gate made g ≡ events_known (map node_view nodes.now) g) }
{
    let mut made = FactMap::new(alloc);
    let mut left = nodes.len();
    while left > 0 {
        left -= 1;
        add_event(&mut made, &nodes[left])?;
    }
    Ok(made)
}

/// Puts in front what a join hands on of the gates of its reference.
fn add_join<'a>(made: &mut FactMap<'a>, inner: &FactMap<'a>, join: &'a Join) -> Result<(), NoMemory>
    ensures { OnOk result ((g : List ℕ) → at_gate made.new g ≡ together true (joined_known (at_gate inner.now) join.now.gate join.now.to g) (at_gate made.old g)) }
{
    match &join.to {
        JoinEnd::Env(to) => match inner.at(join.gate.bytes()) {
            Some(facts) => {
                let gate = to.bytes();
                made.add_in_front(SeenGate { gate, facts }, true)
            }
            None => Ok(()),
        },
        JoinEnd::Reference(_, _) => Ok(()),
    }
}

/// What joins hand on of the gates of their reference.
fn joins_seen<'a>(
    alloc: Global,
    inner: &FactMap<'a>,
    joins: &'a [Join],
) -> Result<FactMap<'a>, NoMemory>
    ensures { IfOk result (λ made. (g : List ℕ) → at_gate made g ≡ joins_known (at_gate inner.now) joins.now g) }
{
    let mut made = FactMap::new(alloc);
    let mut left = joins.len();
    while left > 0 {
        left -= 1;
        add_join(&mut made, inner, &joins[left])?;
    }
    Ok(made)
}

/// What a reference hands on of its gates. Where it has no joins its charts aren't looked at.
fn reference_seen<'a>(
    alloc: Global,
    known: &'a KeptMaps,
    reference: &'a ReferenceItem,
) -> Result<FactMap<'a>, NoMemory>
    ensures { IfOk result (λ made. (g : List ℕ) → at_gate made g ≡ joins_known (expression_known (kept_of known.now) (expression_view reference.now.expr)) reference.now.joins g) }
{
    if reference.joins.len() == 0 {
        return Ok(FactMap::new(alloc));
    }
    let inner = expression_seen(alloc, known, &reference.expr)?;
    joins_seen(alloc, &inner, reference.joins.as_slice())
}

/// Whether all operands of such an inline expression are done.
fn is_par(form: InlineForm) -> bool
    ensures { result ≡ is_par form }
{
    match form {
        InlineForm::Par => true,
        InlineForm::Alt => false,
        InlineForm::Opt => false,
        InlineForm::Loop => false,
        InlineForm::Exc => false,
    }
}

/// Whether what stands behind the item is done too.
fn goes_on(item: &Item) -> bool
    ensures { result ≡ goes_on (item_view item.now) }
{
    match item {
        Item::Inline(inline) => inline_goes_on(inline),
        Item::Single(_) => true,
        Item::Coregion(_) => true,
        Item::Reference(_) => true,
    }
}

/// Whether what stands behind the inline expression is done too.
fn inline_goes_on(inline: &InlineItem) -> bool
    ensures { result ≡ goes_on (inline_view inline.now) }
{
    match inline.form {
        InlineForm::Exc => false,
        InlineForm::Alt => true,
        InlineForm::Opt => true,
        InlineForm::Par => true,
        InlineForm::Loop => true,
    }
}

/// The facts of operands as those of their inline expression.
fn turned<'a>(alloc: Global, form: InlineForm, made: FactMap<'a>) -> Result<FactMap<'a>, NoMemory>
    ensures { IfOk result (λ turned. (g : List ℕ) → at_gate turned g ≡ turned_known form (at_gate made.entry g)) }
{
    match form {
        InlineForm::Loop => looped(alloc, made),
        InlineForm::Alt => Ok(made),
        InlineForm::Opt => Ok(made),
        InlineForm::Par => Ok(made),
        InlineForm::Exc => Ok(made),
    }
}

/// The facts of the gates of that name that have no caller.
fn uncalled_of<'a>(
    alloc: Global,
    calls: &LevelCalls<'_>,
    name: &Name,
    mut of: FactMap<'a>,
) -> Result<FactMap<'a>, NoMemory>
    ensures { IfOk result (λ made. (g : List ℕ) → at_gate made g ≡ facts_unless (is_called calls.now (Some name.now) g) (at_gate of.entry g)) }
{
    let mut made = FactMap::new(alloc);
    while let Some(seen) = of.pop() {
        if !calls.is_called(name.bytes(), seen.gate) {
            made.set(seen.gate, seen.facts)?;
        }
    }
    Ok(made)
}

/// The facts of the gates that have no caller.
fn uncalled<'a>(
    alloc: Global,
    calls: &LevelCalls<'_>,
    name: &Option<Name>,
    of: FactMap<'a>,
) -> Result<FactMap<'a>, NoMemory>
    ensures { IfOk result (λ made. (g : List ℕ) → at_gate made g ≡ facts_unless (is_called calls.now name.now g) (at_gate of.entry g)) }
{
    match name {
        Some(name) => uncalled_of(alloc, calls, name, of),
        None => Ok(of),
    }
}

/// The facts of a level.
#[cycle(levels)]
pub fn level_seen<'a>(
    alloc: Global,
    known: &'a KeptMaps,
    body: &'a Body,
) -> Result<FactMap<'a>, NoMemory>
    ensures { IfOk result (λ made. (g : List ℕ) → at_gate made g ≡ level_known (kept_of known.now) (body_view body.now) g) }
{
    let items = body.items.as_slice();
    let calls = LevelCalls::of(alloc, items)?;
    items_seen(alloc, known, &calls, items)
}

/// The facts of the items of a level.
#[cycle(levels)]
fn items_seen<'a>(
    alloc: Global,
    known: &'a KeptMaps,
    calls: &LevelCalls<'_>,
    items: &'a [Item],
) -> Result<FactMap<'a>, NoMemory>
    ensures { IfOk result (λ made. (g : List ℕ) → at_gate made g ≡ items_known (kept_of known.now) calls.now (items_view items.now) g) }
{
    let mut made = FactMap::new(alloc);
    let mut left = items.len();
    while left > 0 {
        left -= 1;
        let item = &items[left];
        let first = item_seen(alloc, known, calls, item)?;
        made = joined(first, made, goes_on(item))?;
    }
    Ok(made)
}

/// The facts of an item.
#[cycle(levels)]
fn item_seen<'a>(
    alloc: Global,
    known: &'a KeptMaps,
    calls: &LevelCalls<'_>,
    item: &'a Item,
) -> Result<FactMap<'a>, NoMemory>
    ensures { IfOk result (λ made. (g : List ℕ) → at_gate made g ≡ item_known (kept_of known.now) calls.now (item_view item.now) g) }
{
    match item {
        Item::Single(node) => event_seen(alloc, node),
        Item::Coregion(nodes) => events_seen(alloc, nodes.as_slice()),
        Item::Inline(inline) => {
            let of = inline_seen(alloc, known, inline)?;
            uncalled(alloc, calls, &inline.name, of)
        }
        Item::Reference(reference) => reference_seen(alloc, known, reference),
    }
}

/// The facts of an inline expression, of all its gates.
#[cycle(levels)]
pub fn inline_seen<'a>(
    alloc: Global,
    known: &'a KeptMaps,
    inline: &'a InlineItem,
) -> Result<FactMap<'a>, NoMemory>
    ensures { IfOk result (λ made. (g : List ℕ) → at_gate made g ≡ inline_part_known (kept_of known.now) (inline_view inline.now) g) }
{
    let form = inline.form;
    let of = operands_seen(alloc, known, form, inline.operands.as_slice())?;
    turned(alloc, form, of)
}

/// The facts of the operands of an inline expression.
#[cycle(levels)]
fn operands_seen<'a>(
    alloc: Global,
    known: &'a KeptMaps,
    form: InlineForm,
    operands: &'a [Body],
) -> Result<FactMap<'a>, NoMemory>
    ensures { IfOk result (λ made. (g : List ℕ) → at_gate made g ≡ operands_known (kept_of known.now) form (bodies_view operands.now) g) }
{
    let mut made = FactMap::new(alloc);
    let mut left = operands.len();
    while left > 0 {
        left -= 1;
        let operand = level_seen(alloc, known, &operands[left])?;
        made = joined(operand, made, is_par(form))?;
    }
    Ok(made)
}
