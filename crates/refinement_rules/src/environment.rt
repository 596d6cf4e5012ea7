//! The events with the environment as their other end: for `inside`.

ghost use Rattle.std.specs.Option.{option_copied};
ghost use Rattle.std.specs.Prelude.{◌≡◌, map, option_map};
ghost use Rattle.chart_forms.specs.BodyEvents.{events_within, item_within, items_within, operands_within};
ghost use Rattle.msc_meaning.specs.ItemViews.{bodies_view, inline_view, items_view};
ghost use Rattle.msc_meaning.specs.Refinements.{is_env as env_of};
ghost use Rattle.msc_meaning.specs.Views.{body_view, item_view, node_view};
ghost use Rattle.refinement_rules.specs.Judging.{env_within, operand_env, operands_env, some_env};

use crate::plain::either;
use msc_meaning::{Body, EventNode, InlineItem, Item};
use msc_tree::Target;

/// Whether it is the environment.
fn is_env(target: &Target) -> bool
    ensures { result ≡ env_of target.now }
{
    match target {
        Target::Env(_) => true,
        Target::Nobody => false,
        Target::Instance(_) => false,
        Target::Gate(_, _) => false,
    }
}

/// Whether one of the events is one.
fn events_have_env(nodes: &[EventNode]) -> bool
    ensures { result ≡ some_env (map node_view nodes.now) }
{
    let mut one = false;
    for node in nodes {
        one = either(one, is_env(&node.event.target));
    }
    one
}

/// Whether a level has one, or a level inside it.
#[cycle(levels)]
fn level_has_env(body: &Body) -> bool
    ensures { result ≡ some_env (events_within (body_view body.now)) }
{
    items_have_env(body.items.as_slice())
}

/// Whether the items have one.
#[cycle(levels)]
fn items_have_env(items: &[Item]) -> bool
    ensures { result ≡ some_env (items_within (items_view items.now)) }
{
    let mut one = false;
    for item in items {
        one = either(one, item_has_env(item));
    }
    one
}

/// Whether an item has one.
#[cycle(levels)]
fn item_has_env(item: &Item) -> bool
    ensures { result ≡ some_env (item_within (item_view item.now)) }
{
    match item {
        Item::Single(node) => is_env(&node.event.target),
        Item::Coregion(nodes) => events_have_env(nodes.as_slice()),
        Item::Inline(inline) => inline_has_env(inline),
        Item::Reference(_) => false,
    }
}

/// Whether an inline expression has one.
#[cycle(levels)]
fn inline_has_env(inline: &InlineItem) -> bool
    ensures { result ≡ some_env (item_within (inline_view inline.now)) }
{
    operands_have_env(inline.operands.as_slice())
}

/// Whether the operands have one.
#[cycle(levels)]
fn operands_have_env(operands: &[Body]) -> bool
    ensures { result ≡ some_env (operands_within (bodies_view operands.now)) }
{
    let mut one = false;
    for operand in operands {
        one = either(one, level_has_env(operand));
    }
    one
}

/// Whether the body of a chart has one at any depth, where the chart is a basic chart.
pub(crate) fn has_env(body: Option<&Body>) -> bool
    ensures { result ≡ env_within (option_map body_view (option_copied body.entry)) }
{
    match body {
        Some(body) => level_has_env(body),
        None => false,
    }
}

/// Whether an operand of the inline expression has one.
fn operand_of_inline(inline: &InlineItem) -> bool
    ensures { result ≡ operand_env (inline_view inline.now) }
{
    operands_have_env(inline.operands.as_slice())
}

/// Whether an operand of the item has one.
fn operand_of_item(item: &Item) -> bool
    ensures { result ≡ operand_env (item_view item.now) }
{
    match item {
        Item::Inline(inline) => operand_of_inline(inline),
        Item::Single(_) => false,
        Item::Coregion(_) => false,
        Item::Reference(_) => false,
    }
}

/// Whether an operand of the items has one.
pub(crate) fn operands_of_items(items: &[Item]) -> bool
    ensures { result ≡ operands_env (items_view items.now) }
{
    let mut one = false;
    for item in items {
        one = either(one, operand_of_item(item));
    }
    one
}
