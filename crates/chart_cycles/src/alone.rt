//! Whether a body has references: for `cycles`. It takes no memory.

ghost use Rattle.std.specs.Prelude.{◌≡◌, true};
ghost use Rattle.msc_meaning.specs.ItemViews.{bodies_view, inline_view, items_view};
ghost use Rattle.msc_meaning.specs.Views.{body_view, item_view};
ghost use Rattle.chart_cycles.specs.Written.{HasNoReference, HaveNoReference, ItemHasNoReference, OperandsHaveNoReference};

use msc_meaning::{Body, InlineItem, Item};

/// Whether no reference stands in the body.
#[cycle(alone)]
pub(crate) fn has_none(body: &Body) -> bool
    ensures { result ≡ true → HasNoReference (body_view body.now) }
{
    have_none(body.items.as_slice())
}

/// The same of items.
#[cycle(alone)]
fn have_none(items: &[Item]) -> bool
    ensures { result ≡ true → HaveNoReference (items_view items.now) }
{
    for item in items {
        if !item_has_none(item) {
            return false;
        }
    }
    true
}

/// The same of an item.
#[cycle(alone)]
fn item_has_none(item: &Item) -> bool
    ensures { result ≡ true → ItemHasNoReference (item_view item.now) }
{
    match item {
        Item::Inline(inline) => inline_has_none(inline),
        Item::Single(_) => true,
        Item::Coregion(_) => true,
        Item::Reference(_) => false,
    }
}

/// The same of an inline expression.
#[cycle(alone)]
fn inline_has_none(inline: &InlineItem) -> bool
    ensures { result ≡ true → ItemHasNoReference (inline_view inline.now) }
{
    operands_have_none(inline.operands.as_slice())
}

/// The same of operands.
#[cycle(alone)]
fn operands_have_none(operands: &[Body]) -> bool
    ensures { result ≡ true → OperandsHaveNoReference (bodies_view operands.now) }
{
    for operand in operands {
        if !has_none(operand) {
            return false;
        }
    }
    true
}
