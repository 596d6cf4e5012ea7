//! Goes through a body once, and lists its levels.

ghost use Rattle.std.specs.Prelude.{◌≡◌, ◌++◌, ◌∷◌, [], IfOk, None, OnOk, Some};
ghost use Rattle.msc_meaning.specs.BodyLevels.{body_levels as levels_of, item_levels, items_levels, levels_from, operands_levels};
ghost use Rattle.msc_meaning.specs.ItemViews.{bodies_view, inline_view, items_view};
ghost use Rattle.msc_meaning.specs.LevelViews.{level_view, levels_view};
ghost use Rattle.msc_meaning.specs.Views.{body_view, item_view};

use crate::{Body, InlineItem, Item};
use msc_base::NoMemory;
use msc_tree::InlineForm;
use std::alloc::Global;

/// A level of a body.
#[derive(Clone, Copy)]
pub struct BodyLevel<'a> {
    /// The form of the inline expression whose operand it is; none, where it is the body itself.
    pub operand_of: Option<InlineForm>,
    /// The level, with what is inside it.
    pub body: &'a Body,
}

/// Appends a level.
fn push<'a>(levels: &mut Vec<BodyLevel<'a>>, level: BodyLevel<'a>) -> Result<(), NoMemory>
    ensures { OnOk result (levels_view levels.new.items ≡ levels_view levels.old.items ++ level_view level.entry ∷ []) }
{
    levels.push(level)?;
    Ok(())
}

/// Adds a level, and those inside it.
#[cycle(levels)]
fn add_level<'a>(
    levels: &mut Vec<BodyLevel<'a>>,
    operand_of: Option<InlineForm>,
    body: &'a Body,
) -> Result<(), NoMemory>
    ensures { OnOk result (levels_view levels.new.items ≡ levels_view levels.old.items ++ levels_from operand_of (body_view body.now)) }
{
    push(levels, BodyLevel { operand_of, body })?;
    add_items(levels, body.items.as_slice())
}

/// Adds the levels inside items.
#[cycle(levels)]
fn add_items<'a>(levels: &mut Vec<BodyLevel<'a>>, items: &'a [Item]) -> Result<(), NoMemory>
    ensures { OnOk result (levels_view levels.new.items ≡ levels_view levels.old.items ++ items_levels (items_view items.now)) }
{
    for item in items {
        add_item(levels, item)?;
    }
    Ok(())
}

/// Adds the levels inside an item.
#[cycle(levels)]
fn add_item<'a>(levels: &mut Vec<BodyLevel<'a>>, item: &'a Item) -> Result<(), NoMemory>
    ensures { OnOk result (levels_view levels.new.items ≡ levels_view levels.old.items ++ item_levels (item_view item.now)) }
{
    match item {
        Item::Inline(inline) => add_inline(levels, inline),
        Item::Single(_) => Ok(()),
        Item::Coregion(_) => Ok(()),
        Item::Reference(_) => Ok(()),
    }
}

/// Adds the levels inside an inline expression.
#[cycle(levels)]
fn add_inline<'a>(levels: &mut Vec<BodyLevel<'a>>, inline: &'a InlineItem) -> Result<(), NoMemory>
    ensures { OnOk result (levels_view levels.new.items ≡ levels_view levels.old.items ++ item_levels (inline_view inline.now)) }
{
    add_operands(levels, inline.form, inline.operands.as_slice())
}

/// Adds the operands of an inline expression.
#[cycle(levels)]
fn add_operands<'a>(
    levels: &mut Vec<BodyLevel<'a>>,
    form: InlineForm,
    operands: &'a [Body],
) -> Result<(), NoMemory>
    ensures { OnOk result (levels_view levels.new.items ≡ levels_view levels.old.items ++ operands_levels form (bodies_view operands.now)) }
{
    for operand in operands {
        add_level(levels, Some(form), operand)?;
    }
    Ok(())
}

/// The levels of a body: its own, and those of its operands at any depth, in the order of the woven list. It fails only for want of
/// memory.
pub fn body_levels<'a>(alloc: Global, body: &'a Body) -> Result<Vec<BodyLevel<'a>>, NoMemory>
    ensures { IfOk result (λ levels. levels_view levels.items ≡ levels_of (body_view body.now)) }
{
    let mut levels = Vec::new(alloc);
    add_level(&mut levels, None, body)?;
    Ok(levels)
}
