//! The names of the charts that a body refers to.

ghost use Rattle.std.specs.Prelude.{◌≡◌, ◌++◌, ◌∷◌, [], IfOk, OnOk, map};
ghost use Rattle.gate_ends.specs.FoundEnds.{item_names, items_names, level_names, operands_names};
ghost use Rattle.gate_ends.specs.NameViews.{names_view};
ghost use Rattle.msc_meaning.specs.InnerEvents.{charts_in, charts_in_all};
ghost use Rattle.msc_meaning.specs.ItemViews.{bodies_view, inline_view, items_view};
ghost use Rattle.msc_meaning.specs.Views.{body_view, item_view};
ghost use Rattle.msc_tree.specs.Expressions.{expressions};
ghost use Rattle.msc_tree.specs.Views.{expression_view};

use msc_base::{Name, NoMemory};
use msc_meaning::{Body, InlineItem, Item};
use msc_tree::RefExpr;
use std::alloc::Global;

/// Appends a name.
fn push<'a>(names: &mut Vec<&'a Name>, name: &'a Name) -> Result<(), NoMemory>
    ensures { OnOk result (names_view names.new.items ≡ names_view names.old.items ++ name.entry.now ∷ []) }
{
    names.push(name)?;
    Ok(())
}

/// Adds the names in an expression.
#[cycle(expression_names)]
fn add_expression<'a>(names: &mut Vec<&'a Name>, expression: &'a RefExpr) -> Result<(), NoMemory>
    ensures { OnOk result (names_view names.new.items ≡ names_view names.old.items ++ charts_in (expression_view expression.now)) }
{
    match expression {
        RefExpr::Empty => Ok(()),
        RefExpr::Chart(name) => push(names, name),
        RefExpr::Alt(parts) => add_expressions(names, parts.as_slice()),
        RefExpr::Par(parts) => add_expressions(names, parts.as_slice()),
        RefExpr::Seq(parts) => add_expressions(names, parts.as_slice()),
        RefExpr::Opt(part) => add_expression(names, part),
        RefExpr::Loop(_, _, part) => add_expression(names, part),
    }
}

/// Adds the names in the parts of an expression.
#[cycle(expression_names)]
fn add_expressions<'a>(names: &mut Vec<&'a Name>, parts: &'a [RefExpr]) -> Result<(), NoMemory>
    ensures { OnOk result (names_view names.new.items ≡ names_view names.old.items ++ charts_in_all (expressions (map expression_view parts.now))) }
{
    for part in parts {
        add_expression(names, part)?;
    }
    Ok(())
}

/// Adds the names in a level.
#[cycle(level_names)]
fn add_level<'a>(names: &mut Vec<&'a Name>, body: &'a Body) -> Result<(), NoMemory>
    ensures { OnOk result (names_view names.new.items ≡ names_view names.old.items ++ level_names (body_view body.now)) }
{
    add_items(names, body.items.as_slice())
}

/// Adds the names in items.
#[cycle(level_names)]
fn add_items<'a>(names: &mut Vec<&'a Name>, items: &'a [Item]) -> Result<(), NoMemory>
    ensures { OnOk result (names_view names.new.items ≡ names_view names.old.items ++ items_names (items_view items.now)) }
{
    for item in items {
        add_item(names, item)?;
    }
    Ok(())
}

/// Adds the names in an item.
#[cycle(level_names)]
fn add_item<'a>(names: &mut Vec<&'a Name>, item: &'a Item) -> Result<(), NoMemory>
    ensures { OnOk result (names_view names.new.items ≡ names_view names.old.items ++ item_names (item_view item.now)) }
{
    match item {
        Item::Inline(inline) => add_inline(names, inline),
        Item::Reference(reference) => add_expression(names, &reference.expr),
        Item::Single(_) => Ok(()),
        Item::Coregion(_) => Ok(()),
    }
}

/// Adds the names in an inline expression.
#[cycle(level_names)]
fn add_inline<'a>(names: &mut Vec<&'a Name>, inline: &'a InlineItem) -> Result<(), NoMemory>
    ensures { OnOk result (names_view names.new.items ≡ names_view names.old.items ++ item_names (inline_view inline.now)) }
{
    add_operands(names, inline.operands.as_slice())
}

/// Adds the names in operands.
#[cycle(level_names)]
fn add_operands<'a>(names: &mut Vec<&'a Name>, operands: &'a [Body]) -> Result<(), NoMemory>
    ensures { OnOk result (names_view names.new.items ≡ names_view names.old.items ++ operands_names (bodies_view operands.now)) }
{
    for operand in operands {
        add_level(names, operand)?;
    }
    Ok(())
}

/// The names of the charts that a body refers to, in the order of the woven list.
pub fn chart_names<'a>(alloc: Global, body: &'a Body) -> Result<Vec<&'a Name>, NoMemory>
    ensures { IfOk result (λ names. names_view names.items ≡ level_names (body_view body.now)) }
{
    let mut names = Vec::new(alloc);
    add_level(&mut names, body)?;
    Ok(names)
}
