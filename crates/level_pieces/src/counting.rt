//! How many events there are at any depth: for `pieces`, which numbers them.

ghost use Rattle.std.specs.Prelude.{◌≡◌, ◌+◌, IfOk, map};
ghost use Rattle.msc_meaning.specs.Pieces.{form_count as count_of_form, items_count as count_of_items, operand_count as count_of_operand, operands_count as count_of_operands, statement_count as count_of_statement, statements_count as count_of_statements};
ghost use Rattle.msc_tree.specs.Statements.{items as item_tree, operands as operand_tree, statements as statement_tree};
ghost use Rattle.msc_tree.specs.Views.{form_view, inline_view, item_view, operand_view, statement_view};

use msc_base::{NoMemory, number_of};
use msc_tree::{RawForm, RawInline, RawItem, RawOperand, Statement};
use std::slice;

/// The sum; a larger one than 32 bits hold would want more memory than there is.
pub fn sum_of(a: u32, b: u32) -> Result<u32, NoMemory>
    ensures { IfOk result (λ sum. sum ≡ a + b) }
{
    a.checked_add(b).ok_or(NoMemory)
}

/// The events of items.
#[cycle(counts)]
pub fn items_count(list: &[RawItem]) -> Result<u32, NoMemory>
    ensures { IfOk result (λ count. count ≡ count_of_items (item_tree (map item_view list.now))) }
{
    let mut total = 0u32;
    for held in list {
        let more = form_count(&held.form)?;
        total = sum_of(total, more)?;
    }
    Ok(total)
}

/// The events of an item.
#[cycle(counts)]
pub fn form_count(form: &RawForm) -> Result<u32, NoMemory>
    ensures { IfOk result (λ count. count ≡ count_of_form (form_view form.now)) }
{
    match form {
        RawForm::Single(_) => Ok(1),
        RawForm::Coregion(list) => number_of(list.len()),
        RawForm::Condition(_, _) => Ok(0),
        RawForm::Inline(held) => inline_count(held),
        RawForm::Reference(_) => Ok(0),
        RawForm::Stop => Ok(0),
    }
}

/// The events of an inline expression.
#[cycle(counts)]
fn inline_count(inline: &RawInline) -> Result<u32, NoMemory>
    ensures { IfOk result (λ count. count ≡ count_of_form (inline_view inline.now)) }
{
    operands_count(inline.operands.as_slice())
}

/// The events of operands.
#[cycle(counts)]
fn operands_count(list: &[RawOperand]) -> Result<u32, NoMemory>
    ensures { IfOk result (λ count. count ≡ count_of_operands (operand_tree (map operand_view list.now))) }
{
    let mut total = 0u32;
    for held in list {
        let more = operand_count(held)?;
        total = sum_of(total, more)?;
    }
    Ok(total)
}

/// The events of an operand.
#[cycle(counts)]
fn operand_count(operand: &RawOperand) -> Result<u32, NoMemory>
    ensures { IfOk result (λ count. count ≡ count_of_operand (operand_view operand.now)) }
{
    match operand {
        RawOperand::Column(list) => items_count(list.as_slice()),
        RawOperand::Covered(list) => statements_count(list.as_slice()),
    }
}

/// The events of a statement.
#[cycle(counts)]
fn statement_count(statement: &Statement) -> Result<u32, NoMemory>
    ensures { IfOk result (λ count. count ≡ count_of_statement (statement_view statement.now)) }
{
    match statement {
        Statement::Column(_, list) => items_count(list.as_slice()),
        Statement::One(_, held) => items_count(slice::from_ref(held)),
        Statement::Covered(_, list) => items_count(list.as_slice()),
        Statement::Heading(_) => Ok(0),
        Statement::Ended(_) => Ok(0),
    }
}

/// The events of statements.
#[cycle(counts)]
fn statements_count(list: &[Statement]) -> Result<u32, NoMemory>
    ensures { IfOk result (λ count. count ≡ count_of_statements (statement_tree (map statement_view list.now))) }
{
    let mut total = 0u32;
    for held in list {
        let more = statement_count(held)?;
        total = sum_of(total, more)?;
    }
    Ok(total)
}
