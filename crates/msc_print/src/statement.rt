//! Prints statements, items and inline expressions: for `chart`.

ghost use Rattle.std.specs.Prelude.{◌≡◌, OnOk, ◌∷◌, map};
ghost use Rattle.msc_print.specs.Pages.{put_all};
ghost use Rattle.msc_print.specs.StatementWords.{begun_words, bounds_in, column_words, covered_words, ended_words, item_words, items_words, naming_words, operand_words, operands_words, statement_words, statements_words, what_words};
ghost use Rattle.msc_print.specs.Words.{end_words, separator};
ghost use Rattle.msc_tree.specs.Statements.{items as item_tree, operands as operand_tree, statements as statement_tree};
ghost use Rattle.msc_tree.specs.Views.{form_view, inline_view, item_view, operand_view, statement_view};

use crate::decl::{decl, heading};
use crate::event::{coregion, event};
use crate::expression::bounds;
use crate::page::Page;
use crate::parts::end;
use crate::shared::{condition, left, reference, shared};
use msc_base::{Name, NoMemory};
use msc_tree::{Cover, Decl, InlineForm, RawForm, RawInline, RawItem, RawOperand, Statement};
use std::slice;

/// Writes the bounds of a loop.
fn bounds_of(
    page: &mut Page,
    form: InlineForm,
    lower: u64,
    upper: Option<u64>,
) -> Result<(), NoMemory>
    ensures { OnOk result (page.new ≡ put_all page.old (bounds_in form lower upper)) }
{
    match form {
        InlineForm::Loop => bounds(page, lower, upper),
        _ => Ok(()),
    }
}

/// Writes the name of an inline expression, where it has one.
fn naming(page: &mut Page, name: &Option<Name>) -> Result<(), NoMemory>
    ensures { OnOk result (page.new ≡ put_all page.old (naming_words name.now)) }
{
    match name {
        Some(known) => page.put(known.bytes()),
        None => Ok(()),
    }
}

#[tactic(auto, using(crate::proofs::Putting::put_append))]
/// Writes what stands behind `begin`, in front of the operands.
fn begun(page: &mut Page, name: &Option<Name>, sharers: &Option<Cover>) -> Result<(), NoMemory>
    ensures { OnOk result (page.new ≡ put_all page.old (begun_words name.now sharers.now)) }
{
    page.word("begin")?;
    naming(page, name)?;
    shared(page, sharers)?;
    end(page)
}

/// Writes the form's word in front of an operand that isn't the first.
fn between_operands(page: &mut Page, first: bool, word: &str) -> Result<(), NoMemory>
    ensures { OnOk result (page.new ≡ put_all page.old (separator first (word.now ∷ end_words))) }
{
    if first {
        return Ok(());
    }
    page.word(word)?;
    end(page)
}

/// Writes that an instance ends.
fn ended(page: &mut Page, name: &Name) -> Result<(), NoMemory>
    ensures { OnOk result (page.new ≡ put_all page.old (ended_words name.now)) }
{
    page.put(name.bytes())?;
    page.word(":")?;
    page.word("endinstance")?;
    end(page)
}

/// Writes an item.
#[cycle(statements)]
fn item(page: &mut Page, item: &RawItem) -> Result<(), NoMemory>
    ensures { OnOk result (page.new ≡ put_all page.old (item_words (item_view item.now))) }
{
    form(page, &item.form)
}

/// Writes what an item is.
#[cycle(statements)]
fn form(page: &mut Page, form: &RawForm) -> Result<(), NoMemory>
    ensures { OnOk result (page.new ≡ put_all page.old (what_words (form_view form.now))) }
{
    match form {
        RawForm::Single(held) => event(page, held),
        RawForm::Coregion(list) => coregion(page, list.as_slice()),
        RawForm::Condition(list, sharers) => condition(page, list, sharers),
        RawForm::Inline(held) => inline(page, held),
        RawForm::Reference(held) => reference(page, held),
        RawForm::Stop => {
            page.word("stop")?;
            end(page)
        }
    }
}

#[tactic(auto, using(crate::proofs::Endings::inline_done))]
/// Writes an inline expression.
#[cycle(statements)]
fn inline(page: &mut Page, inline: &RawInline) -> Result<(), NoMemory>
    ensures { OnOk result (page.new ≡ put_all page.old (what_words (inline_view inline.now))) }
{
    let word = inline.form.word();
    page.word(word)?;
    bounds_of(page, inline.form, inline.lower, inline.upper)?;
    begun(page, &inline.name, &inline.shared)?;
    operands(page, inline.operands.as_slice(), word)?;
    page.word(word)?;
    page.word("end")?;
    end(page)
}

#[tactic(auto, using(crate::proofs::Putting::operand_step))]
/// Writes operands, with the form's word between them.
#[cycle(statements)]
fn operands(page: &mut Page, list: &[RawOperand], word: &str) -> Result<(), NoMemory>
    ensures { OnOk result (page.new ≡ put_all page.old (operands_words word.now (operand_tree (map operand_view list.now)))) }
{
    let mut first = true;
    for held in list {
        between_operands(page, first, word)?;
        operand(page, held)?;
        first = false;
    }
    Ok(())
}

/// Writes an operand.
#[cycle(statements)]
fn operand(page: &mut Page, operand: &RawOperand) -> Result<(), NoMemory>
    ensures { OnOk result (page.new ≡ put_all page.old (operand_words (operand_view operand.now))) }
{
    match operand {
        RawOperand::Column(list) => items(page, list.as_slice()),
        RawOperand::Covered(list) => statements(page, list.as_slice()),
    }
}

#[tactic(auto, using(crate::proofs::Putting::item_step))]
/// Writes items.
#[cycle(statements)]
fn items(page: &mut Page, list: &[RawItem]) -> Result<(), NoMemory>
    ensures { OnOk result (page.new ≡ put_all page.old (items_words (item_tree (map item_view list.now)))) }
{
    for held in list {
        item(page, held)?;
    }
    Ok(())
}

#[tactic(auto, using(crate::proofs::Putting::statement_step))]
/// Writes statements.
#[cycle(statements)]
pub fn statements(page: &mut Page, list: &[Statement]) -> Result<(), NoMemory>
    ensures { OnOk result (page.new ≡ put_all page.old (statements_words (statement_tree (map statement_view list.now)))) }
{
    for held in list {
        statement(page, held)?;
    }
    Ok(())
}

/// Writes a statement.
#[cycle(statements)]
fn statement(page: &mut Page, statement: &Statement) -> Result<(), NoMemory>
    ensures { OnOk result (page.new ≡ put_all page.old (statement_words (statement_view statement.now))) }
{
    match statement {
        Statement::Column(held, list) => column(page, held.decl(), list.as_slice()),
        Statement::One(cover, held) => covered(page, cover, slice::from_ref(held)),
        Statement::Covered(cover, list) => covered(page, cover, list.as_slice()),
        Statement::Heading(held) => heading(page, held.decl()),
        Statement::Ended(name) => ended(page, name),
    }
}

#[tactic(auto, using(crate::proofs::Putting::put_append))]
/// Writes the column of an instance.
#[cycle(statements)]
fn column(page: &mut Page, held: &Decl, list: &[RawItem]) -> Result<(), NoMemory>
    ensures { OnOk result (page.new ≡ put_all page.old (column_words held.now (items_words (item_tree (map item_view list.now))))) }
{
    page.word("instance")?;
    decl(page, held)?;
    end(page)?;
    items(page, list)?;
    page.word("endinstance")?;
    end(page)
}

#[tactic(auto, using(crate::proofs::Putting::put_append))]
/// Writes items of covered instances.
#[cycle(statements)]
fn covered(page: &mut Page, cover: &Cover, list: &[RawItem]) -> Result<(), NoMemory>
    ensures { OnOk result (page.new ≡ put_all page.old (covered_words cover.now (items_words (item_tree (map item_view list.now))))) }
{
    left(page, cover)?;
    page.word(":")?;
    items(page, list)
}
