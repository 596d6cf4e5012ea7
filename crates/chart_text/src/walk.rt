//! Goes through a chart once, and lists what stands in its text.

ghost use Rattle.std.specs.Prelude.{◌≡◌, ◌++◌, ◌∷◌, [], IfOk, OnOk, map};
ghost use Rattle.chart_text.specs.PassageViews.{passage_view, scope_view, standing_view, text_view};
ghost use Rattle.chart_text.specs.Texts.{a_head, chart_text as text_of, content_text, form_text, inside as inside_of, items_text, operand_held, operands_text, statement_held, statements_text};
ghost use Rattle.msc_tree.specs.Statements.{items as item_tree, operands as operand_tree, statements as statement_tree};
ghost use Rattle.msc_tree.specs.Views.{chart_view, content_view, form_view, inline_view, item_view, operand_view, statement_view};

use crate::passage::{Passage, Scope, Side, Standing};
use msc_base::NoMemory;
use msc_tree::{
    Content, Cover, Decl, RawChart, RawForm, RawInline, RawItem, RawOperand, Statement,
};
use std::alloc::Global;
use std::slice;

/// The standing of what the operands of an inline expression hold. More depth than 32 bits hold would want more memory than there is.
fn inside<'a>(standing: Standing<'a>, shared: &'a Option<Cover>) -> Result<Standing<'a>, NoMemory>
    ensures { IfOk result (λ inner. standing_view inner ≡ inside_of (standing_view standing.entry) shared.now) }
{
    let Some(depth) = standing.depth.checked_add(1) else {
        return Err(NoMemory);
    };
    Ok(Standing {
        depth,
        side: standing.side,
        scope: standing.scope.covered(standing.side.own(), shared),
    })
}

/// Appends a passage.
fn push<'a>(text: &mut Vec<Passage<'a>>, passage: Passage<'a>) -> Result<(), NoMemory>
    ensures { OnOk result (text_view text.new.items ≡ text_view text.old.items ++ passage_view passage.entry ∷ []) }
{
    text.push(passage)?;
    Ok(())
}

/// Adds the declarations of the heads.
fn heads<'a>(text: &mut Vec<Passage<'a>>, list: &'a [Decl]) -> Result<(), NoMemory>
    ensures { OnOk result (text_view text.new.items ≡ text_view text.old.items ++ map a_head list.now) }
{
    for decl in list {
        push(text, Passage::Head(decl))?;
    }
    Ok(())
}

/// Adds items.
#[cycle(text)]
fn items<'a>(
    text: &mut Vec<Passage<'a>>,
    standing: Standing<'a>,
    list: &'a [RawItem],
) -> Result<(), NoMemory>
    ensures { OnOk result (text_view text.new.items ≡ text_view text.old.items ++ items_text (standing_view standing.entry) (item_tree (map item_view list.now))) }
{
    for held in list {
        push(text, Passage::Item(standing, held))?;
        form(text, standing, &held.form)?;
    }
    Ok(())
}

/// Adds what stands inside an item.
#[cycle(text)]
fn form<'a>(
    text: &mut Vec<Passage<'a>>,
    standing: Standing<'a>,
    form: &'a RawForm,
) -> Result<(), NoMemory>
    ensures { OnOk result (text_view text.new.items ≡ text_view text.old.items ++ form_text (standing_view standing.entry) (form_view form.now)) }
{
    match form {
        RawForm::Inline(held) => inline(text, standing, held),
        RawForm::Single(_) => Ok(()),
        RawForm::Coregion(_) => Ok(()),
        RawForm::Condition(_, _) => Ok(()),
        RawForm::Reference(_) => Ok(()),
        RawForm::Stop => Ok(()),
    }
}

/// Adds the operands of an inline expression.
#[cycle(text)]
fn inline<'a>(
    text: &mut Vec<Passage<'a>>,
    standing: Standing<'a>,
    inline: &'a RawInline,
) -> Result<(), NoMemory>
    ensures { OnOk result (text_view text.new.items ≡ text_view text.old.items ++ form_text (standing_view standing.entry) (inline_view inline.now)) }
{
    let inner = inside(standing, &inline.shared)?;
    operands(text, inner, inline.operands.as_slice())
}

/// Adds operands.
#[cycle(text)]
fn operands<'a>(
    text: &mut Vec<Passage<'a>>,
    standing: Standing<'a>,
    list: &'a [RawOperand],
) -> Result<(), NoMemory>
    ensures { OnOk result (text_view text.new.items ≡ text_view text.old.items ++ operands_text (standing_view standing.entry) (operand_tree (map operand_view list.now))) }
{
    for held in list {
        push(text, Passage::Operand(standing, held))?;
        operand(text, standing, held)?;
    }
    Ok(())
}

/// Adds what an operand holds.
#[cycle(text)]
fn operand<'a>(
    text: &mut Vec<Passage<'a>>,
    standing: Standing<'a>,
    operand: &'a RawOperand,
) -> Result<(), NoMemory>
    ensures { OnOk result (text_view text.new.items ≡ text_view text.old.items ++ operand_held (standing_view standing.entry) (operand_view operand.now)) }
{
    match operand {
        RawOperand::Column(list) => items(text, standing, list.as_slice()),
        RawOperand::Covered(list) => {
            statements(text, standing.depth, standing.scope, list.as_slice())
        }
    }
}

/// Adds what a statement holds.
#[cycle(text)]
fn statement<'a>(
    text: &mut Vec<Passage<'a>>,
    depth: u32,
    scope: Scope<'a>,
    statement: &'a Statement,
) -> Result<(), NoMemory>
    ensures { OnOk result (text_view text.new.items ≡ text_view text.old.items ++ statement_held depth (scope_view scope.entry) (statement_view statement.now)) }
{
    match statement {
        Statement::Column(held, list) => {
            let side = Side::InColumn(&held.decl().name);
            items(text, Standing { depth, side, scope }, list.as_slice())
        }
        Statement::One(cover, held) => {
            let side = Side::behind(scope, cover);
            items(text, Standing { depth, side, scope }, slice::from_ref(held))
        }
        Statement::Covered(cover, list) => {
            let side = Side::behind(scope, cover);
            items(text, Standing { depth, side, scope }, list.as_slice())
        }
        Statement::Heading(_) => Ok(()),
        Statement::Ended(_) => Ok(()),
    }
}

/// Adds statements.
#[cycle(text)]
fn statements<'a>(
    text: &mut Vec<Passage<'a>>,
    depth: u32,
    scope: Scope<'a>,
    list: &'a [Statement],
) -> Result<(), NoMemory>
    ensures { OnOk result (text_view text.new.items ≡ text_view text.old.items ++ statements_text depth (scope_view scope.entry) (statement_tree (map statement_view list.now))) }
{
    for held in list {
        push(text, Passage::Statement(depth, scope, held))?;
        statement(text, depth, scope, held)?;
    }
    Ok(())
}

/// Adds what a chart holds.
fn content<'a>(text: &mut Vec<Passage<'a>>, content: &'a Content) -> Result<(), NoMemory>
    ensures { OnOk result (text_view text.new.items ≡ text_view text.old.items ++ content_text (content_view content.now)) }
{
    match content {
        Content::Events(list) => statements(text, 0, Scope::Whole, list.as_slice()),
        Content::Graph(_) => Ok(()),
    }
}

/// The text of a chart, passage by passage. It fails only for want of memory.
pub fn chart_text<'a>(alloc: Global, chart: &'a RawChart) -> Result<Vec<Passage<'a>>, NoMemory>
    ensures { IfOk result (λ text. text_view text.items ≡ text_of (chart_view chart.now)) }
{
    let mut text = Vec::new(alloc);
    heads(&mut text, chart.decls.as_slice())?;
    content(&mut text, &chart.content)?;
    Ok(text)
}
