//! Statements, columns and inline expressions, which call each other: for `chart` and `statements`.

ghost use Rattle.std.specs.Prelude.{◌≡◌, [], length, map};
ghost use Rattle.msc_tree.specs.Views.{item_view, operand_view, statement_view};
ghost use Rattle.token_grammar.specs.Answers.{Gives};
ghost use Rattle.token_grammar.specs.Languages.{map_at};
ghost use Rattle.token_grammar.specs.PartReaders.{more_at};
ghost use Rattle.msc_document.specs.DocumentReaders.{alone, column_at, column_event_at, column_goes_on, end_words, instance_at, next_part_at, operands_at, several_at, single_operand_at, statement_goes_on};
ghost use Rattle.msc_document.specs.ItemReaders.{body_view, event_item_at, multi_item_at, inline_item_at, inline_form_at, inline_tail_at, level_at, inline_body_at, listed_operands_at, operand_at, more_going_at};
ghost use Rattle.msc_document.specs.StatementReaders.{state_of, outside_item_at, run_at, colon_form_at, list_form_at, led_form_at, covered_form_at, statement_words, any_statement_at, some_statements_at, statement_form_at};

use crate::closer::{close, column_goes_on, form_token, starts_with_statement, statement_goes_on};
use crate::item::{
    InlineBody, condition_item, coregion_item, inline_item, reference_item, single_item, stop_item,
};
use crate::line_parts::{
    column_of, covered_by, covered_one, covered_these, end_statement, fitted, heading_statement,
    one_item, other_names,
};
use crate::naming::{closing, naming};
use crate::starts::{starts_with_event, starts_with_form, starts_with_multi};
use msc_base::{Name, Place};
use msc_events::{Orientation, decl, starts_with_single};
use msc_expression::{Bounds, loop_bounds, open};
use msc_tokens::Token;
use msc_tree::{Cover, InlineForm, RawItem, RawOperand, Statement};
use std::alloc::Global;
use token_grammar::{ReadFault, ending, placed_lead, starts_with, starts_with_either, word};

/// An event of a column, or elsewhere, where so many levels may still be opened.
#[cycle(items)]
fn event(
    alloc: Global,
    tokens: &[Token],
    levels: usize,
    orientation: Orientation,
) -> Result<(RawItem, &[Token]), ReadFault>
    ensures { Gives (λ x. (item_view x.0, x.1.now)) result (event_item_at orientation levels tokens.now) }
{
    if starts_with_single(tokens) {
        return single_item(alloc, tokens);
    }
    if starts_with(tokens, "concurrent") {
        return coregion_item(alloc, tokens);
    }
    if starts_with_multi(tokens) {
        return multi(alloc, tokens, levels, orientation);
    }
    stop_item(tokens)
}

/// A condition, an inline expression or a reference.
#[cycle(items)]
fn multi(
    alloc: Global,
    tokens: &[Token],
    levels: usize,
    orientation: Orientation,
) -> Result<(RawItem, &[Token]), ReadFault>
    ensures { Gives (λ x. (item_view x.0, x.1.now)) result (multi_item_at orientation levels tokens.now) }
{
    if starts_with(tokens, "condition") {
        return condition_item(alloc, orientation, tokens);
    }
    if starts_with_form(tokens) {
        return inline(alloc, tokens, levels, orientation);
    }
    reference_item(alloc, orientation, tokens, levels)
}

/// An inline expression, by its word.
#[cycle(items)]
fn inline(
    alloc: Global,
    tokens: &[Token],
    levels: usize,
    orientation: Orientation,
) -> Result<(RawItem, &[Token]), ReadFault>
    ensures { Gives (λ x. (item_view x.0, x.1.now)) result (inline_item_at orientation levels tokens.now) }
{
    if starts_with(tokens, "alt") {
        return inline_form(alloc, tokens, levels, orientation, InlineForm::Alt);
    }
    if starts_with(tokens, "par") {
        return inline_form(alloc, tokens, levels, orientation, InlineForm::Par);
    }
    if starts_with(tokens, "opt") {
        return inline_form(alloc, tokens, levels, orientation, InlineForm::Opt);
    }
    if starts_with(tokens, "exc") {
        return inline_form(alloc, tokens, levels, orientation, InlineForm::Exc);
    }
    inline_form(alloc, tokens, levels, orientation, InlineForm::Loop)
}

/// An inline expression of this form.
#[cycle(items)]
fn inline_form(
    alloc: Global,
    tokens: &[Token],
    levels: usize,
    orientation: Orientation,
    form: InlineForm,
) -> Result<(RawItem, &[Token]), ReadFault>
    ensures { Gives (λ x. (item_view x.0, x.1.now)) result (inline_form_at orientation form levels tokens.now) }
{
    let (first, rest) = form_token(tokens, form)?;
    let (bounds, body, rest) = tail(alloc, rest, levels, orientation, form)?;
    let item = inline_item(first.place, form, bounds, body)?;
    Ok((item, rest))
}

/// What stands behind the word of a form.
#[cycle(items)]
fn tail(
    alloc: Global,
    tokens: &[Token],
    levels: usize,
    orientation: Orientation,
    form: InlineForm,
) -> Result<(Bounds, InlineBody, &[Token]), ReadFault>
    ensures { Gives (λ x. ((x.0, body_view x.1), x.2.now)) result (inline_tail_at orientation form levels tokens.now) }
{
    if form == InlineForm::Loop {
        let (bounds, rest) = loop_bounds(tokens)?;
        let (body, rest) = level(alloc, rest, levels, orientation, form)?;
        return Ok((bounds, body, rest));
    }
    let (body, rest) = level(alloc, tokens, levels, orientation, form)?;
    let once = Bounds {
        lower: 1,
        upper: Some(1),
    };
    Ok((once, body, rest))
}

/// `begin`, and what stands in the level that it opens.
#[cycle(items)]
fn level(
    alloc: Global,
    tokens: &[Token],
    levels: usize,
    orientation: Orientation,
    form: InlineForm,
) -> Result<(InlineBody, &[Token]), ReadFault>
    ensures { Gives (λ x. (body_view x.0, x.1.now)) result (level_at orientation form levels tokens.now) }
{
    let (inner, rest) = open(tokens, "begin", levels)?;
    body(alloc, rest, inner, orientation, form)
}

/// The name, the shared list, and the operands up to the last end.
#[cycle(items)]
fn body(
    alloc: Global,
    tokens: &[Token],
    levels: usize,
    orientation: Orientation,
    form: InlineForm,
) -> Result<(InlineBody, &[Token]), ReadFault>
    ensures { Gives (λ x. (body_view x.0, x.1.now)) result (inline_body_at orientation form levels tokens.now) }
{
    let (name, shared, rest) = naming(alloc, orientation, tokens)?;
    let (operands, rest) = operands(alloc, rest, levels, orientation, form)?;
    Ok((
        InlineBody {
            name,
            shared,
            operands,
        },
        rest,
    ))
}

/// The operands of a form, and the end.
#[cycle(items)]
fn operands(
    alloc: Global,
    tokens: &[Token],
    levels: usize,
    orientation: Orientation,
    form: InlineForm,
) -> Result<(Vec<RawOperand>, &[Token]), ReadFault>
    ensures { Gives (λ x. (map operand_view x.0.items, x.1.now)) result (operands_at form (operand_at orientation form levels) tokens.now) }
{
    match form {
        InlineForm::Alt | InlineForm::Par => several(alloc, tokens, levels, orientation, form),
        InlineForm::Opt | InlineForm::Exc | InlineForm::Loop => {
            single_operand(alloc, tokens, levels, orientation, form)
        }
    }
}

/// One operand, and the end.
#[cycle(items)]
fn single_operand(
    alloc: Global,
    tokens: &[Token],
    levels: usize,
    orientation: Orientation,
    form: InlineForm,
) -> Result<(Vec<RawOperand>, &[Token]), ReadFault>
    ensures { Gives (λ x. (map operand_view x.0.items, x.1.now)) result (single_operand_at (operand_at orientation form levels) tokens.now) }
{
    let (operand, rest) = operand(alloc, tokens, levels, orientation, form)?;
    let rest = closing(rest)?;
    let mut operands = Vec::new(alloc);
    operands.push(operand)?;
    Ok((operands, rest))
}

/// Operands with the form's word and an end between them, and the end.
#[cycle(items)]
fn several(
    alloc: Global,
    tokens: &[Token],
    levels: usize,
    orientation: Orientation,
    form: InlineForm,
) -> Result<(Vec<RawOperand>, &[Token]), ReadFault>
    ensures { Gives (λ x. (map operand_view x.0.items, x.1.now)) result (several_at (operand_at orientation form levels) tokens.now) }
{
    listed(alloc, tokens, levels, orientation, form)
}

/// The same, one operand after the other.
#[cycle(items)]
fn listed(
    alloc: Global,
    tokens: &[Token],
    levels: usize,
    orientation: Orientation,
    form: InlineForm,
) -> Result<(Vec<RawOperand>, &[Token]), ReadFault>
    ensures { Gives (λ x. (map operand_view x.0.items, x.1.now)) result (listed_operands_at (operand_at orientation form levels) tokens.now) }
{
    let (first, rest) = operand(alloc, tokens, levels, orientation, form)?;
    let mut prefix = Vec::new(alloc);
    prefix.push(first)?;
    let (operands, rest) = more_operands(alloc, rest, levels, orientation, form, prefix)?;
    let rest = closing(rest)?;
    Ok((operands, rest))
}

/// Other operands, each behind an end, appended to those that there are.
#[cycle(items)]
fn more_operands(
    alloc: Global,
    tokens: &[Token],
    levels: usize,
    orientation: Orientation,
    form: InlineForm,
    prefix: Vec<RawOperand>,
) -> Result<(Vec<RawOperand>, &[Token]), ReadFault>
    ensures { Gives (λ x. (map operand_view x.0.items, x.1.now)) result (more_at end_words (next_part_at (operand_at orientation form levels)) (map operand_view prefix.items) (length tokens.now) tokens.now) }
{
    let mut operands = prefix;
    let mut rest = tokens;
    for _k in 0..tokens.len() {
        if !starts_with_either(rest, "comment", ";") {
            break;
        }
        match next_operand(alloc, rest, levels, orientation, form) {
            Ok((operand, behind)) => {
                operands.push(operand)?;
                rest = behind;
            }
            Err(fault) => return Err(fault),
        }
    }
    Ok((operands, rest))
}

/// An operand behind an end.
#[cycle(items)]
fn next_operand(
    alloc: Global,
    tokens: &[Token],
    levels: usize,
    orientation: Orientation,
    form: InlineForm,
) -> Result<(RawOperand, &[Token]), ReadFault>
    ensures { Gives (λ x. (operand_view x.0, x.1.now)) result (next_part_at (operand_at orientation form levels) tokens.now) }
{
    let rest = ending(tokens)?;
    operand(alloc, rest, levels, orientation, form)
}

/// An operand, and its form's word.
#[cycle(items)]
fn operand(
    alloc: Global,
    tokens: &[Token],
    levels: usize,
    orientation: Orientation,
    form: InlineForm,
) -> Result<(RawOperand, &[Token]), ReadFault>
    ensures { Gives (λ x. (operand_view x.0, x.1.now)) result (operand_at orientation form levels tokens.now) }
{
    match orientation {
        Orientation::Column => {
            let (items, rest) = column_items(alloc, tokens, levels, Some(form))?;
            Ok((RawOperand::Column(items), rest))
        }
        Orientation::Covered => {
            let (statements, rest) = statements(alloc, tokens, levels, Some(form))?;
            Ok((RawOperand::Covered(statements), rest))
        }
    }
}

// ---- columns

/// The events of a column, and the word that ends it: the operand's form, where there is one, or `endinstance`.
#[cycle(items)]
fn column_items(
    alloc: Global,
    tokens: &[Token],
    levels: usize,
    closer: Option<InlineForm>,
) -> Result<(Vec<RawItem>, &[Token]), ReadFault>
    ensures { Gives (λ x. (map item_view x.0.items, x.1.now)) result (column_at closer (column_event_at levels) tokens.now) }
{
    let (items, rest) = column_events(alloc, tokens, levels, closer)?;
    let (_word, rest) = close(rest, "endinstance", closer)?;
    Ok((items, rest))
}

/// The events of a column.
#[cycle(items)]
fn column_events(
    alloc: Global,
    tokens: &[Token],
    levels: usize,
    closer: Option<InlineForm>,
) -> Result<(Vec<RawItem>, &[Token]), ReadFault>
    ensures { Gives (λ x. (map item_view x.0.items, x.1.now)) result (more_going_at (column_goes_on closer) (column_event_at levels) [] (length tokens.now) tokens.now) }
{
    let mut items = Vec::new(alloc);
    let mut rest = tokens;
    for _k in 0..tokens.len() {
        if !column_goes_on(rest, closer) {
            break;
        }
        match event(alloc, rest, levels, Orientation::Column) {
            Ok((item, behind)) => {
                items.push(item)?;
                rest = behind;
            }
            Err(fault) => return Err(fault),
        }
    }
    Ok((items, rest))
}

/// The column of an instance (Z.120, clause 4.2).
#[cycle(items)]
fn instance(
    alloc: Global,
    tokens: &[Token],
    levels: usize,
) -> Result<(Statement, &[Token]), ReadFault>
    ensures { Gives (λ x. (statement_view x.0, x.1.now)) result (instance_at levels tokens.now) }
{
    let (_instance, rest) = word(tokens, "instance")?;
    let (decl, rest) = decl(alloc, rest)?;
    let rest = ending(rest)?;
    let (items, rest) = column_items(alloc, rest, levels, None)?;
    let rest = ending(rest)?;
    let column = column_of(alloc, decl, items)?;
    Ok((column, rest))
}

// ---- elsewhere

/// Statements, and the word that ends them: the operand's form, where there is one, or `endmsc`.
#[cycle(items)]
pub fn statements(
    alloc: Global,
    tokens: &[Token],
    levels: usize,
    closer: Option<InlineForm>,
) -> Result<(Vec<Statement>, &[Token]), ReadFault>
    ensures { Gives (λ x. (map statement_view x.0.items, x.1.now)) result (some_statements_at closer levels tokens.now) }
{
    let (statements, rest) = several_statements(alloc, tokens, levels, closer)?;
    let (_word, rest) = close(rest, "endmsc", closer)?;
    Ok((fitted(statements), rest))
}

/// Statements, one after the other.
#[cycle(items)]
fn several_statements(
    alloc: Global,
    tokens: &[Token],
    levels: usize,
    closer: Option<InlineForm>,
) -> Result<(Vec<Statement>, &[Token]), ReadFault>
    ensures { Gives (λ x. (map statement_view x.0.items, x.1.now)) result (more_at (statement_words closer) (any_statement_at closer levels) [] (length tokens.now) tokens.now) }
{
    let mut statements = Vec::new(alloc);
    let mut rest = tokens;
    for _k in 0..tokens.len() {
        if !starts_with_statement(rest, closer) {
            break;
        }
        match statement(alloc, rest, levels, closer) {
            Ok((statement, behind)) => {
                statements.push(statement)?;
                rest = behind;
            }
            Err(fault) => return Err(fault),
        }
    }
    Ok((statements, rest))
}

/// A statement: in a chart it may be the column of an instance.
#[cycle(items)]
fn statement(
    alloc: Global,
    tokens: &[Token],
    levels: usize,
    closer: Option<InlineForm>,
) -> Result<(Statement, &[Token]), ReadFault>
    ensures { Gives (λ x. (statement_view x.0, x.1.now)) result (statement_form_at closer levels tokens.now) }
{
    match closer {
        None => {
            if starts_with(tokens, "instance") {
                return instance(alloc, tokens, levels);
            }
            covered(alloc, tokens, levels, None)
        }
        Some(form) => covered(alloc, tokens, levels, Some(form)),
    }
}

/// A statement by what covers it.
#[cycle(items)]
fn covered(
    alloc: Global,
    tokens: &[Token],
    levels: usize,
    closer: Option<InlineForm>,
) -> Result<(Statement, &[Token]), ReadFault>
    ensures { Gives (λ x. (statement_view x.0, x.1.now)) result (covered_form_at closer (outside_item_at levels) tokens.now) }
{
    if starts_with(tokens, "all") {
        let (_all, rest) = word(tokens, "all")?;
        let (_colon, rest) = word(rest, ":")?;
        return run(alloc, rest, levels, closer, false, Cover::All);
    }
    led(alloc, tokens, levels, closer)
}

/// A statement that begins with the name of an instance.
#[cycle(items)]
fn led(
    alloc: Global,
    tokens: &[Token],
    levels: usize,
    closer: Option<InlineForm>,
) -> Result<(Statement, &[Token]), ReadFault>
    ensures { Gives (λ x. (statement_view x.0, x.1.now)) result (led_form_at closer (outside_item_at levels) tokens.now) }
{
    let (name, place, rest) = placed_lead(alloc, tokens)?;
    if starts_with(rest, ":") {
        return behind_colon(alloc, rest, levels, closer, name, place);
    }
    behind_comma(alloc, rest, levels, closer, name)
}

/// Behind the name of an instance and a colon: events, a declaration or an end.
#[cycle(items)]
fn behind_colon(
    alloc: Global,
    tokens: &[Token],
    levels: usize,
    closer: Option<InlineForm>,
    name: Name,
    place: Place,
) -> Result<(Statement, &[Token]), ReadFault>
    ensures { Gives (λ x. (statement_view x.0, x.1.now)) result (colon_form_at closer (outside_item_at levels) (name, place) tokens.now) }
{
    let (_colon, rest) = word(tokens, ":")?;
    if starts_with_event(rest) {
        return run(alloc, rest, levels, closer, true, covered_one(name));
    }
    if starts_with(rest, "instance") {
        return heading_statement(alloc, name, place, rest);
    }
    end_statement(name, rest)
}

/// Behind the name of an instance: a comma, other names, a colon, and conditions, inline expressions and references.
#[cycle(items)]
fn behind_comma(
    alloc: Global,
    tokens: &[Token],
    levels: usize,
    closer: Option<InlineForm>,
    name: Name,
) -> Result<(Statement, &[Token]), ReadFault>
    ensures { Gives (λ x. (statement_view x.0, x.1.now)) result (list_form_at closer (outside_item_at levels) name tokens.now) }
{
    let (_comma, rest) = word(tokens, ",")?;
    let (names, rest) = other_names(alloc, name, rest)?;
    let (_colon, rest) = word(rest, ":")?;
    let cover = covered_these(alloc, names)?;
    run(alloc, rest, levels, closer, false, cover)
}

/// An item and those that go on with it, for these instances: of any kind, or without events.
#[cycle(items)]
fn run(
    alloc: Global,
    tokens: &[Token],
    levels: usize,
    closer: Option<InlineForm>,
    any: bool,
    cover: Cover,
) -> Result<(Statement, &[Token]), ReadFault>
    ensures { Gives (λ x. (statement_view x.0, x.1.now)) result (run_at closer (outside_item_at levels) any cover tokens.now) }
{
    let (first, rest) = first_item(alloc, tokens, levels, any)?;
    let (items, rest) = more_items(alloc, rest, levels, closer, any, first)?;
    Ok((covered_by(cover, items), rest))
}

/// An item elsewhere, as a list.
#[cycle(items)]
fn first_item(
    alloc: Global,
    tokens: &[Token],
    levels: usize,
    any: bool,
) -> Result<(Vec<RawItem>, &[Token]), ReadFault>
    ensures { Gives (λ x. (map item_view x.0.items, x.1.now)) result (map_at alone (outside_item_at levels any) tokens.now) }
{
    let (item, rest) = next_item(alloc, tokens, levels, any)?;
    let items = one_item(alloc, item)?;
    Ok((items, rest))
}

/// Other items elsewhere, appended to those that there are.
#[cycle(items)]
fn more_items(
    alloc: Global,
    tokens: &[Token],
    levels: usize,
    closer: Option<InlineForm>,
    any: bool,
    prefix: Vec<RawItem>,
) -> Result<(Vec<RawItem>, &[Token]), ReadFault>
    ensures { Gives (λ x. (map item_view x.0.items, x.1.now)) result (more_going_at (statement_goes_on closer (state_of any)) (outside_item_at levels any) (map item_view prefix.items) (length tokens.now) tokens.now) }
{
    let mut items = prefix;
    let mut rest = tokens;
    for _k in 0..tokens.len() {
        if !statement_goes_on(rest, any, closer) {
            break;
        }
        match next_item(alloc, rest, levels, any) {
            Ok((item, behind)) => {
                items.push(item)?;
                rest = behind;
            }
            Err(fault) => return Err(fault),
        }
    }
    Ok((items, rest))
}

/// An item elsewhere: of any kind, or no event.
#[cycle(items)]
fn next_item(
    alloc: Global,
    tokens: &[Token],
    levels: usize,
    any: bool,
) -> Result<(RawItem, &[Token]), ReadFault>
    ensures { Gives (λ x. (item_view x.0, x.1.now)) result (outside_item_at levels any tokens.now) }
{
    if any {
        return event(alloc, tokens, levels, Orientation::Covered);
    }
    multi(alloc, tokens, levels, Orientation::Covered)
}
