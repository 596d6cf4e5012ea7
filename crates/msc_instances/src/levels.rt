//! The named parts of a chart, level by level, by its text: for `naming`.

ghost use Rattle.std.specs.Prelude.{◌≡◌, ◌++◌, IfOk, OnOk, map};
ghost use Rattle.std.specs.List.{flat_map};
ghost use Rattle.chart_text.specs.PassageViews.{passage_view, side_view, text_view};
ghost use Rattle.chart_text.specs.Texts.{chart_text as text_of, column_of};
ghost use Rattle.msc_instances.specs.PartViews.{column_view};
ghost use Rattle.msc_instances.specs.Parts.{chart_levels, form_parts, items_parts, named_part, operand_parts, outermost_level, passage_levels, statement_parts, statements_parts};
ghost use Rattle.msc_tree.specs.Statements.{items as item_tree, statements as statement_tree};
ghost use Rattle.msc_tree.specs.Views.{chart_view, content_view, form_view, item_view, operand_view, statement_view};

use crate::{NamedPart, PartColumn, PartList};
use chart_text::{Passage, Side};
use msc_base::{Items, Name, NoMemory, Place};
use msc_tree::{Content, RawChart, RawForm, RawItem, RawOperand, Statement};
use std::alloc::Global;
use std::slice;

/// Adds a part, where it has a name.
fn named<'a>(
    level: &mut PartList<'a>,
    setting: PartColumn<'a>,
    place: Place,
    name: &'a Option<Name>,
) -> Result<(), NoMemory>
    ensures { OnOk result (level.new ≡ level.old ++ named_part (column_view setting.entry) place name.now) }
{
    match name {
        None => Ok(()),
        Some(name) => level.push(NamedPart {
            name,
            setting,
            place,
        }),
    }
}

/// Adds an item, where it has a name.
fn form_part<'a>(
    level: &mut PartList<'a>,
    setting: PartColumn<'a>,
    place: Place,
    form: &'a RawForm,
) -> Result<(), NoMemory>
    ensures { OnOk result (level.new ≡ level.old ++ form_parts (column_view setting.entry) place (form_view form.now)) }
{
    match form {
        RawForm::Inline(held) => named(level, setting, place, &held.name),
        RawForm::Reference(held) => named(level, setting, place, &held.name),
        RawForm::Single(_) => Ok(()),
        RawForm::Coregion(_) => Ok(()),
        RawForm::Condition(_, _) => Ok(()),
        RawForm::Stop => Ok(()),
    }
}

/// Adds the items that have names.
fn item_parts<'a>(
    level: &mut PartList<'a>,
    setting: PartColumn<'a>,
    list: &'a [RawItem],
) -> Result<(), NoMemory>
    ensures { OnOk result (level.new ≡ level.old ++ items_parts (column_view setting.entry) (item_tree (map item_view list.now))) }
{
    for held in list {
        form_part(level, setting, held.place.get(), &held.form)?;
    }
    Ok(())
}

/// Adds the items of a statement that have names.
fn statement_part<'a>(level: &mut PartList<'a>, statement: &'a Statement) -> Result<(), NoMemory>
    ensures { OnOk result (level.new ≡ level.old ++ statement_parts (statement_view statement.now)) }
{
    match statement {
        Statement::Column(decl, list) => {
            item_parts(
                level,
                PartColumn::InColumn(&decl.decl().name),
                list.as_slice(),
            )
        }
        Statement::One(_, held) => item_parts(level, PartColumn::Outside, slice::from_ref(held)),
        Statement::Covered(_, list) => item_parts(level, PartColumn::Outside, list.as_slice()),
        Statement::Heading(_) => Ok(()),
        Statement::Ended(_) => Ok(()),
    }
}

/// Where items stand, in the column of an instance or outside columns.
fn setting_of<'a>(side: Side<'a>) -> PartColumn<'a>
    ensures { column_view result ≡ column_of (side_view side.entry) }
{
    match side {
        Side::InColumn(name) => PartColumn::InColumn(name),
        Side::Behind(_) => PartColumn::Outside,
        Side::BehindAll(_) => PartColumn::Outside,
    }
}

/// Adds the items of statements that have names.
fn statements<'a>(level: &mut PartList<'a>, list: &'a [Statement]) -> Result<(), NoMemory>
    ensures { OnOk result (level.new ≡ level.old ++ statements_parts (statement_tree (map statement_view list.now))) }
{
    for held in list {
        statement_part(level, held)?;
    }
    Ok(())
}

/// Adds the items of an operand that have names.
fn operand<'a>(
    level: &mut PartList<'a>,
    setting: PartColumn<'a>,
    operand: &'a RawOperand,
) -> Result<(), NoMemory>
    ensures { OnOk result (level.new ≡ level.old ++ operand_parts (column_view setting.entry) (operand_view operand.now)) }
{
    match operand {
        RawOperand::Column(list) => item_parts(level, setting, list.as_slice()),
        RawOperand::Covered(list) => statements(level, list.as_slice()),
    }
}

/// The named parts of the level that an operand is.
fn operand_level<'a>(
    alloc: Global,
    setting: PartColumn<'a>,
    held: &'a RawOperand,
) -> Result<PartList<'a>, NoMemory>
    ensures { IfOk result (λ level. level ≡ operand_parts (column_view setting.entry) (operand_view held.now)) }
{
    let mut level = PartList::new(alloc);
    operand(&mut level, setting, held)?;
    Ok(level)
}

/// The named parts of the level that statements are.
fn statement_level<'a>(alloc: Global, list: &'a [Statement]) -> Result<PartList<'a>, NoMemory>
    ensures { IfOk result (λ level. level ≡ statements_parts (statement_tree (map statement_view list.now))) }
{
    let mut level = PartList::new(alloc);
    statements(&mut level, list)?;
    Ok(level)
}

/// Adds the level that a passage is, where it is an operand.
fn passage<'a>(
    alloc: Global,
    levels: &mut Items<PartList<'a>>,
    passage: Passage<'a>,
) -> Result<(), NoMemory>
    ensures { OnOk result (levels.new ≡ levels.old ++ passage_levels (passage_view passage.entry)) }
{
    match passage {
        Passage::Operand(standing, held) => {
            let level = operand_level(alloc, setting_of(standing.side), held)?;
            levels.push(level)
        }
        Passage::Head(_) => Ok(()),
        Passage::Statement(_, _, _) => Ok(()),
        Passage::Item(_, _) => Ok(()),
    }
}

/// Adds the levels that the operands of a text are.
fn passages<'a>(
    alloc: Global,
    levels: &mut Items<PartList<'a>>,
    text: &[Passage<'a>],
) -> Result<(), NoMemory>
    ensures { OnOk result (levels.new ≡ levels.old ++ flat_map passage_levels (text_view text.now)) }
{
    for held in text {
        passage(alloc, levels, *held)?;
    }
    Ok(())
}

/// Adds the outermost level of what a chart holds.
fn outermost<'a>(
    alloc: Global,
    levels: &mut Items<PartList<'a>>,
    content: &'a Content,
) -> Result<(), NoMemory>
    ensures { OnOk result (levels.new ≡ levels.old ++ outermost_level (content_view content.now)) }
{
    match content {
        Content::Events(list) => {
            let level = statement_level(alloc, list.as_slice())?;
            levels.push(level)
        }
        Content::Graph(_) => Ok(()),
    }
}

/// The named parts of all levels of a chart, whose text that is.
pub fn chart_levels<'a>(
    alloc: Global,
    chart: &'a RawChart,
    text: &[Passage<'a>],
) -> Result<Items<PartList<'a>>, NoMemory>
    requires { text_view text.now ≡ text_of (chart_view chart.now) }
    ensures { IfOk result (λ levels. levels ≡ chart_levels (chart_view chart.now)) }
{
    let mut levels = Items::new(alloc);
    outermost(alloc, &mut levels, &chart.content)?;
    passages(alloc, &mut levels, text)?;
    Ok(levels)
}
