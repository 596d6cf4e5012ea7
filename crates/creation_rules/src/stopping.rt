//! The earliest item that stands behind the stop of its instance, level by level.

ghost use Rattle.std.specs.Prelude.{◌≡◌, ◌++◌, ◌||◌, [], fold, IfOk, OnOk, map};
ghost use Rattle.std.specs.List.{flat_map, list_any};
ghost use Rattle.std.specs.Str.{bytes_eq};
ghost use Rattle.chart_text.specs.PassageViews.{passage_view, scope_view, side_view, standing_view, text_view};
ghost use Rattle.chart_text.specs.Texts.{behind_colon, chart_text as text_of};
ghost use Rattle.creation_rules.specs.Stopping.{ChartGoesOn, chart_behind, form_stops, is_item, is_stopped, item_behind, item_stops, items_behind, items_stops, operand_behind, outermost_behind, passage_behind, statement_behind, statement_stops, statements_behind, with_stop};
ghost use Rattle.msc_base.specs.NameTables.{with_name};
ghost use Rattle.msc_base.specs.Places.{IsLeast};
ghost use Rattle.msc_tree.specs.Statements.{items as item_tree, statements as statement_tree};
ghost use Rattle.msc_tree.specs.Views.{chart_view, content_view, form_view, item_view, operand_view, statement_view};

use crate::placing::both;
use chart_text::{Passage, Scope, Side, Standing, earliest_place, note_if};
use msc_base::{Items, Name, NameTable, NoMemory, Place};
use msc_tree::{Content, Cover, RawChart, RawForm, RawItem, RawOperand, Statement};
use std::alloc::Global;
use std::slice;

/// Whether the form is an item of columns.
fn is_item(form: &RawForm) -> bool
    ensures { result ≡ is_item (form_view form.now) }
{
    match form {
        RawForm::Condition(_, _) => false,
        RawForm::Single(_) => true,
        RawForm::Coregion(_) => true,
        RawForm::Inline(_) => true,
        RawForm::Reference(_) => true,
        RawForm::Stop => true,
    }
}

/// Whether one of the names has stopped.
fn has_one(stopped: &NameTable, names: &[Name]) -> bool
    ensures { result ≡ list_any (λ n. list_any (bytes_eq n) stopped.now) names.now }
{
    let mut one = false;
    for name in names {
        one = either(one, stopped.has(name.bytes()));
    }
    one
}

/// Whether one of the two holds.
pub(crate) fn either(a: bool, b: bool) -> bool
    ensures { result ≡ (a || b) }
{
    a || b
}

/// Whether one of the instances in whose columns something stands has stopped.
fn is_stopped(stopped: &NameTable, own: Scope<'_>) -> bool
    ensures { result ≡ is_stopped stopped.now (scope_view own.entry) }
{
    match own {
        Scope::Whole => stopped.len() != 0,
        Scope::Column(name) => has_one(stopped, slice::from_ref(name)),
        Scope::Listed(names) => has_one(stopped, names.as_slice()),
    }
}

/// Adds names to those that have stopped.
fn stop_all(alloc: Global, stopped: &mut NameTable, names: &[Name]) -> Result<(), NoMemory>
    ensures { OnOk result (stopped.new ≡ fold with_name stopped.old names.now) }
{
    for name in names {
        stopped.add(alloc, name.bytes())?;
    }
    Ok(())
}

/// Stops the instance in whose column a stop stands.
fn stop(alloc: Global, stopped: &mut NameTable, own: Scope<'_>) -> Result<(), NoMemory>
    ensures { OnOk result (stopped.new ≡ with_stop stopped.old (scope_view own.entry)) }
{
    match own {
        Scope::Whole => Ok(()),
        Scope::Column(name) => stop_all(alloc, stopped, slice::from_ref(name)),
        Scope::Listed(names) => stop_all(alloc, stopped, names.as_slice()),
    }
}

/// Stops the instance of an item, where that is a stop.
fn form(
    alloc: Global,
    stopped: &mut NameTable,
    side: Side<'_>,
    form: &RawForm,
) -> Result<(), NoMemory>
    ensures { OnOk result (stopped.new ≡ form_stops stopped.old (side_view side.entry) (form_view form.now)) }
{
    match form {
        RawForm::Stop => stop(alloc, stopped, side.own()),
        RawForm::Single(_) => Ok(()),
        RawForm::Coregion(_) => Ok(()),
        RawForm::Condition(_, _) => Ok(()),
        RawForm::Inline(_) => Ok(()),
        RawForm::Reference(_) => Ok(()),
    }
}

/// Notes an item, where it stands behind a stop, and stops its instance, where it is one.
fn item(
    alloc: Global,
    places: &mut Items<Place>,
    stopped: &mut NameTable,
    side: Side<'_>,
    held: &RawItem,
) -> Result<(), NoMemory>
    ensures places { OnOk result (places.new ≡ places.old ++ item_behind stopped.old (side_view side.entry) (item_view held.now)) }
    ensures stopped { OnOk result (stopped.new ≡ item_stops stopped.old (side_view side.entry) (item_view held.now)) }
{
    let holds = both(is_item(&held.form), is_stopped(stopped, side.own()));
    note_if(places, held.place.get(), holds)?;
    form(alloc, stopped, side, &held.form)
}

/// Notes those of items that stand behind a stop.
fn items(
    alloc: Global,
    places: &mut Items<Place>,
    stopped: &mut NameTable,
    side: Side<'_>,
    list: &[RawItem],
) -> Result<(), NoMemory>
    ensures places { OnOk result (places.new ≡ places.old ++ items_behind stopped.old (side_view side.entry) (item_tree (map item_view list.now))) }
    ensures stopped { OnOk result (stopped.new ≡ items_stops stopped.old (side_view side.entry) (item_tree (map item_view list.now))) }
{
    for held in list {
        item(alloc, places, stopped, side, held)?;
    }
    Ok(())
}

/// What the items of a statement stand in, with that cover left of the colon.
fn side_of<'a>(scope: Scope<'a>, cover: &'a Cover) -> Side<'a>
    ensures { side_view result ≡ behind_colon (scope_view scope.entry) cover.now }
{
    match cover {
        Cover::All => Side::BehindAll(scope),
        Cover::Listed(names) => Side::Behind(names),
    }
}

/// Notes those of a statement's items that stand behind a stop.
fn statement(
    alloc: Global,
    places: &mut Items<Place>,
    stopped: &mut NameTable,
    scope: Scope<'_>,
    statement: &Statement,
) -> Result<(), NoMemory>
    ensures places { OnOk result (places.new ≡ places.old ++ statement_behind stopped.old (scope_view scope.entry) (statement_view statement.now)) }
    ensures stopped { OnOk result (stopped.new ≡ statement_stops stopped.old (scope_view scope.entry) (statement_view statement.now)) }
{
    match statement {
        Statement::Column(held, list) => {
            let side = Side::InColumn(&held.decl().name);
            items(alloc, places, stopped, side, list.as_slice())
        }
        Statement::One(cover, held) => {
            let side = side_of(scope, cover);
            items(alloc, places, stopped, side, slice::from_ref(held))
        }
        Statement::Covered(cover, list) => {
            let side = side_of(scope, cover);
            items(alloc, places, stopped, side, list.as_slice())
        }
        Statement::Heading(_) => Ok(()),
        Statement::Ended(_) => Ok(()),
    }
}

/// Notes those of the items of a level's statements that stand behind a stop.
fn statements(
    alloc: Global,
    places: &mut Items<Place>,
    scope: Scope<'_>,
    list: &[Statement],
) -> Result<(), NoMemory>
    ensures { OnOk result (places.new ≡ places.old ++ statements_behind [] (scope_view scope.entry) (statement_tree (map statement_view list.now))) }
{
    let mut stopped = NameTable::new(alloc);
    for held in list {
        statement(alloc, places, &mut stopped, scope, held)?;
    }
    Ok(())
}

/// Notes those of the items of a level in a column that stand behind a stop.
fn column(
    alloc: Global,
    places: &mut Items<Place>,
    side: Side<'_>,
    list: &[RawItem],
) -> Result<(), NoMemory>
    ensures { OnOk result (places.new ≡ places.old ++ items_behind [] (side_view side.entry) (item_tree (map item_view list.now))) }
{
    let mut stopped = NameTable::new(alloc);
    items(alloc, places, &mut stopped, side, list)
}

/// Notes those of an operand's items that stand behind a stop.
fn operand(
    alloc: Global,
    places: &mut Items<Place>,
    standing: Standing<'_>,
    operand: &RawOperand,
) -> Result<(), NoMemory>
    ensures { OnOk result (places.new ≡ places.old ++ operand_behind (standing_view standing.entry) (operand_view operand.now)) }
{
    match operand {
        RawOperand::Column(list) => column(alloc, places, standing.side, list.as_slice()),
        RawOperand::Covered(list) => statements(alloc, places, standing.scope, list.as_slice()),
    }
}

/// Notes what stands behind a stop in the level that a passage is, where it is an operand.
fn passage(alloc: Global, places: &mut Items<Place>, passage: Passage<'_>) -> Result<(), NoMemory>
    ensures { OnOk result (places.new ≡ places.old ++ passage_behind (passage_view passage.entry)) }
{
    match passage {
        Passage::Operand(standing, held) => operand(alloc, places, standing, held),
        Passage::Head(_) => Ok(()),
        Passage::Statement(_, _, _) => Ok(()),
        Passage::Item(_, _) => Ok(()),
    }
}

/// Notes what stands behind a stop in the levels that the operands of a text are.
fn passages(alloc: Global, places: &mut Items<Place>, text: &[Passage<'_>]) -> Result<(), NoMemory>
    ensures { OnOk result (places.new ≡ places.old ++ flat_map passage_behind (text_view text.now)) }
{
    for held in text {
        passage(alloc, places, *held)?;
    }
    Ok(())
}

/// Notes what stands behind a stop at the outermost level.
fn outermost(alloc: Global, places: &mut Items<Place>, content: &Content) -> Result<(), NoMemory>
    ensures { OnOk result (places.new ≡ places.old ++ outermost_behind (content_view content.now)) }
{
    match content {
        Content::Events(list) => statements(alloc, places, Scope::Whole, list.as_slice()),
        Content::Graph(_) => Ok(()),
    }
}

/// Notes what of a chart, whose text that is, stands behind a stop.
fn whole(
    alloc: Global,
    places: &mut Items<Place>,
    chart: &RawChart,
    text: &[Passage<'_>],
) -> Result<(), NoMemory>
    requires { text_view text.now ≡ text_of (chart_view chart.now) }
    ensures { OnOk result (places.new ≡ places.old ++ chart_behind (chart_view chart.now)) }
{
    outermost(alloc, places, &chart.content)?;
    passages(alloc, places, text)
}

/// The earliest place of a chart, whose text that is, at which an item stands in a column behind the column's stop, a second stop too. It
/// fails only for want of memory.
pub fn behind_stop(
    alloc: Global,
    chart: &RawChart,
    text: &[Passage<'_>],
) -> Result<Option<Place>, NoMemory>
    requires { text_view text.now ≡ text_of (chart_view chart.now) }
    ensures { IfOk result (IsLeast (ChartGoesOn (chart_view chart.now))) }
{
    let mut places = Items::new(alloc);
    whole(alloc, &mut places, chart, text)?;
    Ok(earliest_place(places.as_slice()))
}
