//! Goes through the text of a chart and notes what it writes of its instances: for `naming`. It judges nothing.

ghost use Rattle.std.specs.Prelude.{◌≡◌, ◌++◌, IfOk, OnOk, map, [], nat_eq};
ghost use Rattle.std.specs.List.{flat_map};
ghost use Rattle.chart_text.specs.PassageViews.{passage_view, scope_view, text_view};
ghost use Rattle.chart_text.specs.Texts.{chart_text as text_of};
ghost use Rattle.msc_instances.specs.Notes.{Declared, chart_notes, decl_notes, ended_notes, event_notes, events_notes, far_notes, item_notes, left_notes, named_notes, passage_notes, shared_notes, statement_notes, used_notes};
ghost use Rattle.msc_tree.specs.Statements.{items as item_tree};
ghost use Rattle.msc_tree.specs.Views.{chart_view, content_view, form_view, item_view, statement_view};

use crate::{Note, NoteList};
use chart_text::{Passage, Scope};
use msc_base::{Kind, Name, NoMemory, Place};
use msc_tree::{Content, Cover, Decl, RawChart, RawEvent, RawForm, RawItem, Statement, Target};
use std::alloc::Global;
use std::slice;

/// Notes names that have to be in the scope.
fn named<'a>(
    notes: &mut NoteList<'a>,
    scope: Scope<'a>,
    place: Place,
    names: &'a [Name],
) -> Result<(), NoMemory>
    ensures { OnOk result (notes.new ≡ notes.old ++ named_notes (scope_view scope.entry) place names.now) }
{
    for name in names {
        notes.push(Note::Named(name, place, scope))?;
    }
    Ok(())
}

/// Notes names that are declared.
fn declared<'a>(notes: &mut NoteList<'a>, names: &'a [Name]) -> Result<(), NoMemory>
    ensures { OnOk result (notes.new ≡ notes.old ++ map Declared names.now) }
{
    for name in names {
        notes.push(Note::Declared(name))?;
    }
    Ok(())
}

/// Notes a declaration.
fn decl<'a>(notes: &mut NoteList<'a>, decl: &'a Decl) -> Result<(), NoMemory>
    ensures { OnOk result (notes.new ≡ notes.old ++ decl_notes decl.now) }
{
    notes.push(Note::Declared(&decl.name))?;
    match decl.refined {
        None => Ok(()),
        Some(_) => notes.push(Note::Decomposed(&decl.name, decl.place)),
    }
}

/// Notes the other end, where it is an instance.
fn far_end<'a>(
    notes: &mut NoteList<'a>,
    scope: Scope<'a>,
    place: Place,
    target: &'a Target,
) -> Result<(), NoMemory>
    ensures { OnOk result (notes.new ≡ notes.old ++ far_notes (scope_view scope.entry) place target.now) }
{
    match target {
        Target::Instance(far) => notes.push(Note::Named(far, place, scope)),
        Target::Nobody => Ok(()),
        Target::Env(_) => Ok(()),
        Target::Gate(_, _) => Ok(()),
    }
}

/// Notes the address of an event.
fn event<'a>(
    notes: &mut NoteList<'a>,
    scope: Scope<'a>,
    event: &'a RawEvent,
) -> Result<(), NoMemory>
    ensures { OnOk result (notes.new ≡ notes.old ++ event_notes (scope_view scope.entry) event.now) }
{
    match event.kind {
        Kind::Output | Kind::Input | Kind::Create => {
            far_end(notes, scope, event.place.get(), &event.target)
        }
        Kind::OutputLost
        | Kind::InputFound
        | Kind::Action
        | Kind::TimerStart
        | Kind::TimerStop
        | Kind::Timeout => Ok(()),
    }
}

/// Notes the addresses of events.
fn events<'a>(
    notes: &mut NoteList<'a>,
    scope: Scope<'a>,
    list: &'a [RawEvent],
) -> Result<(), NoMemory>
    ensures { OnOk result (notes.new ≡ notes.old ++ events_notes (scope_view scope.entry) list.now) }
{
    for held in list {
        event(notes, scope, held)?;
    }
    Ok(())
}

/// Notes the names of a shared list.
fn shared<'a>(
    notes: &mut NoteList<'a>,
    scope: Scope<'a>,
    place: Place,
    cover: &'a Option<Cover>,
) -> Result<(), NoMemory>
    ensures { OnOk result (notes.new ≡ notes.old ++ shared_notes (scope_view scope.entry) place cover.now) }
{
    match cover {
        Some(Cover::Listed(names)) => named(notes, scope, place, names.as_slice()),
        Some(Cover::All) => Ok(()),
        None => Ok(()),
    }
}

/// Notes the names that stand left of a colon.
fn leads<'a>(
    notes: &mut NoteList<'a>,
    outermost: bool,
    scope: Scope<'a>,
    cover: &'a Cover,
    list: &'a [RawItem],
) -> Result<(), NoMemory>
    ensures { OnOk result (notes.new ≡ notes.old ++ left_notes outermost (scope_view scope.entry) cover.now (item_tree (map item_view list.now))) }
{
    let Cover::Listed(names) = cover else {
        return Ok(());
    };
    if outermost {
        return declared(notes, names.as_slice());
    }
    match list.first() {
        None => Ok(()),
        Some(first) => named(notes, scope, first.place.get(), names.as_slice()),
    }
}

/// Notes the name of an instance that ends.
fn ended<'a>(notes: &mut NoteList<'a>, outermost: bool, name: &'a Name) -> Result<(), NoMemory>
    ensures { OnOk result (notes.new ≡ notes.old ++ ended_notes outermost name.now) }
{
    if outermost {
        notes.push(Note::Declared(name))?;
    }
    Ok(())
}

/// Notes what an item by itself writes of instances.
fn item<'a>(
    notes: &mut NoteList<'a>,
    scope: Scope<'a>,
    place: Place,
    form: &'a RawForm,
) -> Result<(), NoMemory>
    ensures { OnOk result (notes.new ≡ notes.old ++ item_notes (scope_view scope.entry) place (form_view form.now)) }
{
    match form {
        RawForm::Single(held) => event(notes, scope, held),
        RawForm::Coregion(list) => events(notes, scope, list.as_slice()),
        RawForm::Condition(_, cover) => shared(notes, scope, place, cover),
        RawForm::Inline(held) => shared(notes, scope, place, &held.shared),
        RawForm::Reference(held) => shared(notes, scope, place, &held.shared),
        RawForm::Stop => Ok(()),
    }
}

/// Notes what a statement without its items writes of instances.
fn statement<'a>(
    notes: &mut NoteList<'a>,
    outermost: bool,
    scope: Scope<'a>,
    statement: &'a Statement,
) -> Result<(), NoMemory>
    ensures { OnOk result (notes.new ≡ notes.old ++ statement_notes outermost (scope_view scope.entry) (statement_view statement.now)) }
{
    match statement {
        Statement::Column(held, _) => decl(notes, held.decl()),
        Statement::One(cover, held) => {
            leads(notes, outermost, scope, cover, slice::from_ref(held))
        }
        Statement::Covered(cover, list) => leads(notes, outermost, scope, cover, list.as_slice()),
        Statement::Heading(held) => decl(notes, held.decl()),
        Statement::Ended(name) => ended(notes, outermost, name),
    }
}

/// Notes what a passage writes of instances.
fn passage<'a>(notes: &mut NoteList<'a>, passage: Passage<'a>) -> Result<(), NoMemory>
    ensures { OnOk result (notes.new ≡ notes.old ++ passage_notes (passage_view passage.entry)) }
{
    match passage {
        Passage::Head(held) => decl(notes, held),
        Passage::Statement(depth, scope, held) => statement(notes, depth == 0, scope, held),
        Passage::Item(standing, held) => {
            item(notes, standing.scope, held.place.get(), &held.form)
        }
        Passage::Operand(_, _) => Ok(()),
    }
}

/// Notes what a text writes of instances.
fn passages<'a>(notes: &mut NoteList<'a>, text: &[Passage<'a>]) -> Result<(), NoMemory>
    ensures { OnOk result (notes.new ≡ notes.old ++ flat_map passage_notes (text_view text.now)) }
{
    for held in text {
        passage(notes, *held)?;
    }
    Ok(())
}

/// Notes what the text of a chart writes, where it is a basic chart.
fn used<'a>(
    notes: &mut NoteList<'a>,
    content: &Content,
    text: &[Passage<'a>],
) -> Result<(), NoMemory>
    ensures { OnOk result (notes.new ≡ notes.old ++ used_notes (content_view content.now) (flat_map passage_notes (text_view text.now))) }
{
    match content {
        Content::Events(_) => passages(notes, text),
        Content::Graph(_) => Ok(()),
    }
}

/// What a chart, whose text that is, writes of its instances, in the order of the text. The heads of a high-level chart write nothing.
pub fn chart_notes<'a>(
    alloc: Global,
    chart: &RawChart,
    text: &[Passage<'a>],
) -> Result<NoteList<'a>, NoMemory>
    requires { text_view text.now ≡ text_of (chart_view chart.now) }
    ensures { IfOk result (λ notes. notes ≡ chart_notes (chart_view chart.now)) }
{
    let mut notes = NoteList::new(alloc);
    used(&mut notes, &chart.content, text)?;
    Ok(notes)
}
