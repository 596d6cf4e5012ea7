//! The earliest creation of a child that is created before, that is the creator, or that is decomposed.

ghost use Rattle.std.specs.Prelude.{◌≡◌, ◌++◌, ◌||◌, [], IfOk, OnOk, map};
ghost use Rattle.std.specs.List.{list_any};
ghost use Rattle.std.specs.Str.{bytes_eq};
ghost use Rattle.chart_text.specs.PassageViews.{passage_view, scope_view, side_view, text_view};
ghost use Rattle.chart_text.specs.Texts.{chart_text as text_of};
ghost use Rattle.creation_rules.specs.Creating.{ChartCreatesTwice, barred_creations, barred_event, barred_events, barred_item, barred_passage, decomposed, event_creates, events_create, is_barred, is_creator, item_creates, passage_creates, with_child, with_decomposed};
ghost use Rattle.msc_base.specs.Places.{IsLeast};
ghost use Rattle.msc_instances.specs.NoteViews.{note_view};
ghost use Rattle.msc_tree.specs.Views.{chart_view, form_view};

use crate::placing::{both, is_create};
use crate::stopping::either;
use chart_text::{Passage, Scope, Side, earliest_place, note_if};
use msc_base::{Items, Name, NameTable, NoMemory, Place};
use msc_instances::{Note, chart_notes};
use msc_tree::{RawChart, RawEvent, RawForm, far_bytes};
use std::alloc::Global;
use std::slice;

/// The instances that notes say are decomposed.
fn decomposed_in(alloc: Global, notes: &[Note<'_>]) -> Result<NameTable, NoMemory>
    ensures { IfOk result (λ table. table ≡ with_decomposed [] (map note_view notes.now)) }
{
    let mut table = NameTable::new(alloc);
    for note in notes {
        if let Note::Decomposed(name, _) = note {
            table.add(alloc, name.bytes())?;
        }
    }
    Ok(table)
}

/// Whether the bytes are the same.
fn is_same(a: &[u8], b: &[u8]) -> bool
    ensures { result ≡ bytes_eq a.now b.now }
{
    a == b
}

/// Whether one of the names is that.
fn names_one(names: &[Name], child: &[u8]) -> bool
    ensures { result ≡ list_any (bytes_eq child.now) names.now }
{
    let mut one = false;
    for name in names {
        one = either(one, is_same(child, name.bytes()));
    }
    one
}

/// Whether the child is the instance at which an event stands.
fn is_creator(own: Scope<'_>, child: &[u8]) -> bool
    ensures { result ≡ is_creator (scope_view own.entry) child.now }
{
    match own {
        Scope::Whole => false,
        Scope::Column(name) => names_one(slice::from_ref(name), child),
        Scope::Listed(names) => names_one(names.as_slice(), child),
    }
}

/// Whether a child may not be created by an event that stands there.
fn is_barred(refined: &NameTable, before: &NameTable, side: Side<'_>, child: &[u8]) -> bool
    ensures { result ≡ is_barred refined.now before.now (side_view side.entry) child.now }
{
    either(
        before.has(child),
        either(refined.has(child), is_creator(side.own(), child)),
    )
}

/// Adds a child, where one is created.
fn add_child(
    alloc: Global,
    before: &mut NameTable,
    creates: bool,
    child: &[u8],
) -> Result<(), NoMemory>
    ensures { OnOk result (before.new ≡ with_child creates before.old child.now) }
{
    if creates {
        before.add(alloc, child)?;
    }
    Ok(())
}

/// Notes an event, where it creates a child that it may not, and adds the child.
fn event(
    alloc: Global,
    places: &mut Items<Place>,
    refined: &NameTable,
    before: &mut NameTable,
    side: Side<'_>,
    event: &RawEvent,
) -> Result<(), NoMemory>
    ensures places { OnOk result (places.new ≡ places.old ++ barred_event refined.now before.old (side_view side.entry) event.now) }
    ensures created { OnOk result (before.new ≡ event_creates before.old event.now) }
{
    let child = far_bytes(&event.target);
    let creates = is_create(event.kind);
    let holds = both(creates, is_barred(refined, before, side, child));
    note_if(places, event.place.get(), holds)?;
    add_child(alloc, before, creates, child)
}

/// Notes those of a coregion's events that create a child that they may not, and adds the children.
fn events(
    alloc: Global,
    places: &mut Items<Place>,
    refined: &NameTable,
    before: &mut NameTable,
    side: Side<'_>,
    list: &[RawEvent],
) -> Result<(), NoMemory>
    ensures places { OnOk result (places.new ≡ places.old ++ barred_events refined.now before.old (side_view side.entry) list.now) }
    ensures created { OnOk result (before.new ≡ events_create before.old list.now) }
{
    for held in list {
        event(alloc, places, refined, before, side, held)?;
    }
    Ok(())
}

/// Notes what an item by itself creates that it may not, and adds the children.
fn item(
    alloc: Global,
    places: &mut Items<Place>,
    refined: &NameTable,
    before: &mut NameTable,
    side: Side<'_>,
    form: &RawForm,
) -> Result<(), NoMemory>
    ensures places { OnOk result (places.new ≡ places.old ++ barred_item refined.now before.old (side_view side.entry) (form_view form.now)) }
    ensures created { OnOk result (before.new ≡ item_creates before.old (form_view form.now)) }
{
    match form {
        RawForm::Single(held) => event(alloc, places, refined, before, side, held),
        RawForm::Coregion(list) => events(alloc, places, refined, before, side, list.as_slice()),
        RawForm::Condition(_, _) => Ok(()),
        RawForm::Inline(_) => Ok(()),
        RawForm::Reference(_) => Ok(()),
        RawForm::Stop => Ok(()),
    }
}

/// Notes what a passage creates that it may not, and adds the children.
fn passage(
    alloc: Global,
    places: &mut Items<Place>,
    refined: &NameTable,
    before: &mut NameTable,
    passage: Passage<'_>,
) -> Result<(), NoMemory>
    ensures places { OnOk result (places.new ≡ places.old ++ barred_passage refined.now before.old (passage_view passage.entry)) }
    ensures created { OnOk result (before.new ≡ passage_creates before.old (passage_view passage.entry)) }
{
    match passage {
        Passage::Item(standing, held) => {
            item(alloc, places, refined, before, standing.side, &held.form)
        }
        Passage::Head(_) => Ok(()),
        Passage::Statement(_, _, _) => Ok(()),
        Passage::Operand(_, _) => Ok(()),
    }
}

/// Notes what a text creates that it may not.
fn passages(
    alloc: Global,
    places: &mut Items<Place>,
    refined: &NameTable,
    text: &[Passage<'_>],
) -> Result<(), NoMemory>
    ensures { OnOk result (places.new ≡ places.old ++ barred_creations refined.now [] (text_view text.now)) }
{
    let mut before = NameTable::new(alloc);
    for held in text {
        passage(alloc, places, refined, &mut before, *held)?;
    }
    Ok(())
}

/// The instances of a chart, whose text that is, that are decomposed. It fails only for want of memory.
pub fn decomposed(
    alloc: Global,
    chart: &RawChart,
    text: &[Passage<'_>],
) -> Result<NameTable, NoMemory>
    requires { text_view text.now ≡ text_of (chart_view chart.now) }
    ensures { IfOk result (λ table. table ≡ decomposed (chart_view chart.now)) }
{
    let notes = chart_notes(alloc, chart, text)?;
    decomposed_in(alloc, notes.as_slice())
}

/// The earliest place of a chart, whose text that is, at which an event creates a child that one before creates, that is the creator,
/// or that is decomposed. It fails only for want of memory.
pub fn created_twice(
    alloc: Global,
    chart: &RawChart,
    text: &[Passage<'_>],
) -> Result<Option<Place>, NoMemory>
    requires { text_view text.now ≡ text_of (chart_view chart.now) }
    ensures { IfOk result (IsLeast (ChartCreatesTwice (chart_view chart.now))) }
{
    let refined = decomposed(alloc, chart, text)?;
    let mut places = Items::new(alloc);
    passages(alloc, &mut places, &refined, text)?;
    Ok(earliest_place(places.as_slice()))
}
