//! The earliest creation or stop that stands inside an operand, or creation in a coregion.

ghost use Rattle.std.specs.Prelude.{◌≡◌, ◌++◌, ◌&&◌, IfOk, OnOk};
ghost use Rattle.chart_text.specs.PassageViews.{text_view};
ghost use Rattle.chart_text.specs.Texts.{chart_text as text_of};
ghost use Rattle.creation_rules.specs.Placing.{ChartPlacesCreation, is_creation, misplaced, misplaced_event, misplaced_events, misplaced_item};
ghost use Rattle.msc_base.specs.Places.{IsLeast};
ghost use Rattle.msc_tree.specs.Views.{chart_view, form_view};

use chart_text::{Passage, TextRule, earliest_place, note_if, note_text};
use msc_base::{Items, Kind, NoMemory, Place};
use msc_tree::{RawChart, RawEvent, RawForm};
use std::alloc::Global;

/// Whether events of the kind create instances.
pub(crate) fn is_create(kind: Kind) -> bool
    ensures { result ≡ is_creation kind }
{
    match kind {
        Kind::Create => true,
        Kind::Output
        | Kind::Input
        | Kind::OutputLost
        | Kind::InputFound
        | Kind::Action
        | Kind::TimerStart
        | Kind::TimerStop
        | Kind::Timeout => false,
    }
}

/// Whether both hold.
pub(crate) fn both(a: bool, b: bool) -> bool
    ensures { result ≡ (a && b) }
{
    a && b
}

/// Notes an event, where it is a creation, and none may stand there.
fn event(places: &mut Items<Place>, barred: bool, event: &RawEvent) -> Result<(), NoMemory>
    ensures { OnOk result (places.new ≡ places.old ++ misplaced_event barred event.now) }
{
    let holds = both(is_create(event.kind), barred);
    note_if(places, event.place.get(), holds)
}

/// Notes the creations of a coregion.
fn events(places: &mut Items<Place>, list: &[RawEvent]) -> Result<(), NoMemory>
    ensures { OnOk result (places.new ≡ places.old ++ misplaced_events list.now) }
{
    for held in list {
        event(places, true, held)?;
    }
    Ok(())
}

/// Notes what of an item at that depth may not stand there.
fn item(places: &mut Items<Place>, depth: u32, place: Place, form: &RawForm) -> Result<(), NoMemory>
    ensures { OnOk result (places.new ≡ places.old ++ misplaced_item depth place (form_view form.now)) }
{
    match form {
        RawForm::Single(held) => event(places, depth != 0, held),
        RawForm::Coregion(list) => events(places, list.as_slice()),
        RawForm::Condition(_, _) => Ok(()),
        RawForm::Inline(_) => Ok(()),
        RawForm::Reference(_) => Ok(()),
        RawForm::Stop => note_if(places, place, depth != 0),
    }
}

/// The rule on where creations and stops stand.
struct CreationPlaces;

impl TextRule for CreationPlaces {
    ghost told = { misplaced };

    fn note(places: &mut Items<Place>, passage: Passage<'_>) -> Result<(), NoMemory> {
        match passage {
            Passage::Item(standing, held) => {
                item(places, standing.depth, held.place.get(), &held.form)
            }
            Passage::Head(_) => Ok(()),
            Passage::Statement(_, _, _) => Ok(()),
            Passage::Operand(_, _) => Ok(()),
        }
    }
}

/// The earliest place of a chart, whose text that is, at which a creation or a stop stands inside an operand, or a creation in a
/// coregion. It fails only for want of memory.
pub fn misplaced_creation(
    alloc: Global,
    chart: &RawChart,
    text: &[Passage<'_>],
) -> Result<Option<Place>, NoMemory>
    requires { text_view text.now ≡ text_of (chart_view chart.now) }
    ensures { IfOk result (IsLeast (ChartPlacesCreation (chart_view chart.now))) }
{
    let mut places = Items::new(alloc);
    note_text::<CreationPlaces>(&mut places, text)?;
    Ok(earliest_place(places.as_slice()))
}
