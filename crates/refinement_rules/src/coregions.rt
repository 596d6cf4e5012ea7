//! The earliest coregion of a decomposed instance.

ghost use Rattle.std.specs.Prelude.{◌≡◌, ◌++◌, ◌&&◌, IfOk, OnOk};
ghost use Rattle.std.specs.List.{flat_map};
ghost use Rattle.chart_text.specs.PassageViews.{passage_view, scope_view, standing_view, text_view};
ghost use Rattle.chart_text.specs.Texts.{chart_text as text_of};
ghost use Rattle.msc_base.specs.Places.{IsLeast};
ghost use Rattle.msc_tree.specs.Views.{chart_view, form_view};
ghost use Rattle.refinement_rules.specs.Coregions.{HasLocalCoregion, item_coregions, passage_coregions, stands_at as stands_at_one};

use crate::local::names_refined;
use crate::plain::both;
use chart_text::{Passage, Scope, Standing, earliest_place, note_if};
use creation_rules::decomposed;
use msc_base::{Items, NameTable, NoMemory, Place};
use msc_tree::{RawChart, RawForm};
use std::alloc::Global;
use std::slice;

/// Whether one of the instances in whose columns something stands is decomposed.
fn stands_at(refined: &NameTable, own: Scope<'_>) -> bool
    ensures { result ≡ stands_at_one refined.now (scope_view own.entry) }
{
    match own {
        Scope::Whole => false,
        Scope::Column(name) => names_refined(refined, slice::from_ref(name)),
        Scope::Listed(names) => names_refined(refined, names.as_slice()),
    }
}

/// Notes an item that is such a coregion.
fn item(
    places: &mut Items<Place>,
    refined: &NameTable,
    standing: Standing<'_>,
    place: Place,
    form: &RawForm,
) -> Result<(), NoMemory>
    ensures { OnOk result (places.new ≡ places.old ++ item_coregions refined.now (standing_view standing.entry) place (form_view form.now)) }
{
    match form {
        RawForm::Coregion(_) => {
            let holds = both(standing.depth == 0, stands_at(refined, standing.side.own()));
            note_if(places, place, holds)
        }
        RawForm::Single(_) => Ok(()),
        RawForm::Condition(_, _) => Ok(()),
        RawForm::Inline(_) => Ok(()),
        RawForm::Reference(_) => Ok(()),
        RawForm::Stop => Ok(()),
    }
}

/// Notes a passage that is one.
fn passage(
    places: &mut Items<Place>,
    refined: &NameTable,
    passage: Passage<'_>,
) -> Result<(), NoMemory>
    ensures { OnOk result (places.new ≡ places.old ++ passage_coregions refined.now (passage_view passage.entry)) }
{
    match passage {
        Passage::Item(standing, held) => {
            item(places, refined, standing, held.place.get(), &held.form)
        }
        Passage::Head(_) => Ok(()),
        Passage::Statement(_, _, _) => Ok(()),
        Passage::Operand(_, _) => Ok(()),
    }
}

/// Notes those of a text.
fn passages(
    places: &mut Items<Place>,
    refined: &NameTable,
    text: &[Passage<'_>],
) -> Result<(), NoMemory>
    ensures { OnOk result (places.new ≡ places.old ++ flat_map (passage_coregions refined.now) (text_view text.now)) }
{
    for held in text {
        passage(places, refined, *held)?;
    }
    Ok(())
}

/// The earliest place of a chart, whose text that is, at which a coregion of a decomposed instance stands, at the outermost level. It fails
/// only for want of memory.
pub fn local_coregion(
    alloc: Global,
    chart: &RawChart,
    text: &[Passage<'_>],
) -> Result<Option<Place>, NoMemory>
    requires { text_view text.now ≡ text_of (chart_view chart.now) }
    ensures { IfOk result (IsLeast (HasLocalCoregion (chart_view chart.now))) }
{
    let refined = decomposed(alloc, chart, text)?;
    if refined.len() == 0 {
        return Ok(None);
    }
    let mut places = Items::new(alloc);
    passages(&mut places, &refined, text)?;
    Ok(earliest_place(places.as_slice()))
}
