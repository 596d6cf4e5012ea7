//! Noting places, and the earliest of them: for rules that go through a text.

ghost use Rattle.std.specs.Prelude.{◌≡◌, ◌++◌, List, OnOk};
ghost use Rattle.std.specs.List.{flat_map};
ghost use Rattle.chart_text.specs.Gathering.{place_if};
ghost use Rattle.chart_text.specs.PassageViews.{passage_view, text_view};
ghost use Rattle.chart_text.specs.Texts as plain;
ghost use Rattle.msc_base.specs.Lists.{IsAmong};
ghost use Rattle.msc_base.specs.Places.{IsLeast};
ghost use Rattle.msc_base.specs.declared.place.Place as place;

use crate::passage::Passage;
use msc_base::{Items, NoMemory, Place, earlier_place};

/// Notes the place, where something holds there.
pub fn note_if(places: &mut Items<Place>, place: Place, holds: bool) -> Result<(), NoMemory>
    ensures { OnOk result (places.new ≡ places.old ++ place_if holds place) }
{
    if holds {
        places.push(place)?;
    }
    Ok(())
}

/// A rule on texts: it tells places of each passage.
pub trait TextRule {
    ghost told: { plain.Passage → List place.Place };

    /// Notes the places that it tells of a passage.
    fn note(places: &mut Items<Place>, passage: Passage<'_>) -> Result<(), NoMemory>
        ensures { OnOk result (places.new ≡ places.old ++ told (passage_view passage.entry)) };
}

/// Notes the places that a rule tells of a text.
pub fn note_text<R: TextRule>(
    places: &mut Items<Place>,
    text: &[Passage<'_>],
) -> Result<(), NoMemory>
    ensures { OnOk result (places.new ≡ places.old ++ flat_map R.told (text_view text.now)) }
{
    for passage in text {
        R::note(places, *passage)?;
    }
    Ok(())
}

/// The earliest of the places.
pub fn earliest_place(places: &[Place]) -> Option<Place>
    ensures { IsLeast (IsAmong places.now) result }
{
    let mut best = None;
    for place in places {
        best = earlier_place(best, *place);
    }
    best
}
