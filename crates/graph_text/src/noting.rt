//! Noting places, for rules that go through the text of a graph.

ghost use Rattle.std.specs.Prelude.{◌≡◌, ◌++◌, List, OnOk};
ghost use Rattle.std.specs.List.{flat_map};
ghost use Rattle.graph_text.specs.GraphPartViews.{part_view, parts_view};
ghost use Rattle.graph_text.specs.GraphTexts as plain;
ghost use Rattle.msc_base.specs.declared.place.Place as place;

use crate::GraphPart;
use msc_base::{Items, NoMemory, Place};

/// A rule on graphs: it tells places of each part.
pub trait GraphRule {
    ghost told: { plain.GraphPart → List place.Place };

    /// Notes the places that it tells of a part.
    fn note(places: &mut Items<Place>, part: GraphPart<'_>) -> Result<(), NoMemory>
        ensures { OnOk result (places.new ≡ places.old ++ told (part_view part.entry)) };
}

/// Notes the places that a rule tells of the parts of a graph.
pub fn note_graph<R: GraphRule>(
    places: &mut Items<Place>,
    parts: &[GraphPart<'_>],
) -> Result<(), NoMemory>
    ensures { OnOk result (places.new ≡ places.old ++ flat_map R.told (parts_view parts.now)) }
{
    for part in parts {
        R::note(places, *part)?;
    }
    Ok(())
}
