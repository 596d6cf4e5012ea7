//! What is read of one chart after another, by its text, which is listed once: for `deciding`.

ghost use Rattle.std.specs.Prelude.{◌≡◌, IfOk, None, map};
ghost use Rattle.chart_forms.specs.TiedTexts.{is_tied_text};
ghost use Rattle.chart_text.specs.Texts.{chart_text as text_of};
ghost use Rattle.msc_acceptance.specs.Deciding.{AreOwnTexts, AreTextPlaces, earlier_of};
ghost use Rattle.msc_acceptance.specs.RefinedTexts.{is_refined_chart};
ghost use Rattle.msc_acceptance.specs.SingleItems.{is_single_chart};
ghost use Rattle.msc_instances.specs.Instances.{instances};
ghost use Rattle.msc_tree.specs.Charts.{Chart};
ghost use Rattle.msc_tree.specs.Views.{chart_view};

use crate::refinements::is_refined;
use crate::singles::holds_singles;
use crate::walks::earlier;
use chart_forms::{first_high_bound, ties_gates};
use chart_text::chart_text;
use creation_rules::{behind_stop, created_twice, misplaced_creation};
use msc_base::{Items, Names, NoMemory, Place};
use msc_instances::chart_names;
use msc_tree::RawChart;
use refinement_rules::local_coregion;
use std::alloc::Global;

/// The earliest places at which charts break the rules that are read with their instances.
#[derive(Clone, Copy, Debug, PartialEq, Eq)]
pub struct TextPlaces {
    /// Of a loop with a bound above the limit.
    pub high_bound: Option<Place>,
    /// Of a decomposed instance or a part that is named a second time in its chart.
    pub twice: Option<Place>,
    /// Of a name that may not stand there.
    pub undeclared: Option<Place>,
    /// Of a creation or a stop that may not stand there.
    pub creation: Option<Place>,
    /// Of a creation of a child that may not be created.
    pub child: Option<Place>,
    /// Of an item behind the stop of its instance.
    pub behind: Option<Place>,
    /// Of a coregion of a decomposed instance.
    pub coregion: Option<Place>,
}

/// What is read of one chart.
#[derive(Drop)]
struct ChartText {
    names: Names,
    single: bool,
    tied: bool,
    refined: bool,
    places: TextPlaces,
}

/// What is read of charts.
#[derive(Drop)]
pub struct Reading {
    /// The instances of each.
    pub lists: Items<Names>,
    /// Where each stands.
    pub stands: Items<Place>,
    /// Whether each has neither inline expressions nor references.
    pub singles: Items<bool>,
    /// Whether a join of each ties two gates.
    pub tied: Items<bool>,
    /// Whether each has decomposed instances.
    pub refined: Items<bool>,
    /// The earliest places at which they break rules.
    pub places: TextPlaces,
}

/// The earlier places of both.
fn earlier_places(places: TextPlaces, others: TextPlaces) -> TextPlaces
    ensures high_bound { result.high_bound ≡ earlier_of places.high_bound others.high_bound }
    ensures twice { result.twice ≡ earlier_of places.twice others.twice }
    ensures undeclared { result.undeclared ≡ earlier_of places.undeclared others.undeclared }
    ensures creation { result.creation ≡ earlier_of places.creation others.creation }
    ensures child { result.child ≡ earlier_of places.child others.child }
    ensures behind { result.behind ≡ earlier_of places.behind others.behind }
    ensures coregion { result.coregion ≡ earlier_of places.coregion others.coregion }
{
    TextPlaces {
        high_bound: earlier(places.high_bound, others.high_bound),
        twice: earlier(places.twice, others.twice),
        undeclared: earlier(places.undeclared, others.undeclared),
        creation: earlier(places.creation, others.creation),
        child: earlier(places.child, others.child),
        behind: earlier(places.behind, others.behind),
        coregion: earlier(places.coregion, others.coregion),
    }
}

/// What is read of a chart.
fn read_chart(alloc: Global, chart: &RawChart) -> Result<ChartText, NoMemory>
    ensures names { IfOk result (λ text. text.names ≡ instances (chart_view chart.now)) }
    ensures single { IfOk result (λ text. text.single ≡ is_single_chart (chart_view chart.now)) }
    ensures tied { IfOk result (λ text. text.tied ≡ is_tied_text (text_of (chart_view chart.now))) }
    ensures refined { IfOk result (λ text. text.refined ≡ is_refined_chart (chart_view chart.now)) }
    ensures places { IfOk result (λ text. AreOwnTexts (chart_view chart.now) text.places) }
{
    let text = chart_text(alloc, chart)?;
    let high_bound = first_high_bound(alloc, chart, text.as_slice())?;
    let named = chart_names(alloc, chart, text.as_slice())?;
    let creation = misplaced_creation(alloc, chart, text.as_slice())?;
    let child = created_twice(alloc, chart, text.as_slice())?;
    let behind = behind_stop(alloc, chart, text.as_slice())?;
    let coregion = local_coregion(alloc, chart, text.as_slice())?;
    Ok(ChartText {
        names: named.names,
        single: holds_singles(text.as_slice()),
        tied: ties_gates(text.as_slice()),
        refined: is_refined(text.as_slice()),
        places: TextPlaces {
            high_bound,
            twice: named.twice,
            undeclared: named.undeclared,
            creation,
            child,
            behind,
            coregion,
        },
    })
}

/// What is read of the charts.
pub fn read_charts(alloc: Global, charts: &[RawChart]) -> Result<Reading, NoMemory>
    ensures lists { IfOk result (λ reading. reading.lists ≡ map instances (map chart_view charts.now)) }
    ensures stands { IfOk result (λ reading. reading.stands ≡ map (λ (c : Chart). c.place) (map chart_view charts.now)) }
    ensures singles { IfOk result (λ reading. reading.singles ≡ map is_single_chart (map chart_view charts.now)) }
    ensures refined { IfOk result (λ reading. reading.refined ≡ map is_refined_chart (map chart_view charts.now)) }
    ensures tied { IfOk result (λ reading. reading.tied ≡ map (λ (c : Chart). is_tied_text (text_of c)) (map chart_view charts.now)) }
    ensures places { IfOk result (λ reading. AreTextPlaces (map chart_view charts.now) reading.places) }
{
    let mut lists = Items::new(alloc);
    let mut stands = Items::new(alloc);
    let mut singles = Items::new(alloc);
    let mut tied = Items::new(alloc);
    let mut refined = Items::new(alloc);
    let mut places = TextPlaces {
        high_bound: None,
        twice: None,
        undeclared: None,
        creation: None,
        child: None,
        behind: None,
        coregion: None,
    };
    for chart in charts {
        let text = read_chart(alloc, chart)?;
        lists.push(text.names)?;
        stands.push(chart.place)?;
        singles.push(text.single)?;
        tied.push(text.tied)?;
        refined.push(text.refined)?;
        places = earlier_places(places, text.places);
    }
    Ok(Reading {
        lists,
        stands,
        singles,
        tied,
        refined,
        places,
    })
}
