//! The earliest places, over all charts, at which parts of items and exceptions break a rule: for `deciding`.

ghost use Rattle.std.specs.Prelude.{◌≡◌, IfOk, None, map};
ghost use Rattle.msc_acceptance.specs.Deciding.{ArePartPlaces, AreOwnPlaces, earlier_of};
ghost use Rattle.msc_acceptance.specs.SingleItems.{is_single_chart};
ghost use Rattle.msc_instances.specs.Instances.{instances};
ghost use Rattle.msc_tree.specs.Views.{chart_view};

use crate::walks::earlier;
use chart_text::chart_text;
use level_weaving::first_misplaced;
use msc_base::{Names, NoMemory, Place};
use msc_tree::RawChart;
use shared_parts::part_faults;
use std::alloc::Global;

/// The earliest places at which parts and exceptions break a rule.
#[derive(Clone, Copy, Debug, PartialEq, Eq)]
pub struct PartPlaces {
    /// Of a part that its columns don't share.
    pub unshared: Option<Place>,
    /// Of a part that differs from the first of its name.
    pub differing: Option<Place>,
    /// Of an exception that stands where it may not.
    pub misplaced: Option<Place>,
}

/// No places.
fn no_places() -> PartPlaces
    ensures unshared { result.unshared ≡ None }
    ensures differing { result.differing ≡ None }
    ensures misplaced { result.misplaced ≡ None }
{
    PartPlaces {
        unshared: None,
        differing: None,
        misplaced: None,
    }
}

/// The places of one chart, whose instances `names` are. One that has neither inline expressions nor references isn't looked at.
fn own_places(
    alloc: Global,
    chart: &RawChart,
    names: &Names,
    single: bool,
) -> Result<PartPlaces, NoMemory>
    requires names { names.now ≡ instances (chart_view chart.now) }
    requires single { single ≡ is_single_chart (chart_view chart.now) }
    ensures { IfOk result (AreOwnPlaces (chart_view chart.now)) }
{
    if single {
        return Ok(no_places());
    }
    let faults = part_faults(alloc, chart, names)?;
    let text = chart_text(alloc, chart)?;
    let misplaced = first_misplaced(alloc, chart, names, text.as_slice())?;
    Ok(PartPlaces {
        unshared: faults.not_shared,
        differing: faults.differing,
        misplaced,
    })
}

/// The earlier places of both.
fn earlier_places(places: PartPlaces, others: PartPlaces) -> PartPlaces
    ensures unshared { result.unshared ≡ earlier_of places.unshared others.unshared }
    ensures differing { result.differing ≡ earlier_of places.differing others.differing }
    ensures misplaced { result.misplaced ≡ earlier_of places.misplaced others.misplaced }
{
    PartPlaces {
        unshared: earlier(places.unshared, others.unshared),
        differing: earlier(places.differing, others.differing),
        misplaced: earlier(places.misplaced, others.misplaced),
    }
}

/// The places of all charts, whose instances `lists` are; `singles` tells which have neither inline expressions nor references.
pub fn part_places(
    alloc: Global,
    charts: &[RawChart],
    lists: &[Names],
    singles: &[bool],
) -> Result<PartPlaces, NoMemory>
    requires lists { lists.now ≡ map instances (map chart_view charts.now) }
    requires singles { singles.now ≡ map is_single_chart (map chart_view charts.now) }
    ensures { IfOk result (ArePartPlaces (map chart_view charts.now)) }
{
    let mut places = no_places();
    let mut number = 0;
    for chart in charts {
        let own = own_places(alloc, chart, &lists[number], singles[number])?;
        places = earlier_places(places, own);
        number += 1;
    }
    Ok(places)
}
