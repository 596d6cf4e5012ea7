//! The earliest charts that are too deep, too large, or too large together.

ghost use Rattle.std.specs.Prelude.{◌≡◌, map, nat_lt};
ghost use Rattle.chart_extents.specs.Capped.{AreKept, names_of};
ghost use Rattle.chart_extents.specs.ExtentRules.{AreTooLarge, IsTooDeep, IsTooLarge};
ghost use Rattle.chart_extents.specs.ExtentViews.{sized_view};
ghost use Rattle.msc_base.specs.Lists.{AreDifferent};
ghost use Rattle.msc_base.specs.Places.{IsLeast};
ghost use Rattle.msc_base.specs.declared.limits.TheConstants.Limits.{EXPANDED_NESTING, EXPANDED_SIZE, TOTAL_SIZE};

use crate::{Extent, SizedChart};
use msc_base::{Limits, Place, earlier_if};

/// The earliest places of charts above the limits.
#[derive(Clone, Copy, Debug, PartialEq, Eq)]
pub struct ExtentPlaces {
    /// Of a chart that is too deep.
    pub deep: Option<Place>,
    /// Of a chart that is too large.
    pub large: Option<Place>,
    /// Of the chart at which the sum of the sizes passes its limit.
    pub total: Option<Place>,
}

/// Whether a chart is too deep.
fn is_deep(extent: Extent) -> bool
    ensures { result ≡ nat_lt EXPANDED_NESTING extent.nesting }
{
    extent.nesting > Limits::EXPANDED_NESTING
}

/// Whether a chart is too large.
fn is_large(extent: Extent) -> bool
    ensures { result ≡ nat_lt EXPANDED_SIZE extent.size }
{
    extent.size > Limits::EXPANDED_SIZE
}

/// Whether a sum of sizes is above its limit.
fn is_above(sum: u64) -> bool
    ensures { result ≡ nat_lt TOTAL_SIZE sum }
{
    sum > Limits::TOTAL_SIZE
}

/// The earliest chart that is too deep.
fn deep_chart(charts: &[SizedChart<'_, '_>], values: &[Extent]) -> Option<Place>
    requires kept { AreKept (map sized_view charts.now) values.now }
    requires different { AreDifferent (names_of (map sized_view charts.now)) }
    ensures { IsLeast (IsTooDeep (map sized_view charts.now)) result }
{
    let mut best = None;
    for (index, chart) in charts.iter().enumerate() {
        let value = values[index];
        best = earlier_if(best, chart.place, is_deep(value));
    }
    best
}

/// The earliest chart that is too large.
fn large_chart(charts: &[SizedChart<'_, '_>], values: &[Extent]) -> Option<Place>
    requires kept { AreKept (map sized_view charts.now) values.now }
    requires different { AreDifferent (names_of (map sized_view charts.now)) }
    ensures { IsLeast (IsTooLarge (map sized_view charts.now)) result }
{
    let mut best = None;
    for (index, chart) in charts.iter().enumerate() {
        let value = values[index];
        best = earlier_if(best, chart.place, is_large(value));
    }
    best
}

/// The chart at which the sum of the sizes passes its limit.
fn large_total(charts: &[SizedChart<'_, '_>], values: &[Extent]) -> Option<Place>
    requires kept { AreKept (map sized_view charts.now) values.now }
    requires different { AreDifferent (names_of (map sized_view charts.now)) }
    ensures { IsLeast (AreTooLarge (map sized_view charts.now)) result }
{
    let mut sum = 0u64;
    for (index, chart) in charts.iter().enumerate() {
        let value = values[index];
        let total = sum.saturating_add(value.size);
        if is_above(total) {
            return Some(chart.place);
        }
        sum = total;
    }
    None
}

/// The earliest charts above the limits, by what each comes to.
pub fn extent_places(charts: &[SizedChart<'_, '_>], values: &[Extent]) -> ExtentPlaces
    requires kept { AreKept (map sized_view charts.now) values.now }
    requires different { AreDifferent (names_of (map sized_view charts.now)) }
    ensures deep { IsLeast (IsTooDeep (map sized_view charts.now)) result.deep }
    ensures large { IsLeast (IsTooLarge (map sized_view charts.now)) result.large }
    ensures total { IsLeast (AreTooLarge (map sized_view charts.now)) result.total }
{
    ExtentPlaces {
        deep: deep_chart(charts, values),
        large: large_chart(charts, values),
        total: large_total(charts, values),
    }
}
