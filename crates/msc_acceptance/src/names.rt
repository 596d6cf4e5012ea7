//! Charts named twice: for `deciding`.

ghost use Rattle.std.specs.Prelude.{[], IfOk, map};
ghost use Rattle.msc_base.specs.Places.{IsLeast};
ghost use Rattle.msc_acceptance.specs.Rules.{IsNamedAgain};
ghost use Rattle.msc_tree.specs.Views.{chart_view};

use msc_base::{NameTable, NoMemory, Place, earlier_if};
use msc_tree::RawChart;
use std::alloc::Global;

/// The earliest place of a chart that has the name of an earlier one.
pub fn second_chart(alloc: Global, charts: &[RawChart]) -> Result<Option<Place>, NoMemory>
    ensures { IfOk result (IsLeast (IsNamedAgain [] (map chart_view charts.now))) }
{
    let mut seen = NameTable::new(alloc);
    let mut best = None;
    for chart in charts {
        let again = seen.has(chart.name.bytes());
        best = earlier_if(best, chart.place, again);
        seen.add(alloc, chart.name.bytes())?;
    }
    Ok(best)
}
