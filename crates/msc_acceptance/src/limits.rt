//! The charts and instances above the limits: for `deciding`.

ghost use Rattle.std.specs.Prelude.{◌≡◌, [], IfOk, OnOk, fold, length, map};
ghost use Rattle.msc_base.specs.NameTables.{with_name};
ghost use Rattle.msc_base.specs.Places.{IsLeast};
ghost use Rattle.msc_base.specs.declared.limits.TheConstants.Limits.{INSTANCES};
ghost use Rattle.msc_acceptance.specs.Rules.{HasFurther, IsFurther, passes};
ghost use Rattle.msc_instances.specs.Instances.{instances};
ghost use Rattle.msc_tree.specs.Views.{chart_view};

use msc_base::{Limits, Name, NameTable, Names, NoMemory, Place, earlier_if};
use msc_tree::RawChart;
use std::alloc::Global;

/// The place of the first chart above the limit.
pub fn further_chart(charts: &[RawChart]) -> Option<Place>
    ensures { IsLeast (IsFurther (map chart_view charts.now)) result }
{
    match charts.get(Limits::CHARTS as usize) {
        Some(chart) => Some(chart.place),
        None => None,
    }
}

/// Whether a number of names that was within the limit has passed it.
fn has_passed(before: usize, names: &NameTable) -> bool
    ensures { result ≡ passes INSTANCES before (length names.now) }
{
    before as u64 <= Limits::INSTANCES && names.len() as u64 > Limits::INSTANCES
}

/// Adds the names that are new.
fn add_names(alloc: Global, table: &mut NameTable, names: &[Name]) -> Result<(), NoMemory>
    ensures { OnOk result (table.new ≡ fold with_name table.old names.now) }
{
    for name in names {
        table.add(alloc, name.bytes())?;
    }
    Ok(())
}

/// The place of the chart whose instances, which `lists` are, bring the number of different names above the limit.
pub fn further_instance(
    alloc: Global,
    charts: &[RawChart],
    lists: &[Names],
) -> Result<Option<Place>, NoMemory>
    requires { lists.now ≡ map instances (map chart_view charts.now) }
    ensures { IfOk result (IsLeast (HasFurther [] (map chart_view charts.now))) }
{
    let mut seen = NameTable::new(alloc);
    let mut best = None;
    let mut number = 0;
    for chart in charts {
        let before = seen.len();
        add_names(alloc, &mut seen, lists[number].as_slice())?;
        let so = has_passed(before, &seen);
        best = earlier_if(best, chart.place, so);
        number += 1;
    }
    Ok(best)
}
