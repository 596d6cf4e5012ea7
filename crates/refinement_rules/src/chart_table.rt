//! The charts of a table by their names.

ghost use Rattle.std.specs.Option.{option_copied};
ghost use Rattle.std.specs.Prelude.{◌≡◌, option_map};
ghost use Rattle.gate_ends.specs.LevelGates.{HasNames};
ghost use Rattle.msc_meaning.specs.Tables.{body_at, chart_at};
ghost use Rattle.msc_meaning.specs.Views.{body_view, entry_view, table_view};

use msc_base::{Name, NameTable};
use msc_meaning::{Body, ChartEntry, EntryContent};

/// The charts of a table, with the numbers of their names.
#[derive(Clone, Copy)]
pub(crate) struct ChartTable<'a> {
    pub(crate) charts: &'a [ChartEntry],
    pub(crate) names: &'a NameTable,
}

/// The chart of that name.
pub(crate) fn chart_named<'a>(table: ChartTable<'a>, name: &Name) -> Option<&'a ChartEntry>
    requires { HasNames table.charts.now table.names.now }
    ensures { option_map entry_view (option_copied result) ≡ chart_at (table_view table.entry.charts.now) name.now }
{
    let number = table.names.number_of(name.bytes())?;
    if number < table.charts.len() {
        return Some(&table.charts[number]);
    }
    None
}

/// The body of the basic chart of that name.
pub(crate) fn body_named<'a>(table: ChartTable<'a>, name: &Name) -> Option<&'a Body>
    requires { HasNames table.charts.now table.names.now }
    ensures { option_map body_view (option_copied result) ≡ body_at (table_view table.entry.charts.now) name.now }
{
    match chart_named(table, name) {
        Some(chart) => match &chart.content {
            EntryContent::Basic(body) => Some(body),
            EntryContent::Graph(_) => None,
        },
        None => None,
    }
}
