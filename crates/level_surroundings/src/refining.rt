//! The refining charts of a chart, with their matched events: for `refined_far`, and for expanded_charts.

ghost use Rattle.std.specs.Option.{option_copied};
ghost use Rattle.std.specs.Prelude.{◌≡◌, ◌++◌, IfOk, OnOk, option_map};
ghost use Rattle.gate_ends.specs.LevelGates.{HasNames};
ghost use Rattle.msc_meaning.specs.ItemViews.{items_view};
ghost use Rattle.msc_meaning.specs.Refinements.{refining_by, refinings};
ghost use Rattle.msc_meaning.specs.Tables.{body_at};
ghost use Rattle.msc_meaning.specs.Views.{body_view, table_view};
ghost use Rattle.level_surroundings.specs.DecomposedInstances.{refinements_view};
ghost use Rattle.level_surroundings.specs.RefiningViews.{refinings_view};

use crate::chart_table::{ChartTable, chart_named};
use crate::decomposed::Refinement;
use msc_base::NoMemory;
use msc_meaning::{Body, EntryContent, Item};
use refined_events::{EventMatch, matches_of};
use std::alloc::Global;

/// A refining chart.
#[derive(Drop)]
pub struct Refining<'a> {
    /// Its body.
    pub body: &'a Body,
    /// The events of its instance, with those that stand for them.
    pub matches: Vec<EventMatch<'a>>,
}

/// The body of the basic chart of that name.
fn body_named<'a>(table: ChartTable<'a>, name: &[u8]) -> Option<&'a Body>
    requires { HasNames table.charts.now table.names.now }
    ensures { option_map body_view (option_copied result) ≡ body_at (table_view table.entry.charts.now) name.now }
{
    match chart_named(table, name) {
        None => None,
        Some(chart) => match &chart.content {
            EntryContent::Basic(body) => Some(body),
            EntryContent::Graph(_) => None,
        },
    }
}

/// Appends the refining chart of an instance of a level of these items, where the table has it.
fn push_refining<'a>(
    alloc: Global,
    table: ChartTable<'a>,
    items: &'a [Item],
    list: &mut Vec<Refining<'a>>,
    refinement: Refinement<'a>,
) -> Result<(), NoMemory>
    requires { HasNames table.charts.now table.names.now }
    ensures { OnOk result (refinings_view list.new.items ≡ refinings_view list.old.items ++ refining_by refinement.entry.instance.now (items_view items.now) (body_at (table_view table.entry.charts.now) refinement.entry.chart.now)) }
{
    match body_named(table, refinement.chart.bytes()) {
        None => Ok(()),
        Some(body) => {
            let matches = matches_of(alloc, refinement.instance, items, body.items.as_slice())?;
            list.push(Refining { body, matches })?;
            Ok(())
        }
    }
}

/// The refining charts of these instances of a level of these items.
pub fn refinings_of<'a>(
    alloc: Global,
    table: ChartTable<'a>,
    items: &'a [Item],
    refinements: &[Refinement<'a>],
) -> Result<Vec<Refining<'a>>, NoMemory>
    requires { HasNames table.charts.now table.names.now }
    ensures { IfOk result (λ list. refinings_view list.items ≡ refinings (table_view table.entry.charts.now) (items_view items.now) (refinements_view refinements.now)) }
{
    let mut list = Vec::new(alloc);
    for refinement in refinements {
        push_refining(alloc, table, items, &mut list, *refinement)?;
    }
    Ok(list)
}
