//! A table of charts, with what it says of their gates: for `refining`, and for expanded_charts.

ghost use Rattle.std.specs.Option.{option_copied};
ghost use Rattle.std.specs.Prelude.{◌≡◌, IfOk, option_map};
ghost use Rattle.gate_ends.specs.LevelGates.{HasNames, items_in};
ghost use Rattle.gate_tables.specs.ChartGates.{AreGatesOf};
ghost use Rattle.msc_meaning.specs.ChartUnfoldings.{gates_of};
ghost use Rattle.msc_meaning.specs.Tables.{chart_at};
ghost use Rattle.msc_meaning.specs.Views.{body_view, entry_view, table_view};
ghost use Rattle.level_surroundings.specs.TableEnds.{ends_in};

use crate::called::CalledGates;
use gate_ends::items_call_gate;
use gate_tables::{GateTables, level_gates};
use msc_base::{NameTable, NoMemory};
use msc_meaning::{Body, ChartEntry};
use std::alloc::Global;

/// A table of charts, with the numbers of their names, and what they say of their gates.
#[derive(Clone, Copy)]
pub struct ChartTable<'a> {
    pub charts: &'a [ChartEntry],
    pub names: &'a NameTable,
    pub gates: &'a GateTables,
}

/// The chart of that name.
pub fn chart_named<'a>(table: ChartTable<'a>, name: &[u8]) -> Option<&'a ChartEntry>
    requires { HasNames table.charts.now table.names.now }
    ensures { option_map entry_view (option_copied result) ≡ chart_at (table_view table.entry.charts.now) name.now }
{
    let number = table.names.number_of(name)?;
    if number < table.charts.len() {
        return Some(&table.charts[number]);
    }
    None
}

/// The called gates of a level of a chart of the table.
pub fn called_gates<'a>(
    alloc: Global,
    table: ChartTable<'a>,
    body: &'a Body,
) -> Result<CalledGates<'a>, NoMemory>
    requires { AreGatesOf (table_view table.charts.now) table.gates.now }
    ensures { IfOk result (λ called. called ≡ gates_of (items_in (body_view body.now)) (ends_in (table_view table.entry.charts.now) (items_in (body_view body.now)))) }
{
    if !items_call_gate(body.items.as_slice()) {
        return Ok(CalledGates::none());
    }
    let gates = level_gates(alloc, table.gates, body)?;
    let called = CalledGates::of(alloc, gates)?;
    Ok(called)
}
