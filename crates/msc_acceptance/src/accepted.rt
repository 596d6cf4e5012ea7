//! The charts of an accepted document, in the order of the text and by name.

ghost use Rattle.std.specs.Prelude.{◌≡◌, ◌≤◌, length, option_copied, option_map};
ghost use Rattle.gate_ends.specs.LevelGates.{HasNames};
ghost use Rattle.gate_tables.specs.ChartGates.{AreGatesOf};
ghost use Rattle.msc_base.specs.declared.limits.TheConstants.Limits.{CHARTS};
ghost use Rattle.msc_meaning.specs.Tables.{chart_at};
ghost use Rattle.msc_meaning.specs.Views.{entry_view, table_view};

use gate_tables::GateTables;
use level_surroundings::ChartTable;
use msc_base::{NameTable, Place};
use msc_meaning::ChartEntry;
use msc_rules::Rule;
use std::marker::Model;

/// Why a document isn't accepted.
#[derive(Clone, Copy, Debug, PartialEq, Eq)]
pub enum DocFault {
    /// The first rule that it breaks, and where.
    Refused { rule: Rule, place: Place },
    /// Memory was wanting.
    NoMemory,
}

/// The table of an accepted document, its charts in the order of the text, numbered from 0.
#[derive(Drop)]
pub struct Accepted {
    held: Vec<ChartEntry>,
    names: NameTable,
    gates: GateTables,
}

impl Model for Accepted {
    ghost use Rattle.std.specs.Prelude.{◌≤◌, List, length};
    ghost use Rattle.msc_base.specs.declared.limits.TheConstants.Limits.{CHARTS};
    ghost use Rattle.gate_ends.specs.LevelGates.{HasNames};
    ghost use Rattle.gate_tables.specs.ChartGates.{AreGatesOf};
    ghost use Rattle.msc_meaning.specs.Views.{table_view};
    ghost use Rattle.std.specs.Coded.{codes};
    ghost use Rattle.msc_meaning.specs.contracts.body.Item as item;
    ghost use Rattle.msc_tree.specs.contracts.expression.RefExpr as expression;
    ghost use Rattle.msc_tree.specs.contracts.graph.RawGraph as graph;
    ghost use Rattle.msc_meaning.specs.declared.body.ChartEntry.{ChartEntry};

    ghost Value = { List ChartEntry };

    ghost coded = { Prim.hlevel (codes, item.the_row.coded, graph.the_row.coded, expression.the_row.coded) };

    ghost view = { λ a. a.held.items };

    ghost invariant = { λ a. (length a.held.items ≤ CHARTS) × HasNames a.held.items a.names × AreGatesOf (table_view a.held.items) a.gates };
}

impl Accepted {
    /// An accepted document of these charts, which have these names, and say this of their gates.
    pub(crate) fn of_entries(held: Vec<ChartEntry>, names: NameTable, gates: GateTables) -> Accepted
        requires few { length held.items ≤ CHARTS }
        requires named { HasNames held.items names }
        requires gates { AreGatesOf (table_view held.items) gates }
        ensures { result ≡ held.items }
    {
        Accepted { held, names, gates }
    }

    /// The charts, in the order of the text.
    pub fn as_slice(&self) -> &[ChartEntry]
        ensures { result.now ≡ self.now }
    {
        self.held.as_slice()
    }

    /// The names of the charts, in the order of the text.
    pub fn names(&self) -> &NameTable
        ensures { HasNames self.now result.now }
    {
        &self.names
    }

    /// What the charts say of their gates.
    pub fn gates(&self) -> &GateTables
        ensures { AreGatesOf (table_view self.now) result.now }
    {
        &self.gates
    }

    /// The charts, as they are found by their names.
    pub fn table(&self) -> ChartTable<'_>
        ensures charts { result.charts.now ≡ self.now }
        ensures named { HasNames result.charts.now result.names.now }
    {
        ChartTable {
            charts: self.as_slice(),
            names: self.names(),
            gates: self.gates(),
        }
    }

    /// How many charts there are. It takes no memory.
    pub fn charts(&self) -> u32
        ensures count { result ≡ length self.now }
        ensures few { length self.now ≤ CHARTS }
    {
        self.held.len() as u32
    }

    /// The chart of that name; none where no chart has it. It takes no memory.
    pub fn chart_named(&self, name: &[u8]) -> Option<&ChartEntry>
        ensures { option_map entry_view (option_copied result) ≡ chart_at (table_view self.now) name.now }
    {
        for chart in self.held.as_slice() {
            if chart.name.bytes() == name {
                return Some(chart);
            }
        }
        None
    }
}
