//! The term of a chart of a table, with its nets and instances.

ghost use Rattle.std.specs.Prelude.{◌≡◌, IfOk};
ghost use Rattle.msc_meaning.specs.Views.{table_view};
ghost use Rattle.gate_ends.specs.LevelGates.{HasNames};
ghost use Rattle.gate_tables.specs.ChartGates.{AreGatesOf};
ghost use Rattle.table_terms.specs.SoundGraphs.{HasSoundGraphs};
ghost use Rattle.table_terms.specs.TableTerms.{HasRoom, IsTermOf, chart_numbering};

use chart_term::Term;
use expanded_charts::{ExpandedChart, expansion_of};
use expansion_terms::judged_term_of;
use gate_tables::GateTables;
use made_terms::laws::walks_are_drawn;
use msc_base::{Limits, NameTable, NoMemory};
use msc_meaning::ChartEntry;
use std::alloc::Global;
use term_tables::Nets;

/// The term of a chart, and what its numbers are of.
#[derive(Drop)]
pub struct ChartTerm {
    /// The term.
    pub term: Term,
    /// The names of its instances by their numbers.
    pub names: NameTable,
    /// Its labels and nets by their numbers.
    pub nets: Nets,
}

/// The term of the chart of that name in a table, of which the names are given in their order, and what they say of their gates. It fails
/// only for want of memory.
pub fn chart_of(
    alloc: Global,
    charts: &[ChartEntry],
    names: &NameTable,
    gates: &GateTables,
    name: &[u8],
) -> Result<ChartTerm, NoMemory>
    requires named { HasNames charts.now names.now }
    requires graphs { HasSoundGraphs (table_view charts.now) name.now }
    requires gates { AreGatesOf (table_view charts.now) gates.now }
    requires room { HasRoom (table_view charts.now) name.now }
    ensures term { IfOk result (λ made. IsTermOf (table_view charts.now) name.now made.nets made.term) }
    ensures names { IfOk result (λ made. made.names ≡ (chart_numbering (table_view charts.now) name.now).names) }
{
    walks_are_drawn();
    let depth = Limits::EXPANDED_NESTING as u32;
    let ExpandedChart {
        expansion,
        numbering,
    } = expansion_of(alloc, charts, names, gates, depth, name)?;
    let mut nets = Nets::of_labels(alloc, numbering.labels);
    let term = judged_term_of(alloc, &mut nets, &expansion)?;
    Ok(ChartTerm {
        term,
        names: numbering.names,
        nets,
    })
}
