//! Gathers the basic charts of a document: `gathered_charts`.

ghost use Rattle.std.specs.Prelude.{◌≡◌, ◌++◌, ◌∷◌, [], IfOk, OnOk, map};
ghost use Rattle.chart_text.specs.Texts.{Whole, statements_text};
ghost use Rattle.chart_text.specs.WellFormed.{AreAllWellFormed, AreWellFormed, IsWellFormed};
ghost use Rattle.level_gathering.specs.Gathered.{IsGatheredLevel};
ghost use Rattle.level_gathering.specs.GatheredCharts.{AreGathered, IsGatheredChart, gathered_entry};
ghost use Rattle.level_gathering.specs.ReferenceViews.{charts_view, lists_view};
ghost use Rattle.msc_instances.specs.Instances.{instances};
ghost use Rattle.msc_meaning.specs.Pieces.{statements_pieces};
ghost use Rattle.msc_meaning.specs.Views.{body_view, table_view};
ghost use Rattle.msc_tree.specs.Charts.{Chart, HighLevel};
ghost use Rattle.msc_tree.specs.Graphs.{Graph};
ghost use Rattle.msc_tree.specs.Statements.{statements as statement_tree};
ghost use Rattle.msc_tree.specs.Views.{chart_view, statement_view};

use crate::gathering::{gathered_level, unpaired};
use crate::references::ReferenceLists;
use level_pieces::chart_pieces;
use msc_base::{Items, Name, Names, NoMemory};
use msc_meaning::{Body, ChartEntry, EntryContent};
use msc_tree::{Content, RawChart, Statement};
use std::alloc::Global;

/// What charts are gathered to.
#[derive(Drop)]
pub struct GatheredCharts<'a> {
    /// An entry for each chart, in which its gates can be looked up; of a graph it holds nothing.
    pub entries: Vec<ChartEntry>,
    /// The references of each chart, level by level.
    pub references: Vec<ReferenceLists<'a>>,
}

/// What a chart is gathered to.
#[derive(Drop)]
struct GatheredChart<'a> {
    body: Body,
    references: ReferenceLists<'a>,
}

/// What statements are gathered to, where `names` are the instances of their chart.
fn gathered_statements<'a>(
    alloc: Global,
    names: &Names,
    list: &'a [Statement],
) -> Result<GatheredChart<'a>, NoMemory>
    requires { AreWellFormed (statements_text 0 Whole (statement_tree (map statement_view list.now))) }
    ensures { IfOk result (λ one. IsGatheredLevel names.now (statements_pieces names.now 0 (statement_tree (map statement_view list.now))) (body_view one.body) (lists_view one.references)) }
{
    let mut references = Items::new(alloc);
    let pieces = chart_pieces(alloc, names, list)?;
    let body = gathered_level(alloc, names, pieces.as_slice(), &mut references)?;
    Ok(GatheredChart { body, references })
}

/// What a graph is gathered to: nothing stands on its level.
fn gathered_graph<'a>(alloc: Global) -> Result<GatheredChart<'a>, NoMemory>
    ensures { (chart : Chart) (drawn : Graph) → chart.content ≡ HighLevel drawn → IfOk result (λ one. IsGatheredChart chart (body_view one.body) (lists_view one.references)) }
{
    let mut references = Items::new(alloc);
    references.push(Items::new(alloc))?;
    let body = unpaired(alloc, Items::new(alloc), Vec::new(alloc));
    Ok(GatheredChart { body, references })
}

/// What a chart is gathered to, whose instances `names` are.
fn gathered_chart<'a>(
    alloc: Global,
    chart: &'a RawChart,
    names: &Names,
) -> Result<GatheredChart<'a>, NoMemory>
    requires formed { IsWellFormed (chart_view chart.now) }
    requires names { names.now ≡ instances (chart_view chart.now) }
    ensures { IfOk result (λ one. IsGatheredChart (chart_view chart.now) (body_view one.body) (lists_view one.references)) }
{
    match &chart.content {
        Content::Events(list) => gathered_statements(alloc, names, list.as_slice()),
        Content::Graph(_) => gathered_graph(alloc),
    }
}

/// Adds what one chart more of that name is gathered to.
fn add_chart<'a>(
    alloc: Global,
    gathered: &mut GatheredCharts<'a>,
    name: &Name,
    one: GatheredChart<'a>,
) -> Result<(), NoMemory>
    ensures entries { OnOk result (table_view gathered.new.entries.items ≡ table_view gathered.old.entries.items ++ gathered_entry name.now (body_view one.entry.body) ∷ []) }
    ensures references { OnOk result (charts_view gathered.new.references.items ≡ charts_view gathered.old.references.items ++ lists_view one.entry.references ∷ []) }
{
    let name = name.copy(alloc)?;
    gathered.entries.push(ChartEntry {
        name,
        decls: Items::new(alloc),
        content: EntryContent::Basic(one.body),
    })?;
    gathered.references.push(one.references)?;
    Ok(())
}

/// What charts are gathered to, whose instances `lists` are. It fails only for want of memory.
pub fn gathered_charts<'a>(
    alloc: Global,
    charts: &'a [RawChart],
    lists: &[Names],
) -> Result<GatheredCharts<'a>, NoMemory>
    requires formed { AreAllWellFormed (map chart_view charts.now) }
    requires lists { lists.now ≡ map instances (map chart_view charts.now) }
    ensures { IfOk result (λ gathered. AreGathered (map chart_view charts.now) (table_view gathered.entries.items) (charts_view gathered.references.items)) }
{
    let mut gathered = GatheredCharts {
        entries: Vec::with_capacity(alloc, charts.len())?,
        references: Vec::with_capacity(alloc, charts.len())?,
    };
    for (number, chart) in charts.iter().enumerate() {
        let one = gathered_chart(alloc, chart, &lists[number])?;
        add_chart(alloc, &mut gathered, &chart.name, one)?;
    }
    Ok(gathered)
}
