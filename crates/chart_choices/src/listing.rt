//! The choices of a chart of an accepted document.

ghost use Rattle.std.specs.Prelude.{◌≡◌, Some, IfOk, OnOk};
ghost use Rattle.std.specs.List.Sorted.{IsPermutation};
ghost use Rattle.choice_meaning.specs.ChoiceLists.{AreInOrder, AreMade};
ghost use Rattle.choice_meaning.specs.Choices.{choices_of, woven_choices};
ghost use Rattle.choice_parts.specs.ChoiceParts.{woven_parts};
ghost use Rattle.expansion_tree.specs.Views.{expansion_view};
ghost use Rattle.msc_base.specs.declared.place.Place.{Place};
ghost use Rattle.msc_acceptance.specs.AcceptedCharts.{IsAcceptedTable};
ghost use Rattle.msc_meaning.specs.Tables.{Basic, ChartEntry as PlainEntry, chart_at, refinements};
ghost use Rattle.msc_meaning.specs.Views.{body_view, entry_view, table_view};
ghost use Rattle.chart_choices.specs.Listed.{IsListed, at_place, made_choices};
ghost use Rattle.chart_choices.specs.Making.{AreFound, AreJudged, AreReady, IsBasicChart};

use crate::choice::{Choice, ChoiceList};
use crate::tables::TermTables;
use crate::walk::{add_left, add_level};
use chart_judge::laws::charts_have_terms;
use choice_parts::{left_row_in, pairs_in};
use choice_terms::laws::choices_have_parts;
use expanded_charts::{ExpandedChart, expansion_of};
use expansion_tree::Expansion;
use gate_ends::ends_are_found;
use level_surroundings::Decomposed;
use msc_acceptance::Accepted;
use msc_base::{Limits, NoMemory};
use msc_meaning::{Body, ChartEntry, EntryContent};
use msc_tree::Decl;
use std::alloc::Global;
use term_tables::Nets;

/// The choices of a body with these declarations, in the order of the woven list.
fn body_choices(
    alloc: Global,
    tables: &mut TermTables,
    decls: &[Decl],
    body: &Body,
    expansion: &Expansion,
) -> Result<Vec<Choice>, NoMemory>
    requires judged { AreJudged tables.old.names tables.old.nets.labels (woven_parts (refinements decls.now) (Basic (body_view body.now)) (expansion_view expansion.now)) }
    requires ready { AreReady tables.old }
    ensures { IfOk result (λ found. AreFound tables.old.names tables.old.nets.labels (woven_parts (refinements decls.now) (Basic (body_view body.now)) (expansion_view expansion.now)) found.items) }
{
    let mut found = Vec::new(alloc);
    let decomposed = Decomposed::of(alloc, decls)?;
    if decomposed.is_empty() {
        add_level(alloc, tables, body, expansion, &mut found)?;
        return Ok(found);
    }
    let row = left_row_in(expansion);
    let items = body.items.as_slice();
    add_left(
        alloc,
        tables,
        &decomposed,
        items,
        row,
        pairs_in(expansion),
        &mut found,
    )?;
    Ok(found)
}

/// The choices of a basic chart of that name with these declarations, in the order of the woven list.
fn basic_choices(
    alloc: Global,
    accepted: &Accepted,
    name: &[u8],
    decls: &[Decl],
    body: &Body,
) -> Result<Vec<Choice>, NoMemory>
    requires accepted { IsAcceptedTable (table_view accepted.now) }
    requires basic { IsBasicChart (table_view accepted.now) name.now decls.now (body_view body.now) }
    ensures { IfOk result (λ found. AreMade (table_view accepted.now) (woven_choices (refinements decls.now) (Basic (body_view body.now))) (made_choices found.items)) }
{
    choices_have_parts();
    charts_have_terms();
    ends_are_found();
    let depth = Limits::EXPANDED_NESTING as u32;
    let expanded = expansion_of(
        alloc,
        accepted.as_slice(),
        accepted.names(),
        accepted.gates(),
        depth,
        name,
    )?;
    let ExpandedChart {
        expansion,
        numbering,
    } = expanded;
    let mut tables = TermTables {
        names: numbering.names,
        nets: Nets::of_labels(alloc, numbering.labels),
    };
    let found = body_choices(alloc, &mut tables, decls, body, &expansion)?;
    Ok(found)
}

/// The choices of the chart of that name, in the order of the woven list; a graph has none.
fn chart_choices(
    alloc: Global,
    accepted: &Accepted,
    name: &[u8],
    chart: &ChartEntry,
) -> Result<Vec<Choice>, NoMemory>
    requires accepted { IsAcceptedTable (table_view accepted.now) }
    requires there { chart_at (table_view accepted.now) name.now ≡ Some (entry_view chart.now) }
    ensures { IfOk result (λ found. AreMade (table_view accepted.now) (choices_of (entry_view chart.now)) (made_choices found.items)) }
{
    match &chart.content {
        EntryContent::Basic(body) => {
            basic_choices(alloc, accepted, name, chart.decls.as_slice(), body)
        }
        EntryContent::Graph(_) => Ok(Vec::new(alloc)),
    }
}

/// Brings choices into the order of their places.
fn sort_choices(choices: &mut Vec<Choice>) -> Result<(), NoMemory>
    ensures permutation { IsPermutation choices.old.items choices.new.items }
    ensures ordered { OnOk result (AreInOrder (made_choices choices.new.items)) }
    ensures kept { OnOk result ((place : Place) → at_place place (made_choices choices.new.items) ≡ at_place place (made_choices choices.old.items)) }
{
    choices.sort_by_key(|choice| (choice.place.byte, choice.place.line, choice.place.column))?;
    Ok(())
}

/// The choices as a list.
fn listed(alloc: Global, choices: Vec<Choice>) -> Result<ChoiceList, NoMemory>
    ensures { IfOk result (λ list. list ≡ choices.items) }
{
    let mut list = ChoiceList::new(alloc);
    for choice in choices {
        list.push(choice)?;
    }
    Ok(list)
}

/// The choices of the chart of that name that several instances make, in the order of their places, and among those at one place in that of
/// the woven list; each with the names of these instances in the order of their bytes. It fails only for want of memory.
pub fn choices(alloc: Global, accepted: &Accepted, name: &[u8]) -> Result<ChoiceList, NoMemory>
    requires accepted { IsAcceptedTable (table_view accepted.now) }
    requires there { (chart : PlainEntry) × (chart_at (table_view accepted.now) name.now ≡ Some chart) }
    ensures { IfOk result (λ list. IsListed (table_view accepted.now) name.now (made_choices list)) }
{
    let Some(chart) = accepted.chart_named(name) else {
        return Ok(ChoiceList::new(alloc));
    };
    let mut found = chart_choices(alloc, accepted, name, chart)?;
    sort_choices(&mut found)?;
    let list = listed(alloc, found)?;
    Ok(list)
}
