//! Decomposed instances: whether charts have some, what is known of their links, and the first fault.

ghost use Rattle.std.specs.List.{list_any};
ghost use Rattle.std.specs.Option.{option_copied};
ghost use Rattle.std.specs.Prelude.{◌≡◌, IfOk, List, map};
ghost use Rattle.chart_links.specs.SummaryViews.{summary_view};
ghost use Rattle.chart_links.specs.Summaries.{summary_of};
ghost use Rattle.chart_text.specs.PassageViews.{passage_view, text_view};
ghost use Rattle.chart_text.specs.WellFormed.{AreAllWellFormed};
ghost use Rattle.gate_ends.specs.LevelGates.{HasNames};
ghost use Rattle.msc_acceptance.specs.Acceptance.{BreaksOf};
ghost use Rattle.msc_acceptance.specs.Deciding.{decompositions};
ghost use Rattle.msc_acceptance.specs.RefinedTexts.{AreKnownLinks, AreKnownRefinements, AreLinksOf, AreRefinementPlaces, is_refined as refines, is_refined_chart, is_refined_text, passage_refines};
ghost use Rattle.msc_acceptance.specs.Rules.{InOne};
ghost use Rattle.msc_base.specs.Places.{IsLeast};
ghost use Rattle.msc_instances.specs.Instances.{instances};
ghost use Rattle.msc_meaning.specs.Tables.{Table};
ghost use Rattle.msc_meaning.specs.Views.{table_view};
ghost use Rattle.msc_meaning.specs.WovenTables.{AreEntriesOf, heading_decls};
ghost use Rattle.msc_rules.specs.FirstFaults.{IsBest};
ghost use Rattle.msc_rules.specs.Rules.{number_of};
ghost use Rattle.msc_tree.specs.Charts.{Chart};
ghost use Rattle.msc_tree.specs.Views.{chart_view, statement_view};
ghost use Rattle.refinement_rules.specs.Coregions.{HasLocalCoregion};

use crate::links::any_of;
use crate::walks::earlier;
use chart_links::{LinkTables, chart_summaries, link_tables};
use chart_text::Passage;
use msc_base::{NameTable, Names, NoMemory, Place};
use msc_meaning::ChartEntry;
use msc_rules::{Broken, Rule, broken_at, earlier_fault};
use msc_tree::{Decl, RawChart, Statement};
use refinement_rules::{RefinementPlaces, refinement_places};
use std::alloc::Global;

/// What is known of decomposed instances before charts are looked at together.
#[derive(Clone, Copy)]
pub struct KnownRefinements<'a> {
    /// What the charts say of each other, where one has decomposed instances.
    pub links: Option<&'a LinkTables>,
    /// Where the earliest coregion of a decomposed instance stands.
    pub coregion: Option<Place>,
}

/// Whether the declaration names a refining chart.
fn decl_refines(decl: &Decl) -> bool
    ensures { result ≡ refines decl.now }
{
    decl.refined.is_some()
}

/// Whether what a statement declares has a refining chart.
fn heading_refines(statement: &Statement) -> bool
    ensures { result ≡ list_any refines (heading_decls (statement_view statement.now)) }
{
    match statement {
        Statement::Column(held, _) => decl_refines(held.decl()),
        Statement::Heading(held) => decl_refines(held.decl()),
        Statement::One(_, _) => false,
        Statement::Covered(_, _) => false,
        Statement::Ended(_) => false,
    }
}

/// Whether what a passage declares has a refining chart.
fn declares_refined(passage: Passage<'_>) -> bool
    ensures { result ≡ passage_refines (passage_view passage.entry) }
{
    match passage {
        Passage::Head(held) => decl_refines(held),
        Passage::Statement(_, _, held) => heading_refines(held),
        Passage::Item(_, _) => false,
        Passage::Operand(_, _) => false,
    }
}

/// Whether a chart of that text has decomposed instances.
pub fn is_refined(text: &[Passage<'_>]) -> bool
    ensures { result ≡ is_refined_text (text_view text.now) }
{
    for passage in text {
        if declares_refined(*passage) {
            return true;
        }
    }
    false
}

/// What the charts say of each other, where one of them has decomposed instances.
pub fn known_links(
    alloc: Global,
    charts: &[RawChart],
    lists: &[Names],
    refined: &[bool],
) -> Result<Option<LinkTables>, NoMemory>
    requires lists { lists.now ≡ map instances (map chart_view charts.now) }
    requires refined { refined.now ≡ map is_refined_chart (map chart_view charts.now) }
    ensures { IfOk result (AreLinksOf (map chart_view charts.now)) }
{
    if !any_of(refined) {
        return Ok(None);
    }
    let summaries = chart_summaries(alloc, charts, lists)?;
    let tables = link_tables(alloc, summaries.as_slice())?;
    Ok(Some(tables))
}

/// The earliest places at which the charts of a table break the rules on decomposed instances.
fn places_of(
    alloc: Global,
    entries: &[ChartEntry],
    names: &NameTable,
    links: Option<&LinkTables>,
) -> Result<RefinementPlaces, NoMemory>
    requires { HasNames entries.now names.now }
    ensures { IfOk result (λ places. (charts : List Chart) → AreEntriesOf instances charts (table_view entries.now) → AreKnownLinks charts links.entry → AreRefinementPlaces (map summary_of charts) (table_view entries.now) places) }
{
    match links {
        None => Ok(RefinementPlaces {
            mismatch: None,
            shared: None,
            inside: None,
            local: None,
        }),
        Some(tables) => {
            let places = refinement_places(alloc, entries, names, tables)?;
            Ok(places)
        }
    }
}

/// The first fault of decomposed instances, by these places.
fn first_fault(places: RefinementPlaces, coregion: Option<Place>) -> Option<Broken<Rule>>
    ensures { (charts : List Chart) (table : Table) → AreEntriesOf instances charts table → AreRefinementPlaces (map summary_of charts) table places → IsLeast (InOne HasLocalCoregion charts) coregion → IsBest number_of (BreaksOf charts) decompositions result }
{
    let mismatch = broken_at(Rule::DecompositionMismatch, places.mismatch);
    let shared = broken_at(Rule::SharedPart, places.shared);
    let inside = broken_at(Rule::Inside, places.inside);
    let local = broken_at(Rule::LocalEvent, earlier(coregion, places.local));
    earlier_fault(
        earlier_fault(earlier_fault(mismatch, shared), inside),
        local,
    )
}

/// The first fault of decomposed instances of charts of these entries.
pub fn refinement_fault(
    alloc: Global,
    entries: &[ChartEntry],
    names: &NameTable,
    known: KnownRefinements<'_>,
) -> Result<Option<Broken<Rule>>, NoMemory>
    requires { HasNames entries.now names.now }
    ensures { IfOk result (λ fault. (charts : List Chart) → AreEntriesOf instances charts (table_view entries.now) → AreKnownRefinements charts known.entry → IsBest number_of (BreaksOf charts) decompositions fault) }
{
    let places = places_of(alloc, entries, names, known.links)?;
    Ok(first_fault(places, known.coregion))
}
