//! What the joins of a chart add, by the facts of gates: for `sizes`.

ghost use Rattle.std.specs.Option.{option_copied};
ghost use Rattle.std.specs.Prelude.{◌≡◌, ◌+◌, ◌*◌, IfOk, option_map};
ghost use Rattle.gate_ends.specs.FoundEnds.{event_count, expression_inner, inner_of, inner_to};
ghost use Rattle.gate_ends.specs.JoinCounts.{join_count as count_join, joins_count as count_joins, levels_count as count_levels, own_count as count_own, references_count};
ghost use Rattle.gate_ends.specs.LevelGates.{items_in};
ghost use Rattle.gate_tables.specs.ChartGates.{AreFactsTo, AreGatesTo};
ghost use Rattle.gate_tables.specs.FactViews.{facts_view};
ghost use Rattle.join_sizes.specs.Counted.{any_tied, capped, counted};
ghost use Rattle.join_sizes.specs.JoinSizes.{content_joins};
ghost use Rattle.level_gathering.specs.ReferenceViews.{lists_view, references_view};
ghost use Rattle.msc_meaning.specs.LevelViews.{levels_view};
ghost use Rattle.msc_meaning.specs.Views.{body_view, content_view, table_view};
ghost use Rattle.msc_tree.specs.Views.{expression_view};

use chart_forms::tie_gates;
use gate_tables::{GateFacts, GateTables, LevelFacts, expression_facts, level_facts};
use level_gathering::{ReferenceList, ReferenceLists};
use msc_base::{Name, NoMemory};
use msc_meaning::{Body, BodyLevel, ChartEntry, EntryContent, body_levels};
use msc_tree::{Join, JoinEnd, RawReference, RefExpr};
use std::alloc::Global;

/// A number above all limits of sizes: what is as large is told no further.
const MOST: u64 = 2_000_001;

/// The charts of a table, and what is known of their gates, where references stand in each other less than so deep.
#[derive(Clone, Copy)]
pub struct ChartTable<'a> {
    pub charts: &'a [ChartEntry],
    pub depth: u32,
    pub gates: &'a GateTables,
}

/// A level, and what is known of the gates of its references and inline expressions.
#[derive(Clone, Copy)]
struct KnownLevel<'a> {
    body: &'a Body,
    facts: &'a LevelFacts,
}

/// How many inner events there are.
fn count_of(facts: Option<&GateFacts>) -> u64
    ensures { result ≡ counted (option_map facts_view (option_copied facts.entry)) }
{
    match facts {
        Some(facts) => u64::from(facts.count),
        None => 0,
    }
}

/// A product, as far as it is told.
fn product_of(near: u64, far: u64) -> u64
    ensures { result ≡ capped (near * far) }
{
    near.saturating_mul(far).min(MOST)
}

/// A sum, as far as it is told.
fn sum_of(sum: u64, other: u64) -> u64
    ensures { result ≡ capped (sum + other) }
{
    sum.saturating_add(other).min(MOST)
}

/// The inner events of a gate of a reference or an inline expression of the level, by its name.
fn named_count(table: ChartTable<'_>, level: KnownLevel<'_>, name: &Name, gate: &Name) -> u64
    requires { AreFactsTo (table_view table.charts.now) table.depth (items_in (body_view level.body.now)) level.facts.now }
    ensures { result ≡ capped (event_count (inner_of (inner_to (table_view table.entry.charts.now) table.entry.depth) (items_in (body_view level.entry.body.now)) name.now gate.now)) }
{
    count_of(level.facts.facts_at(name.bytes(), gate.bytes()))
}

/// The inner events of a gate of charts that an expression names.
fn expression_count(
    alloc: Global,
    table: ChartTable<'_>,
    expression: &RefExpr,
    gate: &Name,
) -> Result<u64, NoMemory>
    requires { AreGatesTo (table_view table.charts.now) table.depth table.gates.now }
    ensures { IfOk result (λ count. count ≡ capped (event_count (expression_inner (inner_to (table_view table.entry.charts.now) table.entry.depth) (expression_view expression.now) gate.now))) }
{
    let found = expression_facts(alloc, table.gates, expression, gate.bytes())?;
    Ok(count_of(found.as_ref()))
}

/// The inner events of a gate of a reference: by its name, or where it has none by its expression.
fn own_count(
    alloc: Global,
    table: ChartTable<'_>,
    level: KnownLevel<'_>,
    reference: &RawReference,
    gate: &Name,
) -> Result<u64, NoMemory>
    requires gates { AreGatesTo (table_view table.charts.now) table.depth table.gates.now }
    requires facts { AreFactsTo (table_view table.charts.now) table.depth (items_in (body_view level.body.now)) level.facts.now }
    ensures { IfOk result (λ count. count ≡ capped (count_own (inner_to (table_view table.entry.charts.now) table.entry.depth) (items_in (body_view level.entry.body.now)) reference.now.name (expression_view reference.now.expr) gate.now)) }
{
    match &reference.name {
        Some(name) => Ok(named_count(table, level, name, gate)),
        None => expression_count(alloc, table, &reference.expr, gate),
    }
}

/// What a join adds.
fn join_count(
    alloc: Global,
    table: ChartTable<'_>,
    level: KnownLevel<'_>,
    reference: &RawReference,
    join: &Join,
) -> Result<u64, NoMemory>
    requires gates { AreGatesTo (table_view table.charts.now) table.depth table.gates.now }
    requires facts { AreFactsTo (table_view table.charts.now) table.depth (items_in (body_view level.body.now)) level.facts.now }
    ensures { IfOk result (λ count. count ≡ capped (count_join (inner_to (table_view table.entry.charts.now) table.entry.depth) (items_in (body_view level.entry.body.now)) reference.now.name (expression_view reference.now.expr) join.now.gate join.now.to)) }
{
    match &join.to {
        JoinEnd::Env(_) => Ok(0),
        JoinEnd::Reference(name, gate) => {
            let near = own_count(alloc, table, level, reference, &join.gate)?;
            let far = named_count(table, level, name, gate);
            Ok(product_of(near, far))
        }
    }
}

/// What these joins of a reference add.
fn joins_count(
    alloc: Global,
    table: ChartTable<'_>,
    level: KnownLevel<'_>,
    reference: &RawReference,
    joins: &[Join],
) -> Result<u64, NoMemory>
    requires gates { AreGatesTo (table_view table.charts.now) table.depth table.gates.now }
    requires facts { AreFactsTo (table_view table.charts.now) table.depth (items_in (body_view level.body.now)) level.facts.now }
    ensures { IfOk result (λ count. count ≡ capped (count_joins (inner_to (table_view table.entry.charts.now) table.entry.depth) (items_in (body_view level.entry.body.now)) reference.now.name (expression_view reference.now.expr) joins.now)) }
{
    let mut sum = 0u64;
    for join in joins {
        let more = join_count(alloc, table, level, reference, join)?;
        sum = sum_of(sum, more);
    }
    Ok(sum)
}

/// What the joins of references of the level add.
fn known_count(
    alloc: Global,
    table: ChartTable<'_>,
    level: KnownLevel<'_>,
    references: &[&RawReference],
) -> Result<u64, NoMemory>
    requires gates { AreGatesTo (table_view table.charts.now) table.depth table.gates.now }
    requires facts { AreFactsTo (table_view table.charts.now) table.depth (items_in (body_view level.body.now)) level.facts.now }
    ensures { IfOk result (λ count. count ≡ capped (references_count (inner_to (table_view table.entry.charts.now) table.entry.depth) (items_in (body_view level.entry.body.now)) (references_view references.now))) }
{
    let mut sum = 0u64;
    for reference in references {
        let more = joins_count(alloc, table, level, reference, reference.joins.as_slice())?;
        sum = sum_of(sum, more);
    }
    Ok(sum)
}

/// Whether a join of one of the references ties two gates.
fn any_ties(references: &[&RawReference]) -> bool
    ensures { result ≡ any_tied (references_view references.now) }
{
    for reference in references {
        if tie_gates(reference.joins.as_slice()) {
            return true;
        }
    }
    false
}

/// What the joins of a level's references add. Where none ties two gates the level isn't looked at.
#[tactic(auto, using(crate::proofs::Counts::references_nothing))]
fn level_count(
    alloc: Global,
    table: ChartTable<'_>,
    body: &Body,
    references: &[&RawReference],
) -> Result<u64, NoMemory>
    requires { AreGatesTo (table_view table.charts.now) table.depth table.gates.now }
    ensures { IfOk result (λ count. count ≡ capped (references_count (inner_to (table_view table.entry.charts.now) table.entry.depth) (items_in (body_view body.now)) (references_view references.now))) }
{
    if !any_ties(references) {
        return Ok(0);
    }
    let facts = level_facts(alloc, table.gates, body)?;
    let level = KnownLevel {
        body,
        facts: &facts,
    };
    known_count(alloc, table, level, references)
}

/// What the joins of levels add, each with its references.
fn levels_count(
    alloc: Global,
    table: ChartTable<'_>,
    levels: &[BodyLevel<'_>],
    references: &[ReferenceList<'_>],
) -> Result<u64, NoMemory>
    requires { AreGatesTo (table_view table.charts.now) table.depth table.gates.now }
    ensures { IfOk result (λ count. count ≡ capped (count_levels (inner_to (table_view table.entry.charts.now) table.entry.depth) (levels_view levels.now) (lists_view references.now))) }
{
    let count = levels.len().min(references.len());
    let mut sum = 0u64;
    for number in 0..count {
        let body = levels[number].body;
        let more = level_count(alloc, table, body, references[number].as_slice())?;
        sum = sum_of(sum, more);
    }
    Ok(sum)
}

/// What the joins of a chart add, by its content and the references of its levels.
pub fn content_count(
    alloc: Global,
    table: ChartTable<'_>,
    content: &EntryContent,
    references: &ReferenceLists<'_>,
) -> Result<u64, NoMemory>
    requires { AreGatesTo (table_view table.charts.now) table.depth table.gates.now }
    ensures { IfOk result (λ count. count ≡ capped (content_joins (inner_to (table_view table.entry.charts.now) table.entry.depth) (content_view content.now) (lists_view references.now))) }
{
    match content {
        EntryContent::Basic(body) => {
            let levels = body_levels(alloc, body)?;
            levels_count(alloc, table, levels.as_slice(), references.as_slice())
        }
        EntryContent::Graph(_) => Ok(0),
    }
}
