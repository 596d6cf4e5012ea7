//! Expansions of charts, with their levels and the charts that they name: one recursion through the text and the table.

ghost use Rattle.std.specs.Option.{option_copied};
ghost use Rattle.std.specs.Prelude.{◌≡◌, [], List, ℕ, IfOk, OnOk, map, option_map};
ghost use Rattle.expansion_tree.specs.Views.{expansion_view};
ghost use Rattle.gate_ends.specs.FoundEnds.{table_ends};
ghost use Rattle.gate_ends.specs.LevelGates.{HasNames};
ghost use Rattle.gate_tables.specs.ChartGates.{AreGatesOf};
ghost use Rattle.msc_meaning.specs.ItemViews.{bodies_view, inline_view, items_view};
ghost use Rattle.msc_meaning.specs.FarEnds.{far_end};
ghost use Rattle.msc_meaning.specs.Refinements.{refinings};
ghost use Rattle.msc_meaning.specs.Tables.{chart_at, refinements};
ghost use Rattle.msc_meaning.specs.Views.{body_view, entry_view, item_view, reference_view, table_view};
ghost use Rattle.msc_tree.specs.Expressions.{expressions};
ghost use Rattle.msc_tree.specs.Views.{expression_view, graph_view, node_view};
ghost use Rattle.expanded_charts.specs.Expanding.{expansion};
ghost use Rattle.level_surroundings.specs.GateWays.{ways_view};
ghost use Rattle.level_surroundings.specs.Givens.{around_view};
ghost use Rattle.expanded_charts.specs.Making.{AreMade, IsMade, chart_part, expression_part, expressions_parts, frames_parts, frames_view, graph_part, item_part, items_parts, level_part, lines_parts, lines_view, node_part, operands_parts};
ghost use Rattle.expanded_charts.specs.Numbering.{numbered_by, numbering_of};
ghost use Rattle.expanded_charts.specs.RefinedMaking.{AddsItems, beside_parts, left_parts, refined_part, refining_part, tied_part, woven_part};
ghost use Rattle.expanded_charts.specs.LeftItems.{left_item};
ghost use Rattle.level_surroundings.specs.RefiningViews.{refining_view, refinings_view};

use crate::above::{Above, past_made};
use crate::events::{event_of, events_left, events_of};
use crate::gate_ties::gate_ties;
use crate::made::{Made, MadeParts};
use crate::numbering::Numbering;
use crate::parts::{add, aside, in_row, no_parts, of_form, one_of, or_nothing, turns, walk};
use crate::past_refining::past_refined;
use crate::ties::level_tied;
use expansion_tree::Expansion;
use gate_tables::GateTables;
use general_ordering::level_pairs_of;
use graph_shapes::graph_shape;
use label_table::LabelTable;
use level_surroundings::{
    ChartTable, Decomposed, FarEnds, Given, JoinTable, Level, Refining, Ways, called_gates,
    chart_named, inner_ends, refined_ends, refinings_of,
};
use msc_base::{NameTable, NoMemory};
use msc_meaning::{Body, ChartEntry, EntryContent, InlineItem, Item, ReferenceItem};
use msc_tree::{Decl, NodeKind, RawGraph, RawLine, RefExpr};
use std::alloc::Global;

/// The chart of that name, whose references stand in each other less than so deep. It fails only for want of memory.
#[cycle(charts)]
fn chart_of<'a>(
    alloc: Global,
    table: ChartTable<'a>,
    numbering: &mut Numbering,
    depth: u32,
    next: u32,
    ways: &Ways<'a>,
    name: &[u8],
) -> Result<Made<'a>, NoMemory>
    requires named { HasNames table.charts.now table.names.now }
    requires gates { AreGatesOf (table_view table.charts.now) table.gates.now }
    ensures { IfOk result (IsMade numbering.old numbering.new (chart_part (table_view table.entry.charts.now) depth (ways_view ways.now) next name.now)) }
{
    if depth == 0 {
        return Ok(in_row(no_parts(alloc, next)));
    }
    match chart_named(table, name) {
        None => Ok(in_row(no_parts(alloc, next))),
        Some(chart) => match &chart.content {
            EntryContent::Basic(body) => {
                let decls = chart.decls.as_slice();
                woven_of(alloc, table, numbering, depth - 1, next, ways, decls, body)
            }
            EntryContent::Graph(graph) => {
                let made = graph_of(alloc, table, numbering, depth - 1, next, graph)?;
                Ok(made)
            }
        },
    }
}

/// A basic chart with these declarations, whose gates lead there.
#[cycle(charts)]
fn woven_of<'a>(
    alloc: Global,
    table: ChartTable<'a>,
    numbering: &mut Numbering,
    depth: u32,
    next: u32,
    ways: &Ways<'a>,
    decls: &'a [Decl],
    body: &'a Body,
) -> Result<Made<'a>, NoMemory>
    requires named { HasNames table.charts.now table.names.now }
    requires gates { AreGatesOf (table_view table.charts.now) table.gates.now }
    ensures { IfOk result (IsMade numbering.old numbering.new (woven_part (table_view table.entry.charts.now) depth (ways_view ways.now) next (refinements decls.now) (body_view body.now))) }
{
    let decomposed = Decomposed::of(alloc, decls)?;
    if decomposed.is_empty() {
        let far = FarEnds::Written;
        let given = Given { ways, far: &far };
        let made = level_of(alloc, table, numbering, depth, next, given, body)?;
        return Ok(made);
    }
    let made = refined_of(
        alloc,
        table,
        numbering,
        depth,
        next,
        ways,
        &decomposed,
        body,
    )?;
    Ok(made)
}

/// A chart with decomposed instances: what is left of its level beside the refining charts, tied by what ties the level.
#[cycle(charts)]
fn refined_of<'a>(
    alloc: Global,
    table: ChartTable<'a>,
    numbering: &mut Numbering,
    depth: u32,
    next: u32,
    ways: &Ways<'a>,
    decomposed: &Decomposed<'a>,
    body: &'a Body,
) -> Result<Made<'a>, NoMemory>
    requires named { HasNames table.charts.now table.names.now }
    requires gates { AreGatesOf (table_view table.charts.now) table.gates.now }
    ensures { IfOk result (IsMade numbering.old numbering.new (refined_part (table_view table.entry.charts.now) depth (ways_view ways.now) next decomposed.now (body_view body.now))) }
{
    let items = body.items.as_slice();
    let refined = refinings_of(alloc, table, items, decomposed.list())?;
    let called = called_gates(alloc, table, body)?;
    let far = refined_ends(alloc, body.pairs.as_slice(), refined.as_slice())?;
    let level = Level {
        called: &called,
        given: Given { ways, far: &far },
    };
    let parts = beside_of(
        alloc,
        table,
        numbering,
        depth,
        next,
        level,
        decomposed,
        items,
        refined.as_slice(),
    )?;
    let pairs = level_pairs_of(alloc, items, body.pairs.as_slice())?;
    let ties = gate_ties(alloc, &called, items)?;
    let made = level_tied(alloc, &pairs, ties.as_slice(), aside(parts))?;
    let made = past_made(alloc, Above::Level, made)?;
    Ok(made)
}

/// What is left of the items of a level without decomposed instances, and the charts that refine these.
#[cycle(charts)]
fn beside_of<'a>(
    alloc: Global,
    table: ChartTable<'a>,
    numbering: &mut Numbering,
    depth: u32,
    next: u32,
    level: Level<'_, 'a>,
    decomposed: &Decomposed<'a>,
    items: &'a [Item],
    refined: &[Refining<'a>],
) -> Result<MadeParts<'a>, NoMemory>
    requires named { HasNames table.charts.now table.names.now }
    requires gates { AreGatesOf (table_view table.charts.now) table.gates.now }
    requires refined { refinings_view refined.now ≡ refinings (table_view table.charts.now) (items_view items.now) decomposed.now }
    ensures { IfOk result (AreMade numbering.old numbering.new (beside_parts (table_view table.entry.charts.now) depth level.entry.called.now (around_view level.entry.given) next decomposed.now (items_view items.now) (refinings_view refined.now))) }
{
    let left = left_of(
        alloc, table, numbering, depth, next, level, decomposed, items,
    )?;
    let mut parts = no_parts(alloc, next);
    add(&mut parts, in_row(left))?;
    for refining in refined {
        let made = refining_of(alloc, table, numbering, depth, parts.next, level, refining)?;
        add(&mut parts, made)?;
    }
    Ok(parts)
}

/// A chart that refines an instance of that level: its level, above which its matched events have the numbers of those of the instance.
#[cycle(charts)]
fn refining_of<'a>(
    alloc: Global,
    table: ChartTable<'a>,
    numbering: &mut Numbering,
    depth: u32,
    next: u32,
    level: Level<'_, 'a>,
    refining: &Refining<'a>,
) -> Result<Made<'a>, NoMemory>
    requires named { HasNames table.charts.now table.names.now }
    requires gates { AreGatesOf (table_view table.charts.now) table.gates.now }
    ensures { IfOk result (IsMade numbering.old numbering.new (refining_part (table_view table.entry.charts.now) depth (far_end level.entry.called.now.ends (around_view level.entry.given)) next (refining_view refining.now))) }
{
    let matches = refining.matches.as_slice();
    let far = inner_ends(alloc, level, matches)?;
    let ways = Ways::Nowhere;
    let given = Given {
        ways: &ways,
        far: &far,
    };
    let made = tied_of(alloc, table, numbering, depth, next, given, refining.body)?;
    let made = past_refined(alloc, matches, made)?;
    Ok(made)
}

/// What is left of the items of a level without decomposed instances.
#[cycle(charts)]
fn left_of<'a>(
    alloc: Global,
    table: ChartTable<'a>,
    numbering: &mut Numbering,
    depth: u32,
    next: u32,
    level: Level<'_, 'a>,
    decomposed: &Decomposed<'a>,
    items: &'a [Item],
) -> Result<MadeParts<'a>, NoMemory>
    requires named { HasNames table.charts.now table.names.now }
    requires gates { AreGatesOf (table_view table.charts.now) table.gates.now }
    ensures { IfOk result (AreMade numbering.old numbering.new (left_parts (table_view table.entry.charts.now) depth level.entry.called.now (around_view level.entry.given) next decomposed.now (items_view items.now))) }
{
    let mut parts = no_parts(alloc, next);
    for item in items {
        add_left(
            alloc, table, numbering, depth, level, decomposed, &mut parts, item,
        )?;
    }
    Ok(parts)
}

/// Adds what is left of an item.
#[cycle(charts)]
fn add_left<'a>(
    alloc: Global,
    table: ChartTable<'a>,
    numbering: &mut Numbering,
    depth: u32,
    level: Level<'_, 'a>,
    decomposed: &Decomposed<'a>,
    parts: &mut MadeParts<'a>,
    item: &'a Item,
) -> Result<(), NoMemory>
    requires named { HasNames table.charts.now table.names.now }
    requires gates { AreGatesOf (table_view table.charts.now) table.gates.now }
    ensures { OnOk result (AddsItems (table_view table.entry.charts.now) depth level.entry.called.now (around_view level.entry.given) numbering.old numbering.new (left_item decomposed.now (item_view item.now)) parts.old parts.new) }
{
    match item {
        Item::Single(node) => {
            if decomposed.has(node) {
                return Ok(());
            }
            let made = event_of(alloc, numbering, parts.next, level, node)?;
            add(parts, made)?;
            Ok(())
        }
        Item::Coregion(nodes) => {
            let nodes = nodes.as_slice();
            let events = events_left(alloc, numbering, parts.next, level, decomposed, nodes)?;
            add(parts, aside(events))?;
            Ok(())
        }
        Item::Inline(_) => {
            let made = item_of(alloc, table, numbering, depth, parts.next, level, item)?;
            add(parts, made)?;
            Ok(())
        }
        Item::Reference(_) => {
            let made = item_of(alloc, table, numbering, depth, parts.next, level, item)?;
            add(parts, made)?;
            Ok(())
        }
    }
}

/// A level: its items, tied by its messages and its general ordering, and at its called gates, with all that its events show.
#[cycle(charts)]
fn tied_of<'a>(
    alloc: Global,
    table: ChartTable<'a>,
    numbering: &mut Numbering,
    depth: u32,
    next: u32,
    given: Given<'_, 'a>,
    body: &'a Body,
) -> Result<Made<'a>, NoMemory>
    requires named { HasNames table.charts.now table.names.now }
    requires gates { AreGatesOf (table_view table.charts.now) table.gates.now }
    ensures { IfOk result (IsMade numbering.old numbering.new (tied_part (table_view table.entry.charts.now) depth (around_view given.entry) next (body_view body.now))) }
{
    let called = called_gates(alloc, table, body)?;
    let level = Level {
        called: &called,
        given,
    };
    let parts = items_of(
        alloc,
        table,
        numbering,
        depth,
        next,
        level,
        body.items.as_slice(),
    )?;
    let pairs = level_pairs_of(alloc, body.items.as_slice(), body.pairs.as_slice())?;
    let ties = gate_ties(alloc, &called, body.items.as_slice())?;
    let made = level_tied(alloc, &pairs, ties.as_slice(), in_row(parts))?;
    Ok(made)
}

/// A level, above which its own numbers are gone.
#[cycle(charts)]
fn level_of<'a>(
    alloc: Global,
    table: ChartTable<'a>,
    numbering: &mut Numbering,
    depth: u32,
    next: u32,
    given: Given<'_, 'a>,
    body: &'a Body,
) -> Result<Made<'a>, NoMemory>
    requires named { HasNames table.charts.now table.names.now }
    requires gates { AreGatesOf (table_view table.charts.now) table.gates.now }
    ensures { IfOk result (IsMade numbering.old numbering.new (level_part (table_view table.entry.charts.now) depth (around_view given.entry) next (body_view body.now))) }
{
    let made = tied_of(alloc, table, numbering, depth, next, given, body)?;
    let made = past_made(alloc, Above::Level, made)?;
    Ok(made)
}

/// The items of a level.
#[cycle(charts)]
fn items_of<'a>(
    alloc: Global,
    table: ChartTable<'a>,
    numbering: &mut Numbering,
    depth: u32,
    next: u32,
    level: Level<'_, 'a>,
    items: &'a [Item],
) -> Result<MadeParts<'a>, NoMemory>
    requires named { HasNames table.charts.now table.names.now }
    requires gates { AreGatesOf (table_view table.charts.now) table.gates.now }
    ensures { IfOk result (AreMade numbering.old numbering.new (items_parts (table_view table.entry.charts.now) depth level.entry.called.now (around_view level.entry.given) next (items_view items.now))) }
{
    let mut parts = no_parts(alloc, next);
    for item in items {
        let made = item_of(alloc, table, numbering, depth, parts.next, level, item)?;
        add(&mut parts, made)?;
    }
    Ok(parts)
}

/// An item.
#[cycle(charts)]
fn item_of<'a>(
    alloc: Global,
    table: ChartTable<'a>,
    numbering: &mut Numbering,
    depth: u32,
    next: u32,
    level: Level<'_, 'a>,
    item: &'a Item,
) -> Result<Made<'a>, NoMemory>
    requires named { HasNames table.charts.now table.names.now }
    requires gates { AreGatesOf (table_view table.charts.now) table.gates.now }
    ensures { IfOk result (IsMade numbering.old numbering.new (item_part (table_view table.entry.charts.now) depth level.entry.called.now (around_view level.entry.given) next (item_view item.now))) }
{
    match item {
        Item::Single(node) => {
            let made = event_of(alloc, numbering, next, level, node)?;
            Ok(made)
        }
        Item::Coregion(nodes) => {
            let parts = events_of(alloc, numbering, next, level, nodes.as_slice())?;
            Ok(aside(parts))
        }
        Item::Inline(inline) => {
            let made = inline_of(alloc, table, numbering, depth, next, level, inline)?;
            Ok(made)
        }
        Item::Reference(reference) => {
            let made = reference_of(alloc, table, numbering, depth, next, level, reference)?;
            Ok(made)
        }
    }
}

/// An inline expression: above it a gate that is called is one of its own.
#[cycle(charts)]
fn inline_of<'a>(
    alloc: Global,
    table: ChartTable<'a>,
    numbering: &mut Numbering,
    depth: u32,
    next: u32,
    level: Level<'_, 'a>,
    inline: &'a InlineItem,
) -> Result<Made<'a>, NoMemory>
    requires named { HasNames table.charts.now table.names.now }
    requires gates { AreGatesOf (table_view table.charts.now) table.gates.now }
    ensures { IfOk result (IsMade numbering.old numbering.new (item_part (table_view table.entry.charts.now) depth level.entry.called.now (around_view level.entry.given) next (inline_view inline.now))) }
{
    let name = inline.name.as_ref();
    let ways = level.given.ways.inside(alloc, level.called, name)?;
    let given = Given {
        ways: &ways,
        far: level.given.far,
    };
    let operands = inline.operands.as_slice();
    let parts = operands_of(alloc, table, numbering, depth, next, given, operands)?;
    let made = of_form(alloc, next, inline.form, inline.lower, inline.upper, parts)?;
    let made = past_made(alloc, Above::Inline(level.called, name), made)?;
    Ok(made)
}

/// The operands of an inline expression, whose gates lead there.
#[cycle(charts)]
fn operands_of<'a>(
    alloc: Global,
    table: ChartTable<'a>,
    numbering: &mut Numbering,
    depth: u32,
    next: u32,
    given: Given<'_, 'a>,
    operands: &'a [Body],
) -> Result<MadeParts<'a>, NoMemory>
    requires named { HasNames table.charts.now table.names.now }
    requires gates { AreGatesOf (table_view table.charts.now) table.gates.now }
    ensures { IfOk result (AreMade numbering.old numbering.new (operands_parts (table_view table.entry.charts.now) depth (around_view given.entry) next (bodies_view operands.now))) }
{
    let mut parts = no_parts(alloc, next);
    for operand in operands {
        let made = level_of(alloc, table, numbering, depth, parts.next, given, operand)?;
        add(&mut parts, made)?;
    }
    Ok(parts)
}

/// A reference: above it a gate that is called is one of its own, and one that a join passes on a gate of the level.
#[cycle(charts)]
fn reference_of<'a>(
    alloc: Global,
    table: ChartTable<'a>,
    numbering: &mut Numbering,
    depth: u32,
    next: u32,
    level: Level<'_, 'a>,
    reference: &'a ReferenceItem,
) -> Result<Made<'a>, NoMemory>
    requires named { HasNames table.charts.now table.names.now }
    requires gates { AreGatesOf (table_view table.charts.now) table.gates.now }
    ensures { IfOk result (IsMade numbering.old numbering.new (item_part (table_view table.entry.charts.now) depth level.entry.called.now (around_view level.entry.given) next (reference_view reference.now))) }
{
    let name = reference.name.as_ref();
    let joins = JoinTable::of(alloc, reference.joins.as_slice())?;
    let ways = level
        .given
        .ways
        .referred(alloc, level.called, name, &joins)?;
    let made = expression_of(alloc, table, numbering, depth, next, &ways, &reference.expr)?;
    let made = past_made(alloc, Above::Reference(level.called, name, &joins), made)?;
    Ok(made)
}

/// An expression of a reference, the gates of whose charts lead there.
#[cycle(charts)]
fn expression_of<'a>(
    alloc: Global,
    table: ChartTable<'a>,
    numbering: &mut Numbering,
    depth: u32,
    next: u32,
    ways: &Ways<'a>,
    expression: &RefExpr,
) -> Result<Made<'a>, NoMemory>
    requires named { HasNames table.charts.now table.names.now }
    requires gates { AreGatesOf (table_view table.charts.now) table.gates.now }
    ensures { IfOk result (IsMade numbering.old numbering.new (expression_part (table_view table.entry.charts.now) depth (ways_view ways.now) next (expression_view expression.now))) }
{
    match expression {
        RefExpr::Empty => Ok(in_row(no_parts(alloc, next))),
        RefExpr::Chart(name) => {
            let made = chart_of(alloc, table, numbering, depth, next, ways, name.bytes())?;
            Ok(made)
        }
        RefExpr::Alt(parts) => {
            let parts = expressions_of(
                alloc,
                table,
                numbering,
                depth,
                next,
                ways,
                parts.as_slice(),
            )?;
            Ok(one_of(parts))
        }
        RefExpr::Par(parts) => {
            let parts = expressions_of(
                alloc,
                table,
                numbering,
                depth,
                next,
                ways,
                parts.as_slice(),
            )?;
            Ok(aside(parts))
        }
        RefExpr::Seq(parts) => {
            let parts = expressions_of(
                alloc,
                table,
                numbering,
                depth,
                next,
                ways,
                parts.as_slice(),
            )?;
            Ok(in_row(parts))
        }
        RefExpr::Opt(part) => {
            let made = expression_of(alloc, table, numbering, depth, next, ways, part)?;
            let made = or_nothing(alloc, made)?;
            Ok(made)
        }
        RefExpr::Loop(lower, upper, part) => {
            let made = expression_of(alloc, table, numbering, depth, next, ways, part)?;
            let made = turns(alloc, next, *lower, *upper, made)?;
            Ok(made)
        }
    }
}

/// The parts of an expression.
#[cycle(charts)]
fn expressions_of<'a>(
    alloc: Global,
    table: ChartTable<'a>,
    numbering: &mut Numbering,
    depth: u32,
    next: u32,
    ways: &Ways<'a>,
    operands: &[RefExpr],
) -> Result<MadeParts<'a>, NoMemory>
    requires named { HasNames table.charts.now table.names.now }
    requires gates { AreGatesOf (table_view table.charts.now) table.gates.now }
    ensures { IfOk result (AreMade numbering.old numbering.new (expressions_parts (table_view table.entry.charts.now) depth (ways_view ways.now) next (expressions (map expression_view operands.now)))) }
{
    let mut parts = no_parts(alloc, next);
    for expression in operands {
        let made = expression_of(alloc, table, numbering, depth, parts.next, ways, expression)?;
        add(&mut parts, made)?;
    }
    Ok(parts)
}

/// The walks through a graph, with what its nodes come to. Their own number comes before the numbers of the nodes.
#[cycle(charts)]
fn graph_of<'a>(
    alloc: Global,
    table: ChartTable<'a>,
    numbering: &mut Numbering,
    depth: u32,
    next: u32,
    graph: &RawGraph,
) -> Result<Made<'a>, NoMemory>
    requires named { HasNames table.charts.now table.names.now }
    requires gates { AreGatesOf (table_view table.charts.now) table.gates.now }
    ensures { IfOk result (IsMade numbering.old numbering.new (graph_part (table_view table.entry.charts.now) depth next (graph_view graph.now))) }
{
    if next == u32::MAX {
        return Err(NoMemory);
    }
    let shape = graph_shape(alloc, graph)?;
    let parts = lines_of(
        alloc,
        table,
        numbering,
        depth,
        next + 1,
        graph.lines.as_slice(),
    )?;
    Ok(walk(alloc, next, shape, parts))
}

/// What the nodes of the lines of a graph come to.
#[cycle(charts)]
fn lines_of<'a>(
    alloc: Global,
    table: ChartTable<'a>,
    numbering: &mut Numbering,
    depth: u32,
    next: u32,
    lines: &[RawLine],
) -> Result<MadeParts<'a>, NoMemory>
    requires named { HasNames table.charts.now table.names.now }
    requires gates { AreGatesOf (table_view table.charts.now) table.gates.now }
    ensures { IfOk result (AreMade numbering.old numbering.new (lines_parts (table_view table.entry.charts.now) depth next (lines_view lines.now))) }
{
    let mut parts = no_parts(alloc, next);
    for line in lines {
        let made = node_of(alloc, table, numbering, depth, parts.next, &line.node)?;
        add(&mut parts, made)?;
    }
    Ok(parts)
}

/// What a node of a graph comes to. No gate of its charts leads anywhere.
#[cycle(charts)]
fn node_of<'a>(
    alloc: Global,
    table: ChartTable<'a>,
    numbering: &mut Numbering,
    depth: u32,
    next: u32,
    node: &NodeKind,
) -> Result<Made<'a>, NoMemory>
    requires named { HasNames table.charts.now table.names.now }
    requires gates { AreGatesOf (table_view table.charts.now) table.gates.now }
    ensures { IfOk result (IsMade numbering.old numbering.new (node_part (table_view table.entry.charts.now) depth next (node_view node.now))) }
{
    match node {
        NodeKind::Ends => Ok(in_row(no_parts(alloc, next))),
        NodeKind::Connect => Ok(in_row(no_parts(alloc, next))),
        NodeKind::Condition(_) => Ok(in_row(no_parts(alloc, next))),
        NodeKind::Refer(expression) => {
            let ways = Ways::Nowhere;
            let made = expression_of(alloc, table, numbering, depth, next, &ways, expression)?;
            Ok(made)
        }
        NodeKind::Frames(frames) => {
            let parts = frames_of(alloc, table, numbering, depth, next, frames.as_slice())?;
            Ok(aside(parts))
        }
    }
}

/// The walks through the frames of a node.
#[cycle(charts)]
fn frames_of<'a>(
    alloc: Global,
    table: ChartTable<'a>,
    numbering: &mut Numbering,
    depth: u32,
    next: u32,
    frames: &[RawGraph],
) -> Result<MadeParts<'a>, NoMemory>
    requires named { HasNames table.charts.now table.names.now }
    requires gates { AreGatesOf (table_view table.charts.now) table.gates.now }
    ensures { IfOk result (AreMade numbering.old numbering.new (frames_parts (table_view table.entry.charts.now) depth next (frames_view frames.now))) }
{
    let mut parts = no_parts(alloc, next);
    for frame in frames {
        let made = graph_of(alloc, table, numbering, depth, parts.next, frame)?;
        add(&mut parts, made)?;
    }
    Ok(parts)
}

/// The expansion of a chart, and the numbers of the instances and labels of its events.
#[derive(Drop)]
pub struct ExpandedChart {
    /// The expansion.
    pub expansion: Expansion,
    /// Its instances and labels.
    pub numbering: Numbering,
}

/// The expansion of the chart of that name in a table, of whose charts the names are given in their order, with what they say of their
/// gates, and whose references stand in each other less than so deep. It fails only for want of memory, for which it takes 2^32 events
/// and walks too.
pub fn expansion_of(
    alloc: Global,
    charts: &[ChartEntry],
    names: &NameTable,
    gates: &GateTables,
    depth: u32,
    name: &[u8],
) -> Result<ExpandedChart, NoMemory>
    requires named { HasNames charts.now names.now }
    requires gates { AreGatesOf (table_view charts.now) gates.now }
    ensures numbering { IfOk result (λ made. made.numbering ≡ numbering_of (expansion (table_ends (table_view charts.now)) (table_view charts.now) depth name.now)) }
    ensures expansion { IfOk result (λ made. expansion_view made.expansion ≡ numbered_by (numbering_of (expansion (table_ends (table_view charts.now)) (table_view charts.now) depth name.now)) (expansion (table_ends (table_view charts.now)) (table_view charts.now) depth name.now)) }
{
    let mut numbering = Numbering {
        names: NameTable::new(alloc),
        labels: LabelTable::new(alloc),
    };
    let table = ChartTable {
        charts,
        names,
        gates,
    };
    let made = chart_of(alloc, table, &mut numbering, depth, 0, &Ways::Nowhere, name)?;
    Ok(ExpandedChart {
        expansion: made.part,
        numbering,
    })
}
