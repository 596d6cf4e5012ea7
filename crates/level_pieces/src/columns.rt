//! Numbers items and instances, and weaves the columns by column_order: for `weaving`.

ghost use Rattle.std.specs.Prelude.{◌≡◌, ◌++◌, IfOk, OnOk, [], map};
ghost use Rattle.column_order.specs.Answers.{IfStuck, IfWhole};
ghost use Rattle.column_order.specs.Weaving.{IsCrossedAt, IsWoven};
ghost use Rattle.level_pieces.specs.ItemEdges.{child_edges, created_edges, creation_edges, item_edges, lead_edges, name_edge, own_edges};
ghost use Rattle.level_pieces.specs.ItemNumbers.{AreInside};
ghost use Rattle.msc_meaning.specs.LevelItems.{columns_of};
ghost use Rattle.level_pieces.specs.PieceViews.{part_view, setting_leads};
ghost use Rattle.msc_base.specs.Lists.{AreDifferent};
ghost use Rattle.msc_base.specs.declared.label.Kind.TheVariants.{Create};
ghost use Rattle.msc_tree.specs.Views.{form_view};

use crate::column_table::ColumnTable;
use crate::pieces::{Part, PieceSide};
use column_order::{Edge, Sorted, weave_entries};
use msc_base::{Kind, Name, NameTable, NoMemory, number_of};
use msc_tree::{RawForm, Target};
use std::alloc::Global;

/// Appends the edge of an item in the column of that name: from the number of the instance to that of the item.
fn push_edge(
    edges: &mut Vec<Edge>,
    table: &ColumnTable<'_>,
    at: &Name,
    item: u32,
) -> Result<(), NoMemory>
    ensures { OnOk result (edges.new.items ≡ edges.old.items ++ name_edge table.now at.now item) }
{
    match table.number_of(at) {
        None => Ok(()),
        Some(column) => {
            let from = number_of(column)?;
            edges.push(Edge { from, to: item })?;
            Ok(())
        }
    }
}

/// Appends an edge of an item for each of its instances, each once.
fn push_leads(
    alloc: Global,
    edges: &mut Vec<Edge>,
    table: &ColumnTable<'_>,
    leads: &[Name],
    item: u32,
) -> Result<(), NoMemory>
    ensures { OnOk result (edges.new.items ≡ edges.old.items ++ lead_edges table.now [] leads.now item) }
{
    if leads.len() == 1 {
        return push_edge(edges, table, &leads[0], item);
    }
    let mut seen = NameTable::new(alloc);
    for at in leads {
        if !seen.has(at.bytes()) {
            push_edge(edges, table, at, item)?;
        }
        seen.add(alloc, at.bytes())?;
    }
    Ok(())
}

/// Appends the edges of an item by itself.
fn push_item(
    alloc: Global,
    edges: &mut Vec<Edge>,
    table: &ColumnTable<'_>,
    setting: PieceSide<'_, '_>,
    item: u32,
) -> Result<(), NoMemory>
    ensures { OnOk result (edges.new.items ≡ edges.old.items ++ lead_edges table.now [] (setting_leads setting.entry) item) }
{
    match setting {
        PieceSide::InColumn(name) => push_edge(edges, table, name, item),
        PieceSide::Behind(names) => push_leads(alloc, edges, table, names.as_slice(), item),
        PieceSide::Inside(names) => push_leads(alloc, edges, table, names.as_slice(), item),
    }
}

/// Appends the edge of a child, where it is an instance.
fn push_child(
    edges: &mut Vec<Edge>,
    table: &ColumnTable<'_>,
    target: &Target,
    item: u32,
) -> Result<(), NoMemory>
    ensures { OnOk result (edges.new.items ≡ edges.old.items ++ child_edges table.now Create target.now item) }
{
    match target {
        Target::Instance(child) => push_edge(edges, table, child, item),
        Target::Nobody => Ok(()),
        Target::Env(_) => Ok(()),
        Target::Gate(_, _) => Ok(()),
    }
}

/// Appends the edge of a creation in the column of the child.
fn push_created(
    edges: &mut Vec<Edge>,
    table: &ColumnTable<'_>,
    form: &RawForm,
    item: u32,
) -> Result<(), NoMemory>
    ensures { OnOk result (edges.new.items ≡ edges.old.items ++ created_edges table.now (form_view form.now) item) }
{
    let RawForm::Single(event) = form else {
        return Ok(());
    };
    match event.kind {
        Kind::Create => push_child(edges, table, &event.target, item),
        Kind::Output
        | Kind::Input
        | Kind::OutputLost
        | Kind::InputFound
        | Kind::Action
        | Kind::TimerStart
        | Kind::TimerStop
        | Kind::Timeout => Ok(()),
    }
}

/// Appends the edges of the creations.
fn push_creations(
    edges: &mut Vec<Edge>,
    table: &ColumnTable<'_>,
    parts: &[Part<'_, '_>],
) -> Result<(), NoMemory>
    ensures { OnOk result (edges.new.items ≡ edges.old.items ++ creation_edges table.now (map part_view parts.now)) }
{
    for part in parts {
        push_created(edges, table, part.piece.form, part.item)?;
    }
    Ok(())
}

/// Appends the edges of the parts by themselves.
fn push_parts(
    alloc: Global,
    edges: &mut Vec<Edge>,
    table: &ColumnTable<'_>,
    parts: &[Part<'_, '_>],
) -> Result<(), NoMemory>
    ensures { OnOk result (edges.new.items ≡ edges.old.items ++ own_edges table.now (map part_view parts.now)) }
{
    for part in parts {
        push_item(alloc, edges, table, part.piece.setting, part.item)?;
    }
    Ok(())
}

/// The edges of the items: a creation stands first in the column of the child.
fn edges_of(
    alloc: Global,
    table: &ColumnTable<'_>,
    parts: &[Part<'_, '_>],
) -> Result<Vec<Edge>, NoMemory>
    ensures { IfOk result (λ edges. edges.items ≡ item_edges table.now (map part_view parts.now)) }
{
    let mut edges = Vec::new(alloc);
    push_creations(&mut edges, table, parts)?;
    push_parts(alloc, &mut edges, table, parts)?;
    Ok(edges)
}

/// The woven list of so many items, by their numbers, or the number of the earliest that remains.
pub fn woven_order(
    alloc: Global,
    names: &[Name],
    items: usize,
    parts: &[Part<'_, '_>],
) -> Result<Sorted, NoMemory>
    requires different { AreDifferent names.now }
    requires inside { AreInside items (map part_view parts.now) }
    ensures woven { IfOk result (λ sorted. IfWhole sorted (λ order. IsWoven items (columns_of (map part_view parts.now) names.now) order.items)) }
    ensures crossed { IfOk result (λ sorted. IfStuck sorted (IsCrossedAt items (columns_of (map part_view parts.now) names.now))) }
{
    let table = ColumnTable::of(alloc, names)?;
    let edges = edges_of(alloc, &table, parts)?;
    let count = number_of(items)?;
    let columns = number_of(names.len())?;
    weave_entries(alloc, count, columns, edges.as_slice())
}
