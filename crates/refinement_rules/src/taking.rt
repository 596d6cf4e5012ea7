//! The instances that take part elsewhere in a chart than in one refining chart alone: for `faults`.

ghost use Rattle.std.specs.Borrow.{Bor};
ghost use Rattle.std.specs.Prelude.{◌≡◌, ◌↔◌, ℕ, List, IfOk, OnOk, length};
ghost use Rattle.chart_links.specs.Rows.{RowHas};
ghost use Rattle.chart_links.specs.Sets.{HasExpanded};
ghost use Rattle.chart_links.specs.Tables.{IsNumber};
ghost use Rattle.msc_base.specs.Lists.{IsAmong};
ghost use Rattle.msc_meaning.specs.Views.{body_view};
ghost use Rattle.refinement_rules.specs.Judging.{DeclNumber, Decomposes, IsTaken, IsTwice, OwnNumber};
ghost use Rattle.refinement_rules.specs.Walks.{HasBit, IsGrown, OneHolds};

use chart_links::{BitRow, LinkTables, empty_rows};
use gate_ends::chart_names;
use msc_base::{Name, NameTable, NoMemory};
use msc_meaning::Body;
use msc_tree::Decl;
use std::alloc::Global;

/// Adds the number of an instance that isn't decomposed.
fn add_own_one(
    set: &mut BitRow,
    tables: &LinkTables,
    refined: &NameTable,
    name: &Name,
) -> Result<(), NoMemory>
    ensures { OnOk result (IsGrown (HasBit set.old) (OwnNumber tables.now.known (IsAmong refined.now) name.now) (HasBit set.new)) }
{
    if !refined.has(name.bytes()) {
        tables.add_instance(set, name)?;
    }
    Ok(())
}

/// Adds the numbers of the instances that aren't decomposed.
fn add_own(
    set: &mut BitRow,
    tables: &LinkTables,
    refined: &NameTable,
    names: &[Name],
) -> Result<(), NoMemory>
    ensures { OnOk result (IsGrown (HasBit set.old) (OneHolds (OwnNumber tables.now.known (IsAmong refined.now)) names.now) (HasBit set.new)) }
{
    for name in names {
        add_own_one(set, tables, refined, name)?;
    }
    Ok(())
}

/// Adds the expanded instances of the charts of these names.
fn add_referenced(set: &mut BitRow, tables: &LinkTables, names: &[&Name]) -> Result<(), NoMemory>
    ensures { OnOk result (IsGrown (HasBit set.old) (OneHolds (λ (n : Bor (List ℕ)). HasExpanded tables.now.names tables.now.expanded.items n.now) names.now) (HasBit set.new)) }
{
    for name in names {
        tables.add_expanded(set, name)?;
    }
    Ok(())
}

/// Adds the expanded instances of a refining chart to the row of the instance.
fn add_refining(
    rows: &mut Vec<BitRow>,
    tables: &LinkTables,
    refined: &NameTable,
    name: &Name,
    chart: &Name,
) -> Result<(), NoMemory>
    requires { length rows.old.items ≡ length refined.now }
    ensures len { length rows.new.items ≡ length rows.old.items }
    ensures added { OnOk result (IsGrown (λ (p : ℕ × ℕ). RowHas rows.old.items p.0 p.1) (λ (p : ℕ × ℕ). IsNumber refined.now name.now p.0 × HasExpanded tables.now.names tables.now.expanded.items chart.now p.1) (λ (p : ℕ × ℕ). RowHas rows.new.items p.0 p.1)) }
{
    if let Some(number) = refined.number_of(name.bytes()) {
        let row = &mut rows[number];
        tables.add_expanded(row, chart)?;
    }
    Ok(())
}

/// Adds those of the chart that refines the instance of a declaration, where one does.
fn add_decl(
    rows: &mut Vec<BitRow>,
    tables: &LinkTables,
    refined: &NameTable,
    decl: &Decl,
) -> Result<(), NoMemory>
    requires { length rows.old.items ≡ length refined.now }
    ensures len { length rows.new.items ≡ length rows.old.items }
    ensures added { OnOk result (IsGrown (λ (p : ℕ × ℕ). RowHas rows.old.items p.0 p.1) (DeclNumber tables.now.names tables.now.expanded.items refined.now decl.now) (λ (p : ℕ × ℕ). RowHas rows.new.items p.0 p.1)) }
{
    match &decl.refined {
        Some(chart) => add_refining(rows, tables, refined, &decl.name, chart),
        None => Ok(()),
    }
}

/// For each decomposed instance the expanded instances of the charts that refine it.
fn refining_rows(
    alloc: Global,
    tables: &LinkTables,
    refined: &NameTable,
    decls: &[Decl],
) -> Result<Vec<BitRow>, NoMemory>
    ensures { IfOk result (λ rows. (p : ℕ × ℕ) → RowHas rows.items p.0 p.1 ↔ OneHolds (DeclNumber tables.now.names tables.now.expanded.items refined.now) decls.now p) }
{
    let mut rows = empty_rows(alloc, refined.len())?;
    for decl in decls {
        add_decl(&mut rows, tables, refined, decl)?;
    }
    Ok(rows)
}

/// Adds the numbers that two of the rows have.
fn add_double(alloc: Global, set: &mut BitRow, rows: &[BitRow]) -> Result<(), NoMemory>
    ensures { OnOk result (IsGrown (HasBit set.old) (IsTwice rows.now) (HasBit set.new)) }
{
    let mut once = BitRow::new(alloc);
    for row in rows {
        set.unite_common(&once, row)?;
        once.unite(row)?;
    }
    Ok(())
}

/// The numbers of the instances that take part elsewhere in a chart than in one refining chart alone: its own that aren't decomposed, those of
/// the charts that it references, and those of charts that refine two of its instances.
pub(crate) fn taken_numbers(
    alloc: Global,
    tables: &LinkTables,
    refined: &NameTable,
    decls: &[Decl],
    body: &Body,
) -> Result<BitRow, NoMemory>
    requires { (name : List ℕ) → IsAmong refined.now name ↔ OneHolds Decomposes decls.now name }
    ensures { IfOk result (λ set. (n : ℕ) → HasBit set n ↔ IsTaken tables.now.names tables.now.known tables.now.expanded.items decls.now (body_view body.now) n) }
{
    let mut set = BitRow::new(alloc);
    add_own(&mut set, tables, refined, body.cover.as_slice())?;
    let names = chart_names(alloc, body)?;
    add_referenced(&mut set, tables, names.as_slice())?;
    let rows = refining_rows(alloc, tables, refined, decls)?;
    add_double(alloc, &mut set, rows.as_slice())?;
    Ok(set)
}
