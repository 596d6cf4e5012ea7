//! The charts of which one that refines an instance has more inside than it may: for `faults`.

ghost use Rattle.std.specs.Option.{option_copied};
ghost use Rattle.std.specs.Prelude.{◌≡◌, ◌↔◌, ℕ, List, IfOk, IsTrue, OnOk, option_map};
ghost use Rattle.gate_ends.specs.LevelGates.{HasNames, items_in};
ghost use Rattle.msc_base.specs.Lists.{IsAmong};
ghost use Rattle.msc_meaning.specs.Views.{body_view, content_view, entry_view, table_view};
ghost use Rattle.msc_meaning.specs.declared.body.ChartEntry as code;
ghost use Rattle.refinement_rules.specs.Judging.{EntryInside, EnvNumber, InsideBy, inside_content as content_of, inside_entry as entry_of, operands_env};
ghost use Rattle.refinement_rules.specs.Walks.{HasBit, IsGrown, OneHolds};

use crate::chart_table::{ChartTable, body_named, chart_named};
use crate::environment::{has_env, operands_of_items};
use crate::plain::either;
use crate::refined::some_refined;
use chart_links::{BitRow, LinkTables};
use msc_base::{Name, NameTable, NoMemory};
use msc_meaning::{Body, ChartEntry, EntryContent};
use std::alloc::Global;

/// Adds the number of a chart that has an event with the environment at any depth.
fn add_env_chart(
    set: &mut BitRow,
    table: ChartTable<'_>,
    tables: &LinkTables,
    chart: &ChartEntry,
) -> Result<(), NoMemory>
    requires { HasNames table.charts.now table.names.now }
    ensures { OnOk result (IsGrown (HasBit set.old) (EnvNumber (table_view table.entry.charts.now) tables.now.names (entry_view chart.now)) (HasBit set.new)) }
{
    if has_env(body_named(table, &chart.name)) {
        tables.add_chart(set, &chart.name)?;
    }
    Ok(())
}

/// The numbers of the charts that have one.
fn env_charts(alloc: Global, table: ChartTable<'_>, tables: &LinkTables) -> Result<BitRow, NoMemory>
    requires { HasNames table.charts.now table.names.now }
    ensures { IfOk result (λ set. (n : ℕ) → HasBit set n ↔ OneHolds (λ (c : code.ChartEntry). EnvNumber (table_view table.entry.charts.now) tables.now.names (entry_view c)) table.entry.charts.now n) }
{
    let mut set = BitRow::new(alloc);
    for chart in table.charts {
        add_env_chart(&mut set, table, tables, chart)?;
    }
    Ok(set)
}

/// Whether the body has an event with the environment in an operand.
fn inside_body(body: &Body) -> bool
    ensures { result ≡ operands_env (items_in (body_view body.now)) }
{
    operands_of_items(body.items.as_slice())
}

/// Whether what a chart is, is a graph, or has such an event.
fn inside_content(content: &EntryContent) -> bool
    ensures { result ≡ content_of (content_view content.now) }
{
    match content {
        EntryContent::Basic(body) => inside_body(body),
        EntryContent::Graph(_) => true,
    }
}

/// Whether there is no chart, or one such, or one with a decomposed instance.
fn inside_entry(entry: Option<&ChartEntry>) -> bool
    ensures { result ≡ entry_of (option_map entry_view (option_copied entry.entry)) }
{
    match entry {
        Some(chart) => either(
            some_refined(chart.decls.as_slice()),
            inside_content(&chart.content),
        ),
        None => true,
    }
}

/// Whether the chart of a name has more inside than it may, where those charts have events with the environment.
fn is_inside(table: ChartTable<'_>, tables: &LinkTables, envs: &BitRow, name: &Name) -> bool
    requires names { HasNames table.charts.now table.names.now }
    requires envs { (n : ℕ) → HasBit envs.now n ↔ OneHolds (λ (c : code.ChartEntry). EnvNumber (table_view table.charts.now) tables.now.names (entry_view c)) table.charts.now n }
    ensures { IsTrue result ↔ InsideBy (table_view table.entry.charts.now) tables.now.names tables.now.reach.items name.now }
{
    either(
        inside_entry(chart_named(table, name)),
        tables.leads_to_other(name, envs),
    )
}

/// Adds the name of a chart that has.
fn add_inside(
    alloc: Global,
    inside: &mut NameTable,
    table: ChartTable<'_>,
    tables: &LinkTables,
    envs: &BitRow,
    name: &Name,
) -> Result<(), NoMemory>
    requires names { HasNames table.charts.now table.names.now }
    requires envs { (n : ℕ) → HasBit envs.now n ↔ OneHolds (λ (c : code.ChartEntry). EnvNumber (table_view table.charts.now) tables.now.names (entry_view c)) table.charts.now n }
    ensures { OnOk result (IsGrown (IsAmong inside.old) (λ (n : List ℕ). (name.now ≡ n) × InsideBy (table_view table.entry.charts.now) tables.now.names tables.now.reach.items n) (IsAmong inside.new)) }
{
    if is_inside(table, tables, envs, name) {
        inside.add(alloc, name.bytes())?;
    }
    Ok(())
}

/// The names of those that have.
pub(crate) fn inside_charts(
    alloc: Global,
    table: ChartTable<'_>,
    tables: &LinkTables,
) -> Result<NameTable, NoMemory>
    requires { HasNames table.charts.now table.names.now }
    ensures { IfOk result (λ inside. (name : List ℕ) → IsAmong inside name ↔ OneHolds (λ (c : code.ChartEntry). EntryInside (table_view table.entry.charts.now) tables.now.names tables.now.reach.items (entry_view c)) table.entry.charts.now name) }
{
    let envs = env_charts(alloc, table, tables)?;
    let mut inside = NameTable::new(alloc);
    for chart in table.charts {
        add_inside(alloc, &mut inside, table, tables, &envs, &chart.name)?;
    }
    Ok(inside)
}
