//! The decomposed instances of a chart.

ghost use Rattle.std.specs.Prelude.{◌≡◌, ◌↔◌, ℕ, List, IfOk, OnOk};
ghost use Rattle.msc_base.specs.Lists.{IsAmong};
ghost use Rattle.msc_meaning.specs.Views.{table_view};
ghost use Rattle.refinement_rules.specs.Judging.{Decomposes, some_chart_refined as chart_refined_of, some_refined as refined_of};
ghost use Rattle.refinement_rules.specs.Walks.{IsGrown, OneHolds};

use crate::plain::either;
use msc_base::{NameTable, NoMemory};
use msc_meaning::ChartEntry;
use msc_tree::Decl;
use std::alloc::Global;

/// Whether one of the declarations says that its instance is decomposed.
pub(crate) fn some_refined(decls: &[Decl]) -> bool
    ensures { result ≡ refined_of decls.now }
{
    let mut one = false;
    for decl in decls {
        one = either(one, decl.refined.is_some());
    }
    one
}

/// Whether one of the charts has a decomposed instance.
pub(crate) fn some_chart_refined(charts: &[ChartEntry]) -> bool
    ensures { result ≡ chart_refined_of (table_view charts.now) }
{
    let mut one = false;
    for chart in charts {
        one = either(one, some_refined(chart.decls.as_slice()));
    }
    one
}

/// Adds the instance of a declaration, where it is decomposed.
fn add_refined(alloc: Global, table: &mut NameTable, decl: &Decl) -> Result<(), NoMemory>
    ensures { OnOk result (IsGrown (IsAmong table.old) (Decomposes decl.now) (IsAmong table.new)) }
{
    match &decl.refined {
        Some(_) => table.add(alloc, decl.name.bytes()),
        None => Ok(()),
    }
}

/// The instances that declarations say are decomposed.
pub(crate) fn refined_names(alloc: Global, decls: &[Decl]) -> Result<NameTable, NoMemory>
    ensures { IfOk result (λ table. (name : List ℕ) → IsAmong table name ↔ OneHolds Decomposes decls.now name) }
{
    let mut table = NameTable::new(alloc);
    for decl in decls {
        add_refined(alloc, &mut table, decl)?;
    }
    Ok(table)
}
