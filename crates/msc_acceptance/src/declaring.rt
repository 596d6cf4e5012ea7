//! The declarations of a chart in the order of the text, at any depth: for `tables`.

ghost use Rattle.std.specs.Prelude.{◌≡◌, ◌++◌, ◌∷◌, [], IfOk, OnOk};
ghost use Rattle.std.specs.List.{flat_map};
ghost use Rattle.chart_text.specs.PassageViews.{passage_view, text_view};
ghost use Rattle.msc_meaning.specs.WovenTables.{chart_decls as decls_of, declares, heading_decls};
ghost use Rattle.msc_tree.specs.Views.{chart_view, statement_view};

use chart_text::{Passage, chart_text};
use msc_base::{Items, NoMemory, copy_name, copy_names};
use msc_tree::{Decl, DeclList, RawChart, Statement};
use std::alloc::Global;

/// A copy of the declaration.
fn copy_decl(alloc: Global, decl: &Decl) -> Result<Decl, NoMemory>
    ensures { IfOk result (λ copied. copied ≡ decl.now) }
{
    let name = decl.name.copy(alloc)?;
    let kind = copy_names(alloc, decl.kind.as_slice())?;
    let refined = copy_name(alloc, &decl.refined)?;
    Ok(Decl {
        name,
        kind,
        refined,
        place: decl.place,
    })
}

/// Adds a copy of the declaration.
fn add(alloc: Global, decls: &mut DeclList, decl: &Decl) -> Result<(), NoMemory>
    ensures { OnOk result (decls.new ≡ decls.old ++ decl.now ∷ []) }
{
    let copied = copy_decl(alloc, decl)?;
    decls.push(copied)
}

/// Adds what a statement declares.
fn heading(alloc: Global, decls: &mut DeclList, statement: &Statement) -> Result<(), NoMemory>
    ensures { OnOk result (decls.new ≡ decls.old ++ heading_decls (statement_view statement.now)) }
{
    match statement {
        Statement::Column(held, _) => add(alloc, decls, held.decl()),
        Statement::Heading(held) => add(alloc, decls, held.decl()),
        Statement::One(_, _) => Ok(()),
        Statement::Covered(_, _) => Ok(()),
        Statement::Ended(_) => Ok(()),
    }
}

/// Adds what a passage declares.
fn passage(alloc: Global, decls: &mut DeclList, passage: Passage<'_>) -> Result<(), NoMemory>
    ensures { OnOk result (decls.new ≡ decls.old ++ declares (passage_view passage.entry)) }
{
    match passage {
        Passage::Head(held) => add(alloc, decls, held),
        Passage::Statement(_, _, held) => heading(alloc, decls, held),
        Passage::Item(_, _) => Ok(()),
        Passage::Operand(_, _) => Ok(()),
    }
}

/// Adds what a text declares.
fn passages(alloc: Global, decls: &mut DeclList, text: &[Passage<'_>]) -> Result<(), NoMemory>
    ensures { OnOk result (decls.new ≡ decls.old ++ flat_map declares (text_view text.now)) }
{
    for held in text {
        passage(alloc, decls, *held)?;
    }
    Ok(())
}

/// The declarations of a chart: those of its heads, and those of what it holds.
pub fn chart_decls(alloc: Global, chart: &RawChart) -> Result<DeclList, NoMemory>
    ensures { IfOk result (λ decls. decls ≡ decls_of (chart_view chart.now)) }
{
    let text = chart_text(alloc, chart)?;
    let mut decls = Items::new(alloc);
    passages(alloc, &mut decls, text.as_slice())?;
    Ok(decls)
}
