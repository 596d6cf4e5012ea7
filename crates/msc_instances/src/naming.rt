//! The instances of a chart, and the faults of its names: msc_acceptance looks for these, and level_weaving weaves by those.

ghost use Rattle.std.specs.Prelude.{◌≡◌, ◌↔◌, IsTrue, IfOk, OnOk, map, []};
ghost use Rattle.chart_text.specs.PassageViews.{scope_view, text_view};
ghost use Rattle.chart_text.specs.Texts.{chart_text as text_of};
ghost use Rattle.msc_base.specs.Places.{IsLeast};
ghost use Rattle.msc_base.specs.Lists.{IsAmong};
ghost use Rattle.msc_base.specs.NameTables.{with_name};
ghost use Rattle.msc_instances.specs.Instances.{DecomposesAgain, MayName, NamesOther, instances, with_declared};
ghost use Rattle.msc_instances.specs.NameFaults.{ChartNamesOther, ChartNamesTwice, NamesTwice};
ghost use Rattle.msc_instances.specs.NoteViews.{note_view};
ghost use Rattle.msc_tree.specs.Views.{chart_view};

use crate::again::named_again;
use crate::{Note, PartList, chart_levels, chart_notes};
use chart_text::{Passage, Scope};
use msc_base::{Name, NameTable, Names, NoMemory, Place, earlier_if, earlier_place};
use msc_tree::{FEW, RawChart, is_listed};
use std::alloc::Global;

/// The instances of a chart, and the earliest places at which it breaks the rules of names.
#[derive(Drop)]
pub struct ChartNames {
    /// The instances, in the order in which they are first declared.
    pub names: Names,
    /// Of an instance that is decomposed a second time, or of a part that has the name of another.
    pub twice: Option<Place>,
    /// Of a name that may not stand there.
    pub undeclared: Option<Place>,
}

/// The instances of a chart, as a list and as a table.
#[derive(Drop)]
struct Instances {
    names: Names,
    table: NameTable,
}

/// Whether a name is one of the list, which the table has too.
fn is_known(names: &Names, table: &NameTable, name: &Name) -> bool
    requires { names.now ≡ table.now }
    ensures { IsTrue result ↔ IsAmong table.now name.now }
{
    if names.len() <= FEW {
        is_listed(names.as_slice(), name)
    } else {
        table.has(name.bytes())
    }
}

/// Whether a name, one of the list or not, may stand where that scope is; the table has the list too.
fn may_name(names: &Names, table: &NameTable, scope: &Scope<'_>, name: &Name) -> bool
    requires { names.now ≡ table.now }
    ensures { IsTrue result ↔ MayName table.now (scope_view scope.now) name.now }
{
    if !is_known(names, table, name) {
        return false;
    }
    match scope {
        Scope::Whole => true,
        Scope::Column(own) => name.same(own),
        Scope::Listed(cover) => cover.has(name),
    }
}

#[tactic(auto, using(crate::proofs::Tables::with_old, crate::proofs::Tables::with_new))]
/// Adds an instance where it is new.
fn add_instance(
    alloc: Global,
    names: &mut Names,
    table: &mut NameTable,
    name: &Name,
) -> Result<(), NoMemory>
    requires { names.old ≡ table.old }
    ensures table { OnOk result (table.new ≡ with_name table.old name.now) }
    ensures names { OnOk result (names.new ≡ table.new) }
{
    if is_known(names, table, name) {
        return Ok(());
    }
    names.push(name.copy(alloc)?)?;
    table.add(alloc, name.bytes())
}

/// The instances that notes declare.
fn declared_in(alloc: Global, notes: &[Note<'_>]) -> Result<Instances, NoMemory>
    ensures table { IfOk result (λ made. made.table ≡ with_declared [] (map note_view notes.now)) }
    ensures names { IfOk result (λ made. made.names ≡ made.table) }
{
    let mut names = Names::new(alloc);
    let mut table = NameTable::new(alloc);
    for note in notes {
        if let Note::Declared(name) = note {
            add_instance(alloc, &mut names, &mut table, name)?;
        }
    }
    Ok(Instances { names, table })
}

/// The earliest place at which an instance is decomposed a second time.
fn decomposed_again(alloc: Global, notes: &[Note<'_>]) -> Result<Option<Place>, NoMemory>
    ensures { IfOk result (IsLeast (DecomposesAgain [] (map note_view notes.now))) }
{
    let mut best = None;
    let mut before = NameTable::new(alloc);
    for note in notes {
        let Note::Decomposed(name, place) = note else {
            continue;
        };
        let again = before.has(name.bytes());
        best = earlier_if(best, *place, again);
        before.add(alloc, name.bytes())?;
    }
    Ok(best)
}

/// The earliest place at which an instance is decomposed a second time, or a part has the name of another.
fn named_twice(
    alloc: Global,
    notes: &[Note<'_>],
    levels: &[PartList<'_>],
) -> Result<Option<Place>, NoMemory>
    ensures { IfOk result (IsLeast (NamesTwice (map note_view notes.now) levels.now)) }
{
    let decomposed = decomposed_again(alloc, notes)?;
    let part = named_again(alloc, levels)?;
    match decomposed {
        None => Ok(part),
        Some(place) => Ok(earlier_place(part, place)),
    }
}

/// The earliest place at which a name stands that may not, by the instances as a list and as a table.
fn named_other(names: &Names, table: &NameTable, notes: &[Note<'_>]) -> Option<Place>
    requires { names.now ≡ table.now }
    ensures { IsLeast (NamesOther table.now (map note_view notes.now)) result }
{
    let mut best = None;
    for note in notes {
        if let Note::Named(name, place, scope) = note {
            if !may_name(names, table, scope, name) {
                best = earlier_place(best, *place);
            }
        }
    }
    best
}

/// The instances of a chart in the order in which they are first declared, whether its names keep their rules or not, and the earliest
/// places at which these break a rule; that is its text.
pub fn chart_names(
    alloc: Global,
    chart: &RawChart,
    text: &[Passage<'_>],
) -> Result<ChartNames, NoMemory>
    requires { text_view text.now ≡ text_of (chart_view chart.now) }
    ensures names { IfOk result (λ made. made.names ≡ instances (chart_view chart.now)) }
    ensures twice { IfOk result (λ made. IsLeast (ChartNamesTwice (chart_view chart.now)) made.twice) }
    ensures undeclared { IfOk result (λ made. IsLeast (ChartNamesOther (chart_view chart.now)) made.undeclared) }
{
    let notes = chart_notes(alloc, chart, text)?;
    let levels = chart_levels(alloc, chart, text)?;
    let made = declared_in(alloc, notes.as_slice())?;
    let twice = named_twice(alloc, notes.as_slice(), levels.as_slice())?;
    let undeclared = named_other(&made.names, &made.table, notes.as_slice());
    Ok(ChartNames {
        names: made.names,
        twice,
        undeclared,
    })
}
