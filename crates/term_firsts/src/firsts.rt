//! The labels of events that may come first in a term, and perhaps of some more: for `asking`.

ghost use Rattle.std.specs.Prelude.{◌≡◌, ◌<◌, ◌⊎◌, ℕ, IfOk, IfSome, IfNone, OnOk};
ghost use Rattle.chart_term.specs.NormalForms.{begun};
ghost use Rattle.chart_term.specs.PartLists.{AreTurns};
ghost use Rattle.chart_term.specs.Tables.{Tables};
ghost use Rattle.chart_term.specs.Terms.{Join, trees};
ghost use Rattle.msc_base.specs.Lists.{IsIn};
ghost use Rattle.msc_base.specs.Patterns.{seq};
ghost use Rattle.term_permission.specs.Ready.{AreReadyTables, IsReady};
ghost use Rattle.term_step.specs.Searches.{child_count};
ghost use Rattle.term_firsts.specs.Firsts.{Enters, EntersBehind, EntersChild, EntersChildren, HaveFirst, IsEventOf, IsNoEvent};

use crate::children::{child_at, child_count};
use crate::search::Search;
use bit_sets::NodeSet;
use chart_term::{Look, PartList, Term};
use msc_base::{Limits, NoMemory};
use std::alloc::Global;
use term_tables::Nets;

/// What an event is looked at for.
#[derive(Clone, Copy)]
struct Shown {
    /// Its first instance.
    at: u32,
    /// The number of its label.
    label: u32,
}

/// The event that the term is, if it is one.
fn event_in(term: &Term) -> Option<Shown>
    ensures some { IfSome result (λ shown. IsEventOf term.now shown.label shown.at) }
    ensures none { IfNone result (IsNoEvent term.now) }
{
    match term.look() {
        Look::Event { at, label, .. } => Some(Shown { at, label }),
        _ => None,
    }
}

/// Looks into the term: its label is met, or its children wait.
#[tactic(auto, using(crate::proofs::Entering::entering))]
fn enter(alloc: Global, nets: &Nets, term: &Term, search: &mut Search) -> Result<(), NoMemory>
    requires tables { AreReadyTables nets.now.tables }
    requires term { IsReady nets.now.tables term.now }
    ensures { OnOk result (Enters nets.now.tables term.now search.old search.new) }
{
    if let Some(shown) = event_in(term) {
        return search.meet(shown.label);
    }
    if let Look::Seq(parts) = term.look() {
        return enter_row(alloc, parts, search);
    }
    enter_children(alloc, nets, term, search)
}

/// Lets each child of the term wait.
#[tactic(auto, using(crate::proofs::Entering::entering))]
fn enter_children(
    alloc: Global,
    nets: &Nets,
    term: &Term,
    search: &mut Search,
) -> Result<(), NoMemory>
    requires tables { AreReadyTables nets.now.tables }
    requires term { IsReady nets.now.tables term.now }
    ensures { OnOk result (EntersChildren nets.now.tables term.now search.old search.new) }
{
    for index in 0..child_count(nets, term) {
        enter_child(alloc, nets, term, index, search)?;
    }
    Ok(())
}

/// Lets the child of that index wait, if there is one.
fn enter_child(
    alloc: Global,
    nets: &Nets,
    term: &Term,
    index: usize,
    search: &mut Search,
) -> Result<(), NoMemory>
    requires tables { AreReadyTables nets.now.tables }
    requires term { IsReady nets.now.tables term.now }
    requires index { index < child_count nets.now.tables term.now }
    ensures { OnOk result (EntersChild nets.now.tables term.now index search.old search.new) }
{
    match child_at(alloc, nets, term, index)? {
        Some(inner) => search.wait(inner),
        None => Ok(()),
    }
}

/// Looks at the parts of a row: an event is met unless one before it is at its first instance, and each other part waits.
#[tactic(auto, using(crate::proofs::Entering::entering))]
fn enter_row(alloc: Global, parts: &PartList, search: &mut Search) -> Result<(), NoMemory>
    requires { AreTurns parts.now }
    ensures { OnOk result ((w : Tables) → IsReady w (Join seq (trees (begun parts.now))) → Enters w (Join seq (trees (begun parts.now))) search.old search.new) }
{
    let mut held = NodeSet::empty(alloc, Limits::INSTANCES as u32)?;
    for index in 0..parts.len() {
        enter_part(alloc, parts.term_at(index), &mut held, search)?;
    }
    Ok(())
}

/// Looks at the next part of a row, behind events at these instances.
fn enter_part(
    alloc: Global,
    part: &Term,
    held: &mut NodeSet,
    search: &mut Search,
) -> Result<(), NoMemory>
    requires { held.old.size ≡ Limits.INSTANCES }
    ensures size { OnOk result (held.new.size ≡ held.old.size) }
    ensures enters { OnOk result ((w : Tables) → IsReady w part.now → EntersBehind w part.now held.old.nodes held.new.nodes search.old search.new) }
{
    let Some(shown) = event_in(part) else {
        return search.wait(part.copy(alloc)?);
    };
    if held.has(shown.at) {
        return Ok(());
    }
    hold(held, shown.at);
    search.meet(shown.label)
}

/// Holds the instance. No event has one that isn't below the greatest number of instances.
fn hold(held: &mut NodeSet, at: u32)
    requires { held.old.size ≡ Limits.INSTANCES }
    ensures size { held.new.size ≡ held.old.size }
    ensures nodes { (n : ℕ) → IsIn n held.new.nodes → IsIn n held.old.nodes ⊎ (n ≡ at) }
{
    if at as u64 >= Limits::INSTANCES {
        return;
    }
    held.add(at);
}

/// The labels of all events that can be taken from the term, by number, and perhaps some more; one may stand there more than once.
#[tactic(auto, using(crate::proofs::Entering::entering))]
pub fn first_labels(alloc: Global, nets: &Nets, term: &Term) -> Result<Vec<u32>, NoMemory>
    requires tables { AreReadyTables nets.now.tables }
    requires term { IsReady nets.now.tables term.now }
    ensures { IfOk result (λ labels. HaveFirst nets.now.tables term.now labels.items) }
{
    let mut search = Search::new(alloc, term.copy(alloc)?)?;
    for _ in 0..u64::MAX {
        let Some(here) = search.next() else {
            let Search { labels, .. } = search;
            return Ok(labels);
        };
        enter(alloc, nets, &here, &mut search)?;
    }
    Err(NoMemory)
}
