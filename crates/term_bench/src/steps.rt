//! Steps a walk through the ring, one node after another.
ghost use Rattle.std.specs.Prelude.{◌≡◌, true, IfOk};
ghost use Rattle.chart_term.specs.Properties.{Each, MayHave};
ghost use Rattle.chart_term.specs.Tables.{net_count};
ghost use Rattle.term_laws.specs.Placing.{HaveOnePlace};
ghost use Rattle.term_permission.specs.Ready.{IsReady, AreReadyTables};
ghost use Rattle.term_bench.specs.Homes.{AreHome, IsHome};

use crate::fault::Fault;
use crate::ring::{ACTIONS, labels, tables};
use chart_term::{Look, Term, TermList};
use hmsc_graph::Goal;
use msc_base::{Label, NoMemory};
use std::alloc::Global;
#[cfg(test)]
use std::test::Fail;
use term_permission::fresh_walk;
use term_step::after_each;
use term_tables::Nets;

/// The most that what is left of the walk may weigh.
const MOST: u64 = 1_000_000;

/// What is left of the term after the label.
#[tactic(auto, using(crate::proofs::ReadyRing::found))]
fn left_after(alloc: Global, nets: &Nets, term: &Term, label: &Label) -> Result<TermList, NoMemory>
    requires tables { AreReadyTables nets.now.tables }
    requires term { IsReady nets.now.tables term.now }
    requires placed { HaveOnePlace nets.now.tables term.now }
    ensures ready { IfOk result (λ left. Each (IsReady nets.now.tables) left) }
    ensures placed { IfOk result (λ left. Each (HaveOnePlace nets.now.tables) left) }
{
    let Some(number) = nets.label(label) else {
        return Ok(TermList::new(alloc));
    };
    let mut terms = TermList::new(alloc);
    terms.push(term.copy(alloc)?)?;
    match after_each(alloc, nets, &terms, number, MOST)? {
        Some(found) => {
            let left = found.into_list(alloc)?;
            Ok(left)
        }
        None => Ok(TermList::new(alloc)),
    }
}

/// Whether the term is a walk. A walk has no event outside its net.
#[tactic(auto, using(crate::proofs::ReadyRing::found))]
fn is_walk(term: &Term) -> bool
    ensures { result ≡ true → IsHome term.now }
{
    match term.look() {
        Look::Walk { .. } => true,
        _ => false,
    }
}

/// The first of the terms, if there is one.
#[tactic(auto, using(crate::proofs::ReadyRing::found))]
fn first(alloc: Global, nets: &Nets, terms: &TermList) -> Result<Option<Term>, NoMemory>
    requires ready { Each (IsReady nets.now.tables) terms.now }
    requires placed { Each (HaveOnePlace nets.now.tables) terms.now }
    ensures ready { IfOk result (λ term. MayHave (IsReady nets.now.tables) term) }
    ensures placed { IfOk result (λ term. MayHave (HaveOnePlace nets.now.tables) term) }
{
    let _ = nets;
    if terms.len() == 0 {
        return Ok(None);
    }
    let term = terms.at(0).copy(alloc)?;
    Ok(Some(term))
}

/// Takes so many events from the walk to the end of the ring, one node after another, and says how many could be taken.
#[tactic(auto, using(crate::proofs::ReadyRing::found))]
fn steps(alloc: Global, nets: &Nets, events: u32) -> Result<u32, Fault>
    requires tables { AreReadyTables nets.now.tables }
    requires home { AreHome nets.now.tables }
    requires one { net_count nets.now.tables ≡ 1 }
{
    let labels = labels(alloc)?;
    let Some(walk) = fresh_walk(alloc, nets, 0, Goal::End)? else {
        return Err(Fault::Chart);
    };
    if !is_walk(&walk) {
        return Err(Fault::Chart);
    }
    let mut here = walk;
    for taken in 0..events {
        let label = labels.at((taken % ACTIONS) as usize);
        let left = left_after(alloc, nets, &here, label)?;
        match first(alloc, nets, &left)? {
            None => return Ok(taken),
            Some(term) => here = term,
        }
    }
    Ok(events)
}

/// How many of so many events could be taken from a walk to the end of a ring of so many lines.
pub(crate) fn taken(alloc: Global, size: u32, events: u32) -> Result<u32, Fault> {
    if size > 4_096 {
        return Err(Fault::Chart);
    }
    let nets = tables(alloc, size)?;
    steps(alloc, &nets, events)
}

#[test]
fn walk_goes_on_to_the_end(rt: HostRuntime) -> Result<(), Fail> {
    assert!(rt; taken(rt.alloc(), 50, 8).ok() == Some(8));
    assert!(rt; taken(rt.alloc(), 5, 8).ok() == Some(4));
    Ok(())
}
