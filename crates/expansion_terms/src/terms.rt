//! The terms of expansions, made from the first part to the last.

ghost use Rattle.std.specs.Prelude.{◌≡◌, IfOk, OnOk};
ghost use Rattle.expansion_terms.specs.ExpansionTerms.{event_term};
ghost use Rattle.expansion_terms.specs.MadeTerms.{HasWholeGraphs, judged, made, made_all};
ghost use Rattle.expansion_terms.specs.PartTerms.{HaveWholeGraphs};
ghost use Rattle.expansion_terms.specs.Stored.{AreStored, IsStored};
ghost use Rattle.expansion_tree.specs.Expansions.{all_events_in, events_in};
ghost use Rattle.expansion_tree.specs.Views.{expansion_view, expansions_view};
ghost use Rattle.term_permission.specs.Ready.{AreReadyTables, IsReady};

use crate::rows::{aside_of, one_of_terms, row_of};
use crate::turns::turns;
use crate::walks::walk_of;
use chart_term::{Term, TermList, tied};
use expansion_tree::{ExpandedEvent, Expansion};
use hmsc_graph::Goal;
use msc_base::{NoMemory, PairList};
use std::alloc::Global;
use term_tables::Nets;

/// The term of an event.
fn event_of(alloc: Global, event: ExpandedEvent) -> Result<Term, NoMemory>
    requires { IsStored event }
    ensures { IfOk result (λ term. term ≡ event_term event) }
{
    Term::event(alloc, event.number, event.at, event.also, event.label)
}

/// The pairs once more.
fn copied(alloc: Global, pairs: &PairList) -> Result<PairList, NoMemory>
    ensures { IfOk result (λ list. list ≡ pairs.now) }
{
    let mut list = PairList::new(alloc);
    for pair in pairs.as_slice() {
        list.push(*pair)?;
    }
    Ok(list)
}

/// The term of an expansion, of an exception that of its operand; each walk appends the net of its graph.
#[cycle(terms)]
fn made_term(alloc: Global, nets: &mut Nets, expansion: &Expansion) -> Result<Term, NoMemory>
    requires stored { AreStored (events_in (expansion_view expansion.now)) }
    requires whole { HasWholeGraphs (expansion_view expansion.now) }
    requires ready { AreReadyTables nets.old.tables }
    ensures term { IfOk result (λ term. term ≡ (made nets.old.tables (expansion_view expansion.now)).term) }
    ensures tables { OnOk result (nets.new ≡ record nets.old { tables = (made nets.old.tables (expansion_view expansion.now)).tables }) }
{
    match expansion {
        Expansion::Event(event) => {
            let term = event_of(alloc, *event)?;
            Ok(term)
        }
        Expansion::InRow(parts) => {
            let terms = made_terms(alloc, nets, parts.as_slice())?;
            let term = row_of(alloc, parts.as_slice(), &terms)?;
            Ok(term)
        }
        Expansion::Aside(parts) => {
            let terms = made_terms(alloc, nets, parts.as_slice())?;
            let term = aside_of(alloc, &terms)?;
            Ok(term)
        }
        Expansion::OneOf(parts) => {
            let terms = made_terms(alloc, nets, parts.as_slice())?;
            let term = one_of_terms(alloc, terms)?;
            Ok(term)
        }
        Expansion::Exception(part) => {
            let term = made_term(alloc, nets, part)?;
            Ok(term)
        }
        Expansion::Turns(_, lower, upper, part) => {
            let inner = made_term(alloc, nets, part)?;
            let term = turns(alloc, inner, *lower, *upper)?;
            Ok(term)
        }
        Expansion::Tied(part, pairs) => {
            let inner = made_term(alloc, nets, part)?;
            let list = copied(alloc, pairs)?;
            let term = tied(alloc, inner, list)?;
            Ok(term)
        }
        Expansion::Walk(_, shape, parts) => {
            let terms = made_terms(alloc, nets, parts.as_slice())?;
            let term = walk_of(alloc, nets, Goal::End, shape, terms)?;
            Ok(term)
        }
    }
}

/// The terms of parts, from the first to the last.
#[cycle(terms)]
fn made_terms(alloc: Global, nets: &mut Nets, parts: &[Expansion]) -> Result<TermList, NoMemory>
    requires stored { AreStored (all_events_in (expansions_view parts.now)) }
    requires whole { HaveWholeGraphs (expansions_view parts.now) }
    requires ready { AreReadyTables nets.old.tables }
    ensures terms { IfOk result (λ terms. terms ≡ (made_all nets.old.tables (expansions_view parts.now)).terms) }
    ensures tables { OnOk result (nets.new ≡ record nets.old { tables = (made_all nets.old.tables (expansions_view parts.now)).tables }) }
{
    let mut terms = TermList::new(alloc);
    for part in parts {
        let term = made_term(alloc, nets, part)?;
        terms.push(term)?;
    }
    Ok(terms)
}

/// The term of an expansion, of an exception that of its operand. Each walk is one to an end; its net is appended to the tables, behind
/// those that its nodes name. It fails for want of memory, and where no number is left for a net; then some of the nets may have been
/// appended.
pub fn term_of(alloc: Global, nets: &mut Nets, expansion: &Expansion) -> Result<Term, NoMemory>
    requires stored { AreStored (events_in (expansion_view expansion.now)) }
    requires whole { HasWholeGraphs (expansion_view expansion.now) }
    requires ready { AreReadyTables nets.old.tables }
    ensures term { IfOk result (λ term. term ≡ (made nets.old.tables (expansion_view expansion.now)).term) }
    ensures tables { OnOk result (nets.new ≡ record nets.old { tables = (made nets.old.tables (expansion_view expansion.now)).tables }) }
    ensures ready_tables { OnOk result (AreReadyTables nets.new.tables) }
    ensures ready_term { IfOk result (IsReady nets.new.tables) }
{
    let term = made_term(alloc, nets, expansion)?;
    Ok(term)
}

/// The term of the expansion of the chart that is judged: of a walk through its own graph the walks that lead anywhere, as one may be
/// under way. For the rest it is that of `term_of`, and fails as that does.
pub fn judged_term_of(
    alloc: Global,
    nets: &mut Nets,
    expansion: &Expansion,
) -> Result<Term, NoMemory>
    requires stored { AreStored (events_in (expansion_view expansion.now)) }
    requires whole { HasWholeGraphs (expansion_view expansion.now) }
    requires ready { AreReadyTables nets.old.tables }
    ensures term { IfOk result (λ term. term ≡ (judged nets.old.tables (expansion_view expansion.now)).term) }
    ensures tables { OnOk result (nets.new ≡ record nets.old { tables = (judged nets.old.tables (expansion_view expansion.now)).tables }) }
    ensures ready_tables { OnOk result (AreReadyTables nets.new.tables) }
    ensures ready_term { IfOk result (IsReady nets.new.tables) }
{
    match expansion {
        Expansion::Walk(_, shape, parts) => {
            let terms = made_terms(alloc, nets, parts.as_slice())?;
            let term = walk_of(alloc, nets, Goal::Any, shape, terms)?;
            Ok(term)
        }
        _ => {
            let term = made_term(alloc, nets, expansion)?;
            Ok(term)
        }
    }
}
