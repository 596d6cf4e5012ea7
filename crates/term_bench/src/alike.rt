//! Both stores tell the same of a set of residual terms after each event.
ghost use Rattle.std.specs.Prelude.{◌≡◌, ◌≤◌, [], length};
ghost use Rattle.msc_base.specs.declared.limits.TheConstants.Limits.{BUDGET_MOST};
ghost use Rattle.term_bench.specs.Charts.{labels, IsChart};

use crate::charts::{ACTION, DISTANT_ACTION, OTHER_ACTION, label, nested_loops, ordered, tables};
use chart_term::Term;
use msc_base::Label;
use std::alloc::Global;
use std::test::Fail;
use term_sets::{Pool, Residuals};
use term_tables::Nets;
use trace_judge::{StepFault, Store};

/// What both stores tell of a log.
#[derive(Drop)]
struct Told {
    /// The weight of the set before the first event, and after each that was taken.
    weights: Vec<u64>,
    /// Whether a term of the last set may end.
    ends: bool,
}

/// Lets both sets take an event with the label, and says whether they took it. It fails where they tell different things.
fn take_both<S: Store + Drop, T: Store + Drop>(
    alloc: Global,
    nets: &Nets,
    first: &mut S,
    second: &mut T,
    label: &Label,
) -> Result<bool, Fail>
    requires first { S.serves first.old nets.now }
    requires second { T.serves second.old nets.now }
    ensures first { S.serves first.new nets.now }
    ensures second { T.serves second.new nets.now }
{
    let number = nets.label(label);
    let taken = match (first.step(nets, number), second.step(nets, number)) {
        (Ok(()), Ok(())) => true,
        (Err(StepFault::TooLarge), Err(StepFault::TooLarge)) => false,
        _ => return Err(Fail::from("one store takes the event, and the other doesn't")),
    };
    let weigh_alike = first.weight() == second.weight();
    let empty_alike = first.is_empty() == second.is_empty();
    let end_alike = first.may_end(alloc, nets)? == second.may_end(alloc, nets)?;
    if weigh_alike && empty_alike && end_alike {
        Ok(taken)
    } else {
        Err(Fail::from("the stores differ"))
    }
}

/// What both stores tell of a log of events with these labels, as far as they take it.
#[tactic(auto, using(crate::proofs::Made::table_rules))]
fn follow_both<S: Store + Drop, T: Store + Drop>(
    alloc: Global,
    nets: &Nets,
    term: Term,
    budget: u64,
    events: &[u32],
) -> Result<Told, Fail>
    requires tables { nets.now.tables ≡ [] }
    requires labels { length nets.now.labels ≡ labels }
    requires chart { IsChart term }
    requires least { 1 ≤ budget }
    requires most { budget ≤ BUDGET_MOST }
{
    let same = term.copy(alloc)?;
    let mut first = S::start(alloc, nets, term, budget)?;
    let mut second = T::start(alloc, nets, same, budget)?;
    let mut weights = Vec::new(alloc);
    weights.push(first.weight())?;
    for index in 0..events.len() {
        let label = label(alloc, events[index])?;
        if take_both(alloc, nets, &mut first, &mut second, &label)? {
            weights.push(first.weight())?;
        }
    }
    let ends = first.may_end(alloc, nets)?;
    Ok(Told { weights, ends })
}

/// Two equal actions and another one, which the second comes before: after the first event the set has terms of weight 5 and 3.
#[test]
fn equal_actions_are_told_alike(rt: HostRuntime) -> Result<(), Fail> {
    let alloc = rt.alloc();
    let nets = tables(alloc)?;
    let log = [ACTION, OTHER_ACTION, ACTION];
    let told = follow_both::<Residuals, Pool>(alloc, &nets, ordered(alloc)?, 1_000_000, &log)?;
    let wanted: &[u64] = &[6, 8, 1, 1];
    assert!(rt; told.weights.as_slice() == wanted && told.ends);
    Ok(())
}

/// With a budget of 7 no event is taken, neither the first nor any behind it.
#[test]
fn a_passed_budget_is_told_alike(rt: HostRuntime) -> Result<(), Fail> {
    let alloc = rt.alloc();
    let nets = tables(alloc)?;
    let log = [ACTION, OTHER_ACTION, ACTION];
    let told = follow_both::<Residuals, Pool>(alloc, &nets, ordered(alloc)?, 7, &log)?;
    let wanted: &[u64] = &[6];
    assert!(rt; told.weights.as_slice() == wanted && !told.ends);
    Ok(())
}

/// How many weights both stores tell of a log of loops, one within the other, and whether a term of the last set may end.
fn loops_told(alloc: Global, log: &[u32]) -> Result<(usize, bool), Fail> {
    let nets = tables(alloc)?;
    let term = nested_loops(alloc)?;
    let told = follow_both::<Residuals, Pool>(alloc, &nets, term, 1_000_000, log)?;
    Ok((told.weights.len(), told.ends))
}

/// Turns of a loop that overtake each other: two of the inner action, and then two of the outer one, are a run; three events are none.
#[test]
fn loops_are_told_alike(rt: HostRuntime) -> Result<(), Fail> {
    let alloc = rt.alloc();
    let whole = [DISTANT_ACTION, DISTANT_ACTION, ACTION, ACTION];
    assert!(rt; loops_told(alloc, &whole)? == (5, true));
    let early = [DISTANT_ACTION, ACTION, ACTION];
    assert!(rt; loops_told(alloc, &early)? == (4, false));
    Ok(())
}
