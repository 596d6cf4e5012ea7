//! What is measured: a chart, and a log of it.
ghost use Rattle.std.specs.Prelude.{◌≡◌, ◌≤◌, [], length, IfOk};
ghost use Rattle.term_bench.specs.Charts.{labels, IsChart};

use crate::charts::{
    ACTION, DISTANT_ACTION, OTHER_ACTION, behind, choices, coregion, exchanges, label, requests,
    tables,
};
use crate::fault::Fault;
use crate::logs::{Judged, Log, Order, follow, follow_all};
use crate::statements::{self, GROUP, MOST_STATEMENTS};
use crate::towers::{Form, INNERMOST, Tower, held, nested};
use chart_term::Term;
use msc_base::{LabelList, NoMemory};
use std::alloc::Global;
use term_tables::Nets;
use trace_judge::Store;

/// A chart, and how long a log of it is, or how large it is itself.
#[derive(Clone, Copy, Debug, PartialEq, Eq)]
pub(crate) enum Work {
    /// A loop of requests: so many of them, each received before the next.
    Requests(u32),
    /// A loop of requests and answers: so many of them.
    Exchanges(u32),
    /// A loop of requests: so many of them, all sent before the first is received.
    Ahead(u32),
    /// So many equal actions in a coregion.
    Coregion(u32),
    /// A coregion of ten equal actions: so many logs of it, and one at least.
    Coregions(u32),
    /// So many choices of an action in a row.
    Choices(u32),
    /// So many equal actions of one instance, and behind them as many of another, which happen first.
    Behind(u32),
    /// An action, and behind it a tower; nothing happens, and it is only made and dropped.
    Held(Tower),
    /// A tower beside two equal actions, and behind them another; nothing happens, and it is asked whether it may end.
    Nested(Tower),
    /// The same, with the event behind the tower, which would have to pass it.
    Passed(Tower),
    /// The same, with the event that is within all choices of the tower.
    Entered(Tower),
    /// The same, with an event beside the tower that leaves the same term twice, so that both are compared to their end.
    Compared(Tower),
}

/// What is asked for.
#[derive(Clone, Copy, Debug, PartialEq, Eq)]
pub(crate) enum Asked {
    /// A work whose log is made of turns.
    Turns(Work),
    /// A plain chart of so many statements over sixty instances under one tie, in whole groups of sixty, and a log of it.
    Statements(u32),
}

/// The labels of these numbers, four at most.
fn turn_of(alloc: Global, numbers: &[u32]) -> Result<LabelList, Fault>
    requires { length numbers.now ≤ 4 }
    ensures { IfOk result (λ turn. length turn ≤ 4) }
{
    let mut turn = LabelList::new(alloc);
    for index in 0..numbers.len() {
        turn.push(label(alloc, numbers[index])?)?;
    }
    Ok(turn)
}

/// A log of both turns.
fn both(
    alloc: Global,
    first: &[u32],
    second: &[u32],
    order: Order,
    times: u32,
) -> Result<Log, Fault>
    requires first { length first.now ≤ 4 }
    requires second { length second.now ≤ 4 }
    ensures first { IfOk result (λ log. length log.first ≤ 4) }
    ensures second { IfOk result (λ log. length log.second ≤ 4) }
{
    Ok(Log {
        first: turn_of(alloc, first)?,
        second: turn_of(alloc, second)?,
        order,
        times: times.into(),
    })
}

/// A log of one turn, so many times.
fn one(alloc: Global, turn: &[u32], times: u32) -> Result<Log, Fault>
    requires { length turn.now ≤ 4 }
    ensures first { IfOk result (λ log. length log.first ≤ 4) }
    ensures second { IfOk result (λ log. length log.second ≤ 4) }
{
    both(alloc, turn, &[], Order::First, times)
}

/// The log of the work.
fn log_of(alloc: Global, work: Work) -> Result<Log, Fault>
    ensures first { IfOk result (λ log. length log.first ≤ 4) }
    ensures second { IfOk result (λ log. length log.second ≤ 4) }
{
    match work {
        Work::Requests(count) => one(alloc, &[0, 1], count),
        Work::Exchanges(count) => both(alloc, &[0, 1, 2, 3], &[0, 1, 4, 5], Order::Drawn, count),
        Work::Ahead(count) => both(alloc, &[0], &[1], Order::Halves, count),
        Work::Coregion(count) => one(alloc, &[ACTION], count),
        Work::Coregions(_) => one(alloc, &[ACTION], 10),
        Work::Choices(count) => one(alloc, &[OTHER_ACTION], count),
        Work::Behind(count) => both(alloc, &[DISTANT_ACTION], &[ACTION], Order::Halves, count),
        Work::Held(_) | Work::Nested(_) => one(alloc, &[], 0),
        Work::Passed(_) => one(alloc, &[OTHER_ACTION], 1),
        Work::Entered(_) => one(alloc, &[INNERMOST], 1),
        Work::Compared(_) => one(alloc, &[ACTION], 1),
    }
}

/// The term of the work.
fn term_of(alloc: Global, work: Work) -> Result<Term, NoMemory>
    ensures { IfOk result (λ term. IsChart term) }
{
    match work {
        Work::Requests(_) | Work::Ahead(_) => requests(alloc),
        Work::Exchanges(_) => exchanges(alloc),
        Work::Coregion(count) => coregion(alloc, count),
        Work::Coregions(_) => coregion(alloc, 10),
        Work::Choices(count) => choices(alloc, count),
        Work::Behind(count) => behind(alloc, count),
        Work::Held(tower) => held(alloc, tower),
        Work::Nested(tower) | Work::Passed(tower) | Work::Entered(tower) | Work::Compared(tower) =>
            nested(alloc, tower),
    }
}

/// Judges one log of the work.
fn judge_log<S: Store + Drop>(alloc: Global, nets: &Nets, work: Work) -> Result<Judged, Fault>
    requires tables { nets.now.tables ≡ [] }
    requires labels { length nets.now.labels ≡ labels }
{
    let log = log_of(alloc, work)?;
    let judged = follow::<S>(alloc, nets, term_of(alloc, work)?, &log)?;
    Ok(judged)
}

/// Judges the log of a chart of so many statements.
#[tactic(auto, using(crate::proofs::Made::statement_table_rules))]
fn judge_statements<S: Store + Drop>(alloc: Global, count: u32) -> Result<Judged, Fault>
    requires { count ≤ 600000 }
{
    let nets = statements::tables(alloc, count)?;
    let log = statements::log(alloc, count)?;
    let term = statements::statements(alloc, count)?;
    let judged = follow_all::<S>(alloc, &nets, term, &log)?;
    Ok(judged)
}

/// Judges the logs of the work.
fn judge_turns<S: Store + Drop>(alloc: Global, work: Work) -> Result<Judged, Fault> {
    let nets = tables(alloc)?;
    if let Work::Coregions(count) = work {
        for _ in 1..count {
            judge_log::<S>(alloc, &nets, work)?;
        }
    }
    judge_log::<S>(alloc, &nets, work)
}

/// Does what is asked for, by sets that are held so.
pub(crate) fn judge<S: Store + Drop>(alloc: Global, asked: Asked) -> Result<Judged, Fault> {
    match asked {
        Asked::Turns(work) => judge_turns::<S>(alloc, work),
        Asked::Statements(count) => {
            let count = count.min(MOST_STATEMENTS);
            judge_statements::<S>(alloc, count - count % GROUP)
        }
    }
}

/// The work on a tower that two words name, as `held 1000`, or `held-tied 1000` where it is tied.
fn tower_work_of(kind: &str, levels: u32) -> Option<Work> {
    let first = Tower {
        levels,
        form: Form::First,
    };
    let last = Tower {
        levels,
        form: Form::Last,
    };
    let tied = Tower {
        levels,
        form: Form::Tied,
    };
    match kind {
        "held" => Some(Work::Held(first)),
        "nested" => Some(Work::Nested(first)),
        "passed" => Some(Work::Passed(first)),
        "entered" => Some(Work::Entered(first)),
        "compared" => Some(Work::Compared(first)),
        "held-last" => Some(Work::Held(last)),
        "nested-last" => Some(Work::Nested(last)),
        "passed-last" => Some(Work::Passed(last)),
        "entered-last" => Some(Work::Entered(last)),
        "compared-last" => Some(Work::Compared(last)),
        "held-tied" => Some(Work::Held(tied)),
        "nested-tied" => Some(Work::Nested(tied)),
        "passed-tied" => Some(Work::Passed(tied)),
        "entered-tied" => Some(Work::Entered(tied)),
        "compared-tied" => Some(Work::Compared(tied)),
        _ => None,
    }
}

/// The work that two words name, as `requests 1000`.
fn turns_of(kind: &str, count: u32) -> Option<Work> {
    match kind {
        "requests" => Some(Work::Requests(count)),
        "exchanges" => Some(Work::Exchanges(count)),
        "ahead" => Some(Work::Ahead(count)),
        "coregion" => Some(Work::Coregion(count)),
        "coregions" => Some(Work::Coregions(count)),
        "choices" => Some(Work::Choices(count)),
        "behind" => Some(Work::Behind(count)),
        _ => tower_work_of(kind, count),
    }
}

/// What two words ask for, as `requests 1000` or `statements 66000`.
pub(crate) fn asked_of(kind: &str, count: &str) -> Option<Asked> {
    let count = count.parse().ok()?;
    if kind == "statements" {
        return Some(Asked::Statements(count));
    }
    let work = turns_of(kind, count)?;
    Some(Asked::Turns(work))
}
