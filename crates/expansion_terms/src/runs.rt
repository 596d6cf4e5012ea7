//! Exceptions one behind another, and what stands behind them, kept apart until one choice is made of them all: for `terms`.

ghost use Rattle.std.specs.Prelude.{◌≡◌, ◌++◌, ◌∷◌, [], IfOk};
ghost use Rattle.chart_term.specs.Terms.{Nil};
ghost use Rattle.expansion_terms.specs.ExceptionRuns.{IsAhead, IsLonger, IsPlaced, run_term, turned};

use chart_term::{Term, TermList, choice, seq};
use msc_base::NoMemory;
use std::alloc::Global;

/// Exceptions one behind another, and what stands behind them all.
#[derive(Drop)]
pub struct Run {
    /// The terms of the exceptions, from the last to the first.
    pub fronts: TermList,
    /// The term of what stands behind them.
    pub rest: Term,
}

/// Nothing, behind no exception.
pub(crate) fn no_run(alloc: Global) -> Result<Run, NoMemory>
    ensures fronts { IfOk result (λ run. run.fronts ≡ []) }
    ensures rest { IfOk result (λ run. run.rest ≡ Nil) }
{
    let rest = Term::nil(alloc)?;
    Ok(Run {
        fronts: TermList::new(alloc),
        rest,
    })
}

/// The exceptions from the first to the last, and what stands behind them.
fn in_order(alloc: Global, fronts: &TermList, rest: Term) -> Result<TermList, NoMemory>
    ensures { IfOk result (λ parts. parts ≡ turned fronts.now ++ rest ∷ []) }
{
    let mut parts = TermList::new(alloc);
    let mut index = fronts.len();
    while index > 0 {
        index -= 1;
        let term = fronts.at(index).copy(alloc)?;
        parts.push(term)?;
    }
    parts.push(rest)?;
    Ok(parts)
}

/// The run as one term: one of its exceptions, or what stands behind them.
pub(crate) fn closed(alloc: Global, run: Run) -> Result<Term, NoMemory>
    ensures { IfOk result (λ term. term ≡ run_term run.fronts run.rest) }
{
    let Run { fronts, rest } = run;
    if fronts.len() == 0 {
        return Ok(rest);
    }
    let parts = in_order(alloc, &fronts, rest)?;
    choice(alloc, parts)
}

/// Both terms.
pub(crate) fn both(alloc: Global, front: Term, rest: Term) -> Result<TermList, NoMemory>
    ensures { IfOk result (λ list. list ≡ front ∷ rest ∷ []) }
{
    let mut parts = TermList::new(alloc);
    parts.push(front)?;
    parts.push(rest)?;
    Ok(parts)
}

/// The run with one exception more, in front.
fn longer(front: Term, run: Run) -> Result<Run, NoMemory>
    ensures { IfOk result (λ made. IsLonger front run made) }
{
    let Run { mut fronts, rest } = run;
    fronts.push(front)?;
    Ok(Run { fronts, rest })
}

/// The front before the run, in weak sequence; exceptions before it are another run.
fn ahead(alloc: Global, front: Term, run: Run) -> Result<Run, NoMemory>
    ensures { IfOk result (λ made. IsAhead front run made) }
{
    let behind = closed(alloc, run)?;
    let parts = both(alloc, front, behind)?;
    let rest = seq(alloc, parts)?;
    Ok(Run {
        fronts: TermList::new(alloc),
        rest,
    })
}

/// The front in place of the run where it is an exception, else before it.
pub(crate) fn placed(
    alloc: Global,
    is_exception: bool,
    front: Term,
    run: Run,
) -> Result<Run, NoMemory>
    ensures { IfOk result (λ made. IsPlaced is_exception front run made) }
{
    if is_exception {
        longer(front, run)
    } else {
        ahead(alloc, front, run)
    }
}
