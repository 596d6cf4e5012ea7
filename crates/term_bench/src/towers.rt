//! Charts whose choices stand each within another.
ghost use Rattle.std.specs.Prelude.{◌≡◌, ◌<◌, ◌+◌, IfOk};
ghost use Rattle.term_bench.specs.Charts.{IsChart, with_answer, tied_tower};

use crate::charts::{
    ACTION, DISTANT_ACTION, OTHER_ACTION, either, event, in_row, message, nothing, single, three,
    tied_pair, two,
};
use chart_term::{Term, choice, par, seq};
use msc_base::NoMemory;
use std::alloc::Global;

/// The label of the event that stands within all choices: an input of instance c.
pub(crate) const INNERMOST: u32 = 3;

/// The label of the output of the answer `no` by instance s.
const ANSWER: u32 = 4;

/// The label of its input by instance c.
const ANSWERED: u32 = 5;

/// The most choices with a tie around what is within them.
const MOST_TIED: u32 = 1_000_000;

/// How each choice of a tower stands within the one before it.
#[derive(Clone, Copy, Debug, PartialEq, Eq)]
pub(crate) enum Form {
    /// In its first part, last in a row.
    First,
    /// In its last part, last in a row, as exceptions stand.
    Last,
    /// In its first part, first in a row below a tie.
    Tied,
}

/// So many choices, each within the one before it.
#[derive(Clone, Copy, Debug, PartialEq, Eq)]
pub(crate) struct Tower {
    pub(crate) levels: u32,
    pub(crate) form: Form,
}

/// The answer `no`, as a whole chart: a message from s to c.
fn refusal(alloc: Global) -> Result<Term, NoMemory>
    ensures { IfOk result (λ term. IsChart term) }
{
    let term = message(alloc, 4, 1, 0)?;
    Ok(term)
}

/// An optional action of s and behind it the term.
fn behind_option(alloc: Global, inner: Term) -> Result<Term, NoMemory>
    requires { IsChart inner }
    ensures { IfOk result (λ term. IsChart term) }
{
    let optional = either(alloc, nothing(alloc)?, single(alloc, 0, 1, DISTANT_ACTION)?)?;
    in_row(alloc, optional, inner)
}

/// So many choices of the answer `no` and of the next choice, which stands first in each, each with a tie beside that.
fn first_tower(alloc: Global, levels: u32) -> Result<Term, NoMemory>
    ensures { IfOk result (λ term. IsChart term) }
{
    let mut inner = single(alloc, 0, 0, INNERMOST)?;
    for _ in 0..levels {
        let row = behind_option(alloc, inner)?;
        inner = either(alloc, row, refusal(alloc)?)?;
    }
    Ok(inner)
}

/// The same, but that the next choice stands last in each.
fn last_tower(alloc: Global, levels: u32) -> Result<Term, NoMemory>
    ensures { IfOk result (λ term. IsChart term) }
{
    let mut inner = single(alloc, 0, 0, INNERMOST)?;
    for _ in 0..levels {
        let row = behind_option(alloc, inner)?;
        inner = either(alloc, refusal(alloc)?, row)?;
    }
    Ok(inner)
}

/// The term, and behind it the answer `no`, whose output has that number, under a tie.
fn with_answer(alloc: Global, inner: Term, number: u32) -> Result<Term, NoMemory>
    requires { number < 3000000000 }
    ensures { IfOk result (λ term. term ≡ with_answer number inner) }
{
    let output = event(alloc, number, 1, ANSWER)?;
    let input = event(alloc, number + 1, 0, ANSWERED)?;
    let parts = three(alloc, inner, output, input)?;
    let row = seq(alloc, parts)?;
    let term = tied_pair(alloc, row, number, number + 1)?;
    Ok(term)
}

/// An input of c; or the choices so far and an answer, below a tie.
fn around_tied(alloc: Global, inner: Term, level: u32) -> Result<Term, NoMemory>
    requires level { level < 1000000 }
    requires inner { inner ≡ tied_tower level }
    ensures { IfOk result (λ term. term ≡ tied_tower (level + 1)) }
{
    let answered = with_answer(alloc, inner, 2 * level + 1)?;
    let input = event(alloc, 0, 0, ANSWERED)?;
    let parts = two(alloc, answered, input)?;
    let term = choice(alloc, parts)?;
    Ok(term)
}

/// So many choices, a million at most, each within the one before it and below a tie.
fn tied_tower(alloc: Global, levels: u32) -> Result<Term, NoMemory>
    ensures { IfOk result (λ term. IsChart term) }
{
    let mut inner = event(alloc, 0, 0, INNERMOST)?;
    for level in 0..levels.min(MOST_TIED) {
        inner = around_tied(alloc, inner, level)?;
    }
    Ok(inner)
}

/// The tower.
fn tower_of(alloc: Global, tower: Tower) -> Result<Term, NoMemory>
    ensures { IfOk result (λ term. IsChart term) }
{
    match tower.form {
        Form::First => first_tower(alloc, tower.levels),
        Form::Last => last_tower(alloc, tower.levels),
        Form::Tied => tied_tower(alloc, tower.levels),
    }
}

/// The term beside an action of c, which stands there twice.
fn beside_actions(alloc: Global, inner: Term) -> Result<Term, NoMemory>
    requires { IsChart inner }
    ensures { IfOk result (λ term. IsChart term) }
{
    let first = single(alloc, 1, 0, ACTION)?;
    let second = single(alloc, 1, 0, ACTION)?;
    let parts = three(alloc, inner, first, second)?;
    let term = par(alloc, parts)?;
    Ok(term)
}

/// The tower beside an action that stands there twice; behind all of them another action of the same instance.
pub(crate) fn nested(alloc: Global, tower: Tower) -> Result<Term, NoMemory>
    ensures { IfOk result (λ term. IsChart term) }
{
    let all = beside_actions(alloc, tower_of(alloc, tower)?)?;
    let last = single(alloc, 3, 0, OTHER_ACTION)?;
    in_row(alloc, all, last)
}

/// An action, and behind it the tower.
pub(crate) fn held(alloc: Global, tower: Tower) -> Result<Term, NoMemory>
    ensures { IfOk result (λ term. IsChart term) }
{
    let first = single(alloc, 1, 0, ACTION)?;
    in_row(alloc, first, tower_of(alloc, tower)?)
}
