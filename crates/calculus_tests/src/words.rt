//! Terms by words, which are read from the left: `1:a` is event 1 with label a, and what makes one term of others stands behind them.
ghost use Rattle.std.specs.Prelude.{[], IfOk, OnOk};
ghost use Rattle.calculus_tests.specs.Samples.{IsSample};
ghost use Rattle.chart_term.specs.Properties.{Each};

use crate::samples::{aside, either, event, in_sequence, nothing, ordered, repeated};
use chart_term::Term;
use msc_base::NoMemory;
use std::alloc::Global;
use std::test::Fail;

/// The number that a word is.
fn number_of(word: &str) -> Result<u32, Fail> {
    match word.parse() {
        Ok(number) => Ok(number),
        Err(_) => Err(Fail::from("no number")),
    }
}

/// The number of the label that a letter names: 0 for a.
fn label_of(letter: &str) -> u32 {
    match letter.as_bytes().first() {
        Some(byte) => byte.saturating_sub(b'a') as u32,
        None => 0,
    }
}

/// Takes the last term off.
#[tactic(auto, using(crate::proofs::SampleTerms::stacks))]
fn taken(stack: &mut Vec<Term>) -> Result<Term, Fail>
    requires { Each (IsSample []) stack.old.items }
    ensures term { IfOk result (λ term. IsSample [] term) }
    ensures others { OnOk result (Each (IsSample []) stack.new.items) }
{
    match stack.pop() {
        Some(term) => Ok(term),
        None => Err(Fail::from("a term is missing")),
    }
}

/// Puts a term on.
#[tactic(auto, using(crate::proofs::SampleTerms::stacks))]
fn put(stack: &mut Vec<Term>, term: Term) -> Result<(), Fail>
    requires stack { Each (IsSample []) stack.old.items }
    requires term { IsSample [] term }
    ensures { OnOk result (Each (IsSample []) stack.new.items) }
{
    stack.push(term)?;
    Ok(())
}

/// Ties the last term: its event of the first number comes before that of the second.
fn tie(alloc: Global, stack: &mut Vec<Term>, first: &str, second: &str) -> Result<(), Fail>
    requires { Each (IsSample []) stack.old.items }
    ensures { OnOk result (Each (IsSample []) stack.new.items) }
{
    let inner = taken(stack)?;
    let term = ordered(alloc, inner, number_of(first)?, number_of(second)?)?;
    put(stack, term)
}

/// Makes a loop of the last term, with these bounds or without an upper one.
fn turn_round(alloc: Global, stack: &mut Vec<Term>, lower: &str, upper: &str) -> Result<(), Fail>
    requires { Each (IsSample []) stack.old.items }
    ensures { OnOk result (Each (IsSample []) stack.new.items) }
{
    let most = if upper.is_empty() {
        None
    } else {
        Some(number_of(upper)?.into())
    };
    let body = taken(stack)?;
    let term = repeated(alloc, body, number_of(lower)?.into(), most)?;
    put(stack, term)
}

/// The two terms in the form that the word names.
fn joined(alloc: Global, word: &str, first: Term, second: Term) -> Result<Term, NoMemory>
    requires first { IsSample [] first }
    requires second { IsSample [] second }
    ensures { IfOk result (λ term. IsSample [] term) }
{
    match word {
        "seq" => in_sequence(alloc, first, second),
        "par" => aside(alloc, first, second),
        _ => either(alloc, first, second),
    }
}

/// Makes one term of the last two.
fn join(alloc: Global, stack: &mut Vec<Term>, word: &str) -> Result<(), Fail>
    requires { Each (IsSample []) stack.old.items }
    ensures { OnOk result (Each (IsSample []) stack.new.items) }
{
    let second = taken(stack)?;
    let first = taken(stack)?;
    let term = joined(alloc, word, first, second)?;
    put(stack, term)
}

/// Does what a word says.
fn read_word(alloc: Global, stack: &mut Vec<Term>, word: &str) -> Result<(), Fail>
    requires { Each (IsSample []) stack.old.items }
    ensures { OnOk result (Each (IsSample []) stack.new.items) }
{
    if let Some((number, letter)) = word.split_once(':') {
        let term = event(alloc, number_of(number)?, label_of(letter))?;
        return put(stack, term);
    }
    if let Some((first, second)) = word.split_once('<') {
        return tie(alloc, stack, first, second);
    }
    if let Some((lower, upper)) = word.split_once('-') {
        return turn_round(alloc, stack, lower, upper);
    }
    if word == "nil" {
        return put(stack, nothing(alloc)?);
    }
    join(alloc, stack, word)
}

/// The term that the words make.
#[tactic(auto, using(crate::proofs::SampleTerms::stacks))]
pub(crate) fn term_of(alloc: Global, words: &str) -> Result<Term, Fail>
    ensures { IfOk result (λ term. IsSample [] term) }
{
    let mut stack = Vec::new(alloc);
    for word in words.split_whitespace() {
        read_word(alloc, &mut stack, word)?;
    }
    taken(&mut stack)
}
