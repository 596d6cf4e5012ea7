//! The charts that are measured, but for those of `towers`, as terms over one table of labels.
ghost use Rattle.std.specs.Prelude.{◌≡◌, ◌<◌, ◌+◌, [], ◌∷◌, length, IfOk, OnOk};
ghost use Rattle.msc_base.specs.Stored.{most_numbered};
ghost use Rattle.chart_term.specs.NormalForms.{tie_of};
ghost use Rattle.chart_term.specs.Properties.{Each};
ghost use Rattle.chart_term.specs.TermMeanings.{UpTo};
ghost use Rattle.chart_term.specs.Terms.{Event as EventTree};
ghost use Rattle.term_bench.specs.Charts.{labels, place, IsChart, event, message, answer, exchange};

use crate::fault::Fault;
use chart_term::{Term, TermList, choice, par, seq, tied};
use msc_base::{Far, Kind, Label, Name, NoMemory, Pair, PairList, Text};
use std::alloc::Global;
use term_permission::fresh_loop;
use term_tables::Nets;

/// How many labels the charts have.
const LABELS: u32 = 9;

/// The label of an action of instance c.
pub(crate) const ACTION: u32 = 6;

/// The label of another one.
pub(crate) const OTHER_ACTION: u32 = 7;

/// The label of an action of instance s.
pub(crate) const DISTANT_ACTION: u32 = 8;

/// The name of one of two instances.
fn name(alloc: Global, at: u32) -> Result<Name, Fault> {
    let bytes: &[u8] = if at == 0 { b"c" } else { b"s" };
    match Name::from_bytes(alloc, bytes) {
        Ok(name) => Ok(name),
        Err(_) => Err(Fault::Chart),
    }
}

/// The label of a message's event at an instance.
fn message_label(alloc: Global, kind: Kind, at: u32, text: &[u8]) -> Result<Label, Fault> {
    let far = if at == 0 { 1 } else { 0 };
    Ok(Label {
        at: name(alloc, at)?,
        kind,
        text: Text::from_bytes(alloc, text)?,
        far: Far::Instance(name(alloc, far)?),
    })
}

/// The label of an action.
pub(crate) fn action_label(alloc: Global, at: Name, text: &[u8]) -> Result<Label, Fault> {
    Ok(Label {
        at,
        kind: Kind::Action,
        text: Text::from_bytes(alloc, text)?,
        far: Far::Nobody,
    })
}

/// The label of that number: the output and the input of a request from c to s, of the answer `yes` and of the answer `no`, two
/// actions of c, and one of s.
pub(crate) fn label(alloc: Global, number: u32) -> Result<Label, Fault> {
    match number {
        0 => message_label(alloc, Kind::Output, 0, b"req"),
        1 => message_label(alloc, Kind::Input, 1, b"req"),
        2 => message_label(alloc, Kind::Output, 1, b"yes"),
        3 => message_label(alloc, Kind::Input, 0, b"yes"),
        4 => message_label(alloc, Kind::Output, 1, b"no"),
        5 => message_label(alloc, Kind::Input, 0, b"no"),
        ACTION => action_label(alloc, name(alloc, 0)?, b"'x'"),
        OTHER_ACTION => action_label(alloc, name(alloc, 0)?, b"'y'"),
        _ => action_label(alloc, name(alloc, 1)?, b"'x'"),
    }
}

/// Adds a label that the tables lack.
pub(crate) fn add(nets: &mut Nets, label: Label) -> Result<(), Fault>
    requires { length nets.old.labels < most_numbered }
    ensures tables { OnOk result (nets.new.tables ≡ nets.old.tables) }
    ensures labels { OnOk result (length nets.new.labels ≡ length nets.old.labels + 1) }
{
    match nets.label(&label) {
        Some(_) => Err(Fault::Chart),
        None => {
            nets.add_label(label)?;
            Ok(())
        }
    }
}

/// Tables of the labels, without nets.
pub(crate) fn tables(alloc: Global) -> Result<Nets, Fault>
    ensures nets { IfOk result (λ nets. nets.tables ≡ []) }
    ensures labels { IfOk result (λ nets. length nets.labels ≡ labels) }
{
    let mut nets = Nets::new(alloc);
    for number in 0..LABELS {
        add(&mut nets, label(alloc, number)?)?;
    }
    Ok(nets)
}

/// An event at an instance.
pub(crate) fn event(alloc: Global, number: u32, at: u32, label: u32) -> Result<Term, NoMemory>
    requires { at < 1024 }
    ensures { IfOk result (λ term. term ≡ EventTree (event number at label)) }
{
    let term = Term::event(alloc, number, at, None, label)?;
    Ok(term)
}

/// A list of two terms.
pub(crate) fn two(alloc: Global, first: Term, second: Term) -> Result<TermList, NoMemory>
    ensures { IfOk result (λ list. list ≡ first ∷ second ∷ []) }
{
    let mut parts = TermList::new(alloc);
    parts.push(first)?;
    parts.push(second)?;
    Ok(parts)
}

/// A list of three terms.
pub(crate) fn three(
    alloc: Global,
    first: Term,
    second: Term,
    third: Term,
) -> Result<TermList, NoMemory>
    ensures { IfOk result (λ list. list ≡ first ∷ second ∷ third ∷ []) }
{
    let mut parts = two(alloc, first, second)?;
    parts.push(third)?;
    Ok(parts)
}

/// The term, in which the event of the first number comes before that of the second.
#[tactic(auto, using(crate::proofs::Made::tie_rules))]
pub(crate) fn tied_pair(
    alloc: Global,
    inner: Term,
    first: u32,
    second: u32,
) -> Result<Term, NoMemory>
    ensures { IfOk result (λ term. term ≡ tie_of inner ((first, second) ∷ [])) }
{
    let mut pairs = PairList::new(alloc);
    pairs.push(Pair { first, second })?;
    let term = tied(alloc, inner, pairs)?;
    Ok(term)
}

/// A message from one instance to another: its output has this number and label, its input the next ones.
pub(crate) fn message(alloc: Global, number: u32, from: u32, to: u32) -> Result<Term, NoMemory>
    requires number { number < 1000 }
    requires from { from < 1024 }
    requires to { to < 1024 }
    ensures { IfOk result (λ term. term ≡ message number from to) }
{
    let output = event(alloc, number, from, number)?;
    let input = event(alloc, number + 1, to, number + 1)?;
    let row = seq(alloc, two(alloc, output, input)?)?;
    tied_pair(alloc, row, number, number + 1)
}

/// One of two answers.
#[tactic(auto, using(crate::proofs::Made::answer_rules))]
fn answer(alloc: Global) -> Result<Term, NoMemory>
    ensures { IfOk result (λ term. term ≡ answer) }
{
    let yes = message(alloc, 2, 1, 0)?;
    let no = message(alloc, 4, 1, 0)?;
    let term = choice(alloc, two(alloc, yes, no)?)?;
    Ok(term)
}

/// A request and an answer.
fn exchange(alloc: Global) -> Result<Term, NoMemory>
    ensures { IfOk result (λ term. IsChart term) }
{
    let output = event(alloc, 0, 0, 0)?;
    let input = event(alloc, 1, 1, 1)?;
    let answer = answer(alloc)?;
    let parts = three(alloc, output, input, answer)?;
    let row = seq(alloc, parts)?;
    let term = tied_pair(alloc, row, 0, 1)?;
    Ok(term)
}

/// A loop of at least one turn, and where there is a bound of so many at most.
#[tactic(auto, using(crate::proofs::Made::loop_rules))]
fn looped(alloc: Global, body: Term, most: Option<u64>) -> Result<Term, NoMemory>
    requires body { IsChart body }
    requires most { UpTo most 1 }
    ensures { IfOk result (λ term. IsChart term) }
{
    let nets = Nets::new(alloc);
    let term = fresh_loop(alloc, &nets, body, 1, most)?;
    Ok(term)
}

/// A loop without end of an action of instance c, and behind it a loop of one or two actions of instance s.
#[cfg(test)]
pub(crate) fn nested_loops(alloc: Global) -> Result<Term, NoMemory>
    ensures { IfOk result (λ term. IsChart term) }
{
    let first = single(alloc, 0, 0, ACTION)?;
    let second = single(alloc, 1, 1, DISTANT_ACTION)?;
    let inner = looped(alloc, second, Some(2))?;
    let body = in_row(alloc, first, inner)?;
    looped(alloc, body, None)
}

/// Two equal actions and another one in a coregion: the second of the equal ones comes before the other.
#[cfg(test)]
pub(crate) fn ordered(alloc: Global) -> Result<Term, NoMemory>
    ensures { IfOk result (λ term. IsChart term) }
{
    let first = event(alloc, 0, 0, ACTION)?;
    let second = event(alloc, 1, 0, ACTION)?;
    let other = event(alloc, 2, 0, OTHER_ACTION)?;
    let parts = three(alloc, first, second, other)?;
    let aside = par(alloc, parts)?;
    let term = tied_pair(alloc, aside, 1, 2)?;
    Ok(term)
}

/// Requests without end, and no answers.
pub(crate) fn requests(alloc: Global) -> Result<Term, NoMemory>
    ensures { IfOk result (λ term. IsChart term) }
{
    let body = message(alloc, 0, 0, 1)?;
    looped(alloc, body, None)
}

/// Requests without end, each with an answer.
pub(crate) fn exchanges(alloc: Global) -> Result<Term, NoMemory>
    ensures { IfOk result (λ term. IsChart term) }
{
    let body = exchange(alloc)?;
    looped(alloc, body, None)
}

/// An event of an instance, as a whole chart.
pub(crate) fn single(alloc: Global, number: u32, at: u32, label: u32) -> Result<Term, NoMemory>
    requires at { at < 1024 }
    requires label { label < labels }
    requires place { place label ≡ at }
    ensures { IfOk result (λ term. IsChart term) }
{
    let term = event(alloc, number, at, label)?;
    Ok(term)
}

/// A chart and another behind it.
pub(crate) fn in_row(alloc: Global, first: Term, second: Term) -> Result<Term, NoMemory>
    requires first { IsChart first }
    requires second { IsChart second }
    ensures { IfOk result (λ term. IsChart term) }
{
    let parts = two(alloc, first, second)?;
    let term = seq(alloc, parts)?;
    Ok(term)
}

/// One of two charts.
pub(crate) fn either(alloc: Global, first: Term, second: Term) -> Result<Term, NoMemory>
    requires first { IsChart first }
    requires second { IsChart second }
    ensures { IfOk result (λ term. IsChart term) }
{
    let parts = two(alloc, first, second)?;
    let term = choice(alloc, parts)?;
    Ok(term)
}

/// So many events of an instance with that label.
#[tactic(auto, using(crate::proofs::Made::list_rules))]
fn singles(alloc: Global, count: u32, at: u32, label: u32) -> Result<TermList, NoMemory>
    requires at { at < 1024 }
    requires label { label < labels }
    requires place { place label ≡ at }
    ensures { IfOk result (λ parts. Each IsChart parts) }
{
    let mut parts = TermList::new(alloc);
    for number in 0..count {
        parts.push(single(alloc, number, at, label)?)?;
    }
    Ok(parts)
}

/// So many equal actions in a coregion.
pub(crate) fn coregion(alloc: Global, count: u32) -> Result<Term, NoMemory>
    ensures { IfOk result (λ term. IsChart term) }
{
    let parts = singles(alloc, count, 0, ACTION)?;
    let term = par(alloc, parts)?;
    Ok(term)
}

/// So many events of an instance in a row, all with that label.
fn repeated(alloc: Global, count: u32, at: u32, label: u32) -> Result<Term, NoMemory>
    requires at { at < 1024 }
    requires label { label < labels }
    requires place { place label ≡ at }
    ensures { IfOk result (λ term. IsChart term) }
{
    let parts = singles(alloc, count, at, label)?;
    let term = seq(alloc, parts)?;
    Ok(term)
}

/// So many equal actions of c in a row, and behind them as many of s.
pub(crate) fn behind(alloc: Global, count: u32) -> Result<Term, NoMemory>
    ensures { IfOk result (λ term. IsChart term) }
{
    let near = repeated(alloc, count, 0, ACTION)?;
    let distant = repeated(alloc, count, 1, DISTANT_ACTION)?;
    in_row(alloc, near, distant)
}

/// So many terms, each the choice of one of both actions.
#[tactic(auto, using(crate::proofs::Made::list_rules))]
fn choice_list(alloc: Global, count: u32) -> Result<TermList, NoMemory>
    ensures { IfOk result (λ parts. Each IsChart parts) }
{
    let mut parts = TermList::new(alloc);
    for number in 0..count {
        let first = single(alloc, number, 0, ACTION)?;
        let second = single(alloc, number, 0, OTHER_ACTION)?;
        parts.push(either(alloc, first, second)?)?;
    }
    Ok(parts)
}

/// One of both actions, so many times in a row.
pub(crate) fn choices(alloc: Global, count: u32) -> Result<Term, NoMemory>
    ensures { IfOk result (λ term. IsChart term) }
{
    let parts = choice_list(alloc, count)?;
    let term = seq(alloc, parts)?;
    Ok(term)
}

/// Nothing.
pub(crate) fn nothing(alloc: Global) -> Result<Term, NoMemory>
    ensures { IfOk result (λ term. IsChart term) }
{
    let term = Term::nil(alloc)?;
    Ok(term)
}
