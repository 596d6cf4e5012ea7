//! Terms and tables that the tests share.
ghost use Rattle.std.specs.Prelude.{◌<◌, ◌≡◌, ◌∷◌, [], IfOk};
ghost use Rattle.calculus_tests.specs.Samples.{IsSample, AreSampleTables};
ghost use Rattle.chart_term.specs.Tables.{net_count};

use crate::words::term_of;
use chart_term::{Term, TermList, choice, par, seq, tied};
use hmsc_graph::{Net, Shape, ShapeLine, ShapeLines};
use msc_base::{
    Far, Kind, Label, LabelRef, LabelRefs, Name, NoMemory, Pair, PairList, Place, Text,
};
use std::alloc::Global;
use std::test::Fail;
use term_permission::fresh_loop;
use term_tables::Nets;

/// An event of that number and label, at instance 0 if the label's number is even, and at instance 1 if it is odd.
#[tactic(auto, using(crate::proofs::SampleTerms::samples))]
pub(crate) fn event(alloc: Global, number: u32, label: u32) -> Result<Term, NoMemory>
    ensures { IfOk result (λ term. IsSample [] term) }
{
    let term = Term::event(alloc, number, label % 2, None, label)?;
    Ok(term)
}

/// A list of two terms.
pub(crate) fn two(alloc: Global, first: Term, second: Term) -> Result<TermList, NoMemory>
    ensures { IfOk result (λ list. list ≡ first ∷ second ∷ []) }
{
    let mut list = TermList::new(alloc);
    list.push(first)?;
    list.push(second)?;
    Ok(list)
}

/// Both terms in weak sequence.
pub(crate) fn in_sequence(alloc: Global, first: Term, second: Term) -> Result<Term, NoMemory>
    requires first { IsSample [] first }
    requires second { IsSample [] second }
    ensures { IfOk result (λ term. IsSample [] term) }
{
    let term = seq(alloc, two(alloc, first, second)?)?;
    Ok(term)
}

/// Both terms side by side.
pub(crate) fn aside(alloc: Global, first: Term, second: Term) -> Result<Term, NoMemory>
    requires first { IsSample [] first }
    requires second { IsSample [] second }
    ensures { IfOk result (λ term. IsSample [] term) }
{
    let term = par(alloc, two(alloc, first, second)?)?;
    Ok(term)
}

/// One of both terms.
pub(crate) fn either(alloc: Global, first: Term, second: Term) -> Result<Term, NoMemory>
    requires first { IsSample [] first }
    requires second { IsSample [] second }
    ensures { IfOk result (λ term. IsSample [] term) }
{
    let term = choice(alloc, two(alloc, first, second)?)?;
    Ok(term)
}

/// The term, in which the event of the first number comes before that of the second.
#[tactic(auto, using(crate::proofs::SampleTerms::sample_tied))]
pub(crate) fn ordered(alloc: Global, inner: Term, first: u32, second: u32) -> Result<Term, NoMemory>
    requires { IsSample [] inner }
    ensures { IfOk result (λ term. IsSample [] term) }
{
    let term = tied(alloc, inner, PairList::one(alloc, Pair { first, second })?)?;
    Ok(term)
}

/// A loop of the term.
pub(crate) fn repeated(
    alloc: Global,
    body: Term,
    lower: u64,
    upper: Option<u64>,
) -> Result<Term, NoMemory>
    requires { IsSample [] body }
    ensures { IfOk result (λ term. IsSample [] term) }
{
    let nets = Nets::new(alloc);
    let term = fresh_loop(alloc, &nets, body, lower, upper)?;
    Ok(term)
}

/// Nothing.
#[tactic(auto, using(crate::proofs::SampleTerms::samples))]
pub(crate) fn nothing(alloc: Global) -> Result<Term, NoMemory>
    ensures { IfOk result (λ term. IsSample [] term) }
{
    let term = Term::nil(alloc)?;
    Ok(term)
}

/// A message from instance 0 to instance 1: an output with label a, and the input behind it with label b.
pub(crate) const MESSAGE: &str = "1:a 2:b seq 1<2";

/// The label of an action.
pub(crate) fn action(alloc: Global, at: &[u8], text: &[u8]) -> Result<Label, Fail> {
    Ok(Label {
        at: Name::from_bytes(alloc, at)?,
        kind: Kind::Action,
        text: Text::from_bytes(alloc, text)?,
        far: Far::Nobody,
    })
}

/// The label of a line. Where it stands is told of faults alone.
fn reference(alloc: Global, name: &str) -> Result<LabelRef, Fail> {
    Ok(LabelRef {
        name: Name::from_bytes(alloc, name.as_bytes())?,
        place: Place {
            byte: 0,
            line: 1,
            column: 1,
        },
    })
}

/// A line of a graph, with one next line or an end.
fn line(alloc: Global, name: &str, next: Option<&str>) -> Result<ShapeLine, Fail> {
    let LabelRef { name, place } = reference(alloc, name)?;
    let mut labels = LabelRefs::new(alloc);
    if let Some(next) = next {
        labels.push(reference(alloc, next)?)?;
    }
    Ok(ShapeLine {
        label: name,
        place,
        ends: next.is_none(),
        next: labels,
    })
}

/// A graph that starts at L1, and goes on from there to itself and to no end.
fn ring(alloc: Global) -> Result<Net, Fail> {
    let starts = LabelRefs::one(alloc, reference(alloc, "L1")?)?;
    let lines = ShapeLines::one(alloc, line(alloc, "L1", Some("L1"))?)?;
    Ok(Net::build(alloc, &Shape { starts, lines })?)
}

/// A graph of two nodes, one behind the other.
pub(crate) fn chain(alloc: Global) -> Result<Net, Fail> {
    let starts = LabelRefs::one(alloc, reference(alloc, "L1")?)?;
    let mut lines = ShapeLines::one(alloc, line(alloc, "L1", Some("L2"))?)?;
    lines.push(line(alloc, "L2", None)?)?;
    Ok(Net::build(alloc, &Shape { starts, lines })?)
}

/// The tables of the ring, where A is the message.
#[tactic(auto, using(crate::proofs::SampleTerms::ring))]
pub(crate) fn ring_tables(alloc: Global) -> Result<Nets, Fail>
    ensures samples { IfOk result (λ nets. AreSampleTables nets.tables) }
    ensures one { IfOk result (λ nets. net_count nets.tables ≡ 1) }
    ensures labels { IfOk result (λ nets. nets.labels ≡ []) }
{
    let net = ring(alloc)?;
    if net.size() != 1 {
        return Err(Fail::from("not one node"));
    }
    let mut nodes = TermList::new(alloc);
    nodes.push(term_of(alloc, MESSAGE)?)?;
    let mut nets = Nets::new(alloc);
    nets.add_net(net, nodes)?;
    Ok(nets)
}
