//! The chart that is measured: a graph whose nodes follow one another in a ring, each an action of one instance.
ghost use Rattle.std.specs.Prelude.{◌≡◌, ◌<◌, ◌≤◌, [], length, IfOk};
ghost use Rattle.chart_term.specs.Properties.{Each};
ghost use Rattle.chart_term.specs.Tables.{net_count};
ghost use Rattle.term_permission.specs.Ready.{IsReady, AreReadyTables};
ghost use Rattle.term_bench.specs.Homes.{AreHome, IsHome};

use crate::charts::{action_label, add};
use crate::fault::Fault;
use chart_term::{Term, TermList};
use hmsc_graph::{Net, Shape, ShapeLine, ShapeLines};
use msc_base::{Label, LabelList, LabelRef, LabelRefs, Name, NoMemory, Place};
use std::alloc::Global;
use term_tables::Nets;

/// How many labels the actions have; node after node has the next of them.
pub(crate) const ACTIONS: u32 = 8;

/// A name of a letter and a number.
fn name(alloc: Global, number: u32) -> Result<Name, Fault> {
    let text = format!(in alloc; "L{number}")?;
    match Name::from_bytes(alloc, text.as_bytes()) {
        Ok(name) => Ok(name),
        Err(_) => Err(Fault::Chart),
    }
}

/// The label of the line of that number.
fn line_label(alloc: Global, number: u32) -> Result<LabelRef, Fault> {
    let byte = number as u64;
    let place = Place {
        byte,
        line: 1,
        column: 1 + byte,
    };
    Ok(LabelRef {
        name: name(alloc, number)?,
        place,
    })
}

/// The labels of the lines behind a line: the next one, and behind the last node the first one too.
fn next_labels(alloc: Global, number: u32, size: u32) -> Result<LabelRefs, Fault>
    requires { number < size }
{
    let mut next = LabelRefs::new(alloc);
    let left = size - number;
    if left > 1 {
        next.push(line_label(alloc, number + 1)?)?;
    }
    if left == 2 {
        next.push(line_label(alloc, 0)?)?;
    }
    Ok(next)
}

/// The line of that number.
fn line(alloc: Global, number: u32, size: u32) -> Result<ShapeLine, Fault>
    requires { number < size }
{
    let LabelRef { name, place } = line_label(alloc, number)?;
    Ok(ShapeLine {
        label: name,
        place,
        ends: size - number == 1,
        next: next_labels(alloc, number, size)?,
    })
}

/// The ring of so many lines, of which the last is the `end` line.
fn ring(alloc: Global, size: u32) -> Result<Shape, Fault>
    ensures { IfOk result (λ shape. length shape.lines ≡ size) }
{
    let mut starts = LabelRefs::new(alloc);
    starts.push(line_label(alloc, 0)?)?;
    let mut lines = ShapeLines::new(alloc);
    for number in 0..size {
        lines.push(line(alloc, number, size)?)?;
    }
    Ok(Shape { starts, lines })
}

/// What the node of that number has: an action of the instance, or nothing at the `end` line.
#[tactic(auto, using(crate::proofs::ReadyRing::ready))]
fn node(alloc: Global, number: u32, size: u32) -> Result<Term, NoMemory>
    requires { number < size }
    ensures ready { IfOk result (λ term. IsReady [] term) }
    ensures home { IfOk result IsHome }
{
    if size - number == 1 {
        let term = Term::nil(alloc)?;
        return Ok(term);
    }
    let term = Term::event(alloc, number, 0, None, number % ACTIONS)?;
    Ok(term)
}

/// What the nodes have.
#[tactic(auto, using(crate::proofs::ReadyRing::ready))]
fn nodes(alloc: Global, size: u32) -> Result<TermList, NoMemory>
    ensures size { IfOk result (λ nodes. length nodes ≡ size) }
    ensures ready { IfOk result (λ nodes. Each (IsReady []) nodes) }
    ensures home { IfOk result (λ nodes. Each IsHome nodes) }
{
    let mut nodes = TermList::new(alloc);
    for number in 0..size {
        nodes.push(node(alloc, number, size)?)?;
    }
    Ok(nodes)
}

/// The label of an action.
fn action(alloc: Global, number: u32) -> Result<Label, Fault> {
    let text = format!(in alloc; "'x{number}'")?;
    action_label(alloc, name(alloc, 0)?, text.as_bytes())
}

/// The labels of the actions.
pub(crate) fn labels(alloc: Global) -> Result<LabelList, Fault>
    ensures { IfOk result (λ labels. length labels ≡ 8) }
{
    let mut labels = LabelList::new(alloc);
    for number in 0..ACTIONS {
        labels.push(action(alloc, number)?)?;
    }
    Ok(labels)
}

/// Tables of the labels, without nets.
fn labelled(alloc: Global) -> Result<Nets, Fault>
    ensures { IfOk result (λ nets. nets.tables ≡ []) }
{
    let mut nets = Nets::new(alloc);
    for number in 0..ACTIONS {
        add(&mut nets, action(alloc, number)?)?;
    }
    Ok(nets)
}

/// The tables of the ring of so many lines.
#[tactic(auto, using(crate::proofs::ReadyRing::ready))]
pub(crate) fn tables(alloc: Global, size: u32) -> Result<Nets, Fault>
    requires { size ≤ 4096 }
    ensures ready { IfOk result (λ nets. AreReadyTables nets.tables) }
    ensures home { IfOk result (λ nets. AreHome nets.tables) }
    ensures one { IfOk result (λ nets. net_count nets.tables ≡ 1) }
{
    let shape = ring(alloc, size)?;
    let Ok(net) = Net::build(alloc, &shape) else {
        return Err(Fault::Chart);
    };
    if net.size() != size {
        return Err(Fault::Chart);
    }
    let nodes = nodes(alloc, size)?;
    let mut nets = labelled(alloc)?;
    nets.add_net(net, nodes)?;
    Ok(nets)
}
