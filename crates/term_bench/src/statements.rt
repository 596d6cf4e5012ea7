//! A plain chart of many messages under one tie: its labels, its term, and a log of it.
//!
//! Its statements stand in groups of sixty: thirty messages are sent, each from an instance of its own to another, and then received.
ghost use Rattle.std.specs.Prelude.{◌≡◌, ◌<◌, ◌≤◌, ◌*◌, [], length, IfOk};
ghost use Rattle.chart_term.specs.Views.{pairs_of};
ghost use Rattle.sound_terms.specs.RisingRows.{DoRise};
ghost use Rattle.term_laws.specs.FullSoundness.{IsSoundNode};
ghost use Rattle.term_laws.specs.Placing.{HaveOnePlace};
ghost use Rattle.term_bench.specs.Statements.{AreStatements};

use crate::charts::{add, event};
use crate::fault::Fault;
use chart_term::{Term, TermList, seq, tied};
use msc_base::{Far, Kind, Label, LabelList, Name, NoMemory, Pair, PairList, Text};
use sound_terms::laws::rising_rows_are_sound;
use std::alloc::Global;
use term_tables::Nets;

/// How many messages a group has.
const MESSAGES: u32 = 30;

/// How many statements a group has.
pub(crate) const GROUP: u32 = 60;

/// How many statements a chart has at most.
pub(crate) const MOST_STATEMENTS: u32 = 600_000;

/// What a statement of the chart is.
#[derive(Clone, Copy)]
struct Statement {
    /// Which group it stands in, from 0.
    group: u32,
    /// Which message of the group it sends or receives, from 0.
    message: u32,
    is_output: bool,
}

impl Statement {
    /// The statement of that number, from 0.
    fn of(number: u32) -> Statement
        ensures message { result.message < 30 }
        ensures group { 60 * result.group ≤ number }
    {
        let place = number % GROUP;
        Statement {
            group: number / GROUP,
            message: place % MESSAGES,
            is_output: place < MESSAGES,
        }
    }

    /// The instance that sends the message.
    fn sender(self) -> u32
        requires { self.message < 30 }
        ensures { result < 60 }
    {
        2 * self.message
    }

    /// The instance that receives the message.
    fn receiver(self) -> u32
        requires { self.message < 30 }
        ensures { result < 60 }
    {
        2 * self.message + 1
    }

    /// The instance at which it stands.
    fn at(self) -> u32
        requires { self.message < 30 }
        ensures { result < 60 }
    {
        if self.is_output {
            self.sender()
        } else {
            self.receiver()
        }
    }
}

/// The name of an instance.
fn name(alloc: Global, at: u32) -> Result<Name, Fault> {
    let text = format!(in alloc; "n{at}")?;
    match Name::from_bytes(alloc, text.as_bytes()) {
        Ok(name) => Ok(name),
        Err(_) => Err(Fault::Chart),
    }
}

/// The label of the statement of that number. The messages of a group are called by its number, so no two labels are alike.
fn label(alloc: Global, number: u32) -> Result<Label, Fault> {
    let statement = Statement::of(number);
    let group = statement.group;
    let text = format!(in alloc; "m{group}")?;
    let sender = name(alloc, statement.sender())?;
    let receiver = name(alloc, statement.receiver())?;
    let text = Text::from_bytes(alloc, text.as_bytes())?;
    Ok(if statement.is_output {
        Label {
            at: sender,
            kind: Kind::Output,
            text,
            far: Far::Instance(receiver),
        }
    } else {
        Label {
            at: receiver,
            kind: Kind::Input,
            text,
            far: Far::Instance(sender),
        }
    })
}

/// Tables of the labels of so many statements, without nets.
pub(crate) fn tables(alloc: Global, count: u32) -> Result<Nets, Fault>
    requires { count ≤ 600000 }
    ensures nets { IfOk result (λ nets. nets.tables ≡ []) }
    ensures labels { IfOk result (λ nets. length nets.labels ≡ count) }
{
    let mut nets = Nets::new(alloc);
    for number in 0..count {
        add(&mut nets, label(alloc, number)?)?;
    }
    Ok(nets)
}

/// So many statements, as events: each has its own number for its number and its label.
#[tactic(auto, using(crate::proofs::RisingCharts::statement_rules))]
fn events(alloc: Global, count: u32) -> Result<TermList, NoMemory>
    requires { count ≤ 600000 }
    ensures { IfOk result (λ parts. AreStatements count parts count) }
{
    let mut parts = TermList::new(alloc);
    for number in 0..count {
        let at = Statement::of(number).at();
        parts.push(event(alloc, number, at, number)?)?;
    }
    Ok(parts)
}

/// The pairs of the messages: each is sent before it is received.
#[tactic(auto, using(crate::proofs::RisingCharts::pair_rules))]
fn pairs(alloc: Global, count: u32) -> Result<PairList, NoMemory>
    requires { count ≤ 600000 }
    ensures { IfOk result (λ pairs. DoRise (pairs_of pairs)) }
{
    let mut pairs = PairList::new(alloc);
    for first in 0..count {
        if Statement::of(first).is_output && first + MESSAGES < count {
            let second = first + MESSAGES;
            pairs.push(Pair { first, second })?;
        }
    }
    Ok(pairs)
}

/// The chart of so many statements.
pub(crate) fn statements(alloc: Global, count: u32) -> Result<Term, NoMemory>
    requires { count ≤ 600000 }
    ensures sound { IfOk result (λ term. IsSoundNode count [] term) }
    ensures placed { IfOk result (λ term. HaveOnePlace [] term) }
{
    rising_rows_are_sound();
    let events = events(alloc, count)?;
    let pairs = pairs(alloc, count)?;
    let row = seq(alloc, events)?;
    let term = tied(alloc, row, pairs)?;
    Ok(term)
}

/// A log of the chart: group after group, the messages are sent in the order of the text and received in the other.
pub(crate) fn log(alloc: Global, count: u32) -> Result<LabelList, Fault>
    requires { count ≤ 600000 }
{
    let mut labels = LabelList::new(alloc);
    for number in 0..count {
        let statement = Statement::of(number);
        let turned = if statement.is_output {
            number
        } else {
            GROUP * statement.group + GROUP - 1 - statement.message
        };
        labels.push(label(alloc, turned)?)?;
    }
    Ok(labels)
}
