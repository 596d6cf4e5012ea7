//! What is left of a term after one event and another.
ghost use Rattle.std.specs.Prelude.{◌<◌, ◌≤◌, ◌+◌, ◌≡◌, [], length, IfOk, OnOk};
ghost use Rattle.calculus_tests.specs.Samples.{IsSample, AreSampleTables};
ghost use Rattle.chart_term.specs.Properties.{Each, MayHave};
ghost use Rattle.chart_term.specs.Tables.{net_count};

use crate::samples::{action, either, event, in_sequence, ring_tables};
use crate::words::term_of;
use chart_term::{Term, TermList};
use hmsc_graph::Goal;
use msc_base::{Label, NoMemory};
use std::alloc::Global;
use std::test::Fail;
use term_permission::fresh_walk;
use term_step::after_each;
use term_tables::Nets;

/// An action's label.
fn label(alloc: Global, text: &[u8]) -> Result<Label, Fail> {
    action(alloc, b"i", text)
}

/// Adds the action's label where it is new.
fn add(alloc: Global, nets: &mut Nets, text: &[u8]) -> Result<(), Fail>
    requires { length nets.old.labels < 100 }
    ensures tables { OnOk result (nets.new.tables ≡ nets.old.tables) }
    ensures labels { OnOk result (length nets.new.labels ≤ length nets.old.labels + 1) }
{
    let label = label(alloc, text)?;
    match nets.label(&label) {
        Some(_) => Ok(()),
        None => {
            nets.add_label(label)?;
            Ok(())
        }
    }
}

/// Adds the labels a to g, which become 0 to 6.
fn add_all(alloc: Global, nets: &mut Nets) -> Result<(), Fail>
    requires { length nets.old.labels < 90 }
    ensures { OnOk result (nets.new.tables ≡ nets.old.tables) }
{
    for number in 0..7 {
        add(alloc, nets, &[b'a' + number])?;
    }
    Ok(())
}

/// Tables of the labels, without nets.
fn tables(alloc: Global) -> Result<Nets, Fail>
    ensures { IfOk result (λ nets. nets.tables ≡ []) }
{
    let mut nets = Nets::new(alloc);
    add_all(alloc, &mut nets)?;
    Ok(nets)
}

/// What is left of the terms after the label: nothing where the tables lack it.
#[tactic(auto, using(crate::proofs::SampleTerms::stepped))]
fn step(alloc: Global, nets: &Nets, set: &TermList, label: &Label) -> Result<TermList, Fail>
    requires tables { AreSampleTables nets.now.tables }
    requires set { Each (IsSample nets.now.tables) set.now }
    ensures { IfOk result (λ next. Each (IsSample nets.now.tables) next) }
{
    let Some(number) = nets.label(label) else {
        return Ok(TermList::new(alloc));
    };
    let found = after_each(alloc, nets, set, number, 1_000_000)?;
    let Some(left) = found else {
        return Err(Fail::from("too much is left"));
    };
    let next = left.into_list(alloc)?;
    Ok(next)
}

/// The weight of the terms together.
fn total(set: &TermList) -> u64 {
    let mut sum: u64 = 0;
    for term in set.as_slice() {
        sum = sum.saturating_add(term.weight());
    }
    sum
}

/// Whether the word is the weight of the terms together.
fn is_weight(set: &TermList, word: Option<&str>) -> bool {
    match word {
        Some(word) => word.parse::<u64>().ok() == Some(total(set)),
        None => false,
    }
}

/// Whether the weights are these: of the term, and of what is left after each label in turn.
#[tactic(auto, using(crate::proofs::SampleTerms::sample_one))]
fn weigh(alloc: Global, nets: &Nets, term: Term, texts: &str, weights: &str) -> Result<bool, Fail>
    requires tables { AreSampleTables nets.now.tables }
    requires term { IsSample nets.now.tables term }
{
    let mut set = TermList::new(alloc);
    set.push(term)?;
    let mut wanted = weights.split_whitespace();
    let mut same = is_weight(&set, wanted.next());
    for text in texts.split_whitespace() {
        set = step(alloc, nets, &set, &label(alloc, text.as_bytes())?)?;
        same = same && is_weight(&set, wanted.next());
    }
    Ok(same && wanted.next().is_none())
}

/// The same over tables without nets.
#[tactic(auto, using(crate::proofs::SampleTerms::no_nets, crate::proofs::SampleTerms::over_none))]
pub(crate) fn weighs(alloc: Global, term: Term, texts: &str, weights: &str) -> Result<bool, Fail>
    requires { IsSample [] term }
{
    let nets = tables(alloc)?;
    weigh(alloc, &nets, term, texts, weights)
}

/// Actions a, a and c in a coregion, where the second a comes before c.
const COREGION: &str = "1:a 2:a 3:c par par 2<3";

/// The weight of all that is left of the coregion after a, if it is at most so much.
#[tactic(auto, using(crate::proofs::SampleTerms::alone))]
fn within(alloc: Global, most: u64) -> Result<Option<u64>, Fail>
    requires { most < 1000 }
{
    let nets = tables(alloc)?;
    let mut set = TermList::new(alloc);
    set.push(term_of(alloc, COREGION)?)?;
    match after_each(alloc, &nets, &set, 0, most)? {
        Some(left) => Ok(Some(left.weight())),
        None => Ok(None),
    }
}

/// Nothing is given where all together weighs more than is wanted.
#[test]
fn more_than_is_wanted_is_told(rt: HostRuntime) -> Result<(), Fail> {
    let alloc = rt.alloc();
    assert!(rt; within(alloc, 8)? == Some(8));
    assert!(rt; within(alloc, 7)? == None);
    Ok(())
}

/// So many choices of a or c, one behind the other, and one more.
fn choices(alloc: Global, count: u32) -> Result<Term, NoMemory>
    ensures { IfOk result (λ term. IsSample [] term) }
{
    let first = event(alloc, 0, 0)?;
    let second = event(alloc, 0, 2)?;
    let mut all = either(alloc, first, second)?;
    for number in 0..count {
        let first = event(alloc, number, 0)?;
        let second = event(alloc, number, 2)?;
        let next = either(alloc, first, second)?;
        all = in_sequence(alloc, all, next)?;
    }
    Ok(all)
}

/// Each of forty choices is made by itself: one term is left, and it is lighter by one choice.
#[test]
fn forty_choices_leave_one_term(rt: HostRuntime) -> Result<(), Fail> {
    let alloc = rt.alloc();
    let texts = "c c c c c c c c c c c c c c c c c c c c c c c c c c c c c c c c c c c c c c c c";
    let weights =
        "121 118 115 112 109 106 103 100 97 94 91 88 85 82 79 76 73 70 67 64 61 58 55 52 49 46 43 40 37 34 31 28 25 22 19 16 13 10 7 3 1";
    assert!(rt; weighs(alloc, choices(alloc, 39)?, texts, weights)?);
    Ok(())
}

/// The walk from the start of the first net to anywhere.
#[tactic(auto, using(crate::proofs::SampleTerms::walking))]
fn walk(alloc: Global, nets: &Nets) -> Result<Option<Term>, NoMemory>
    requires tables { AreSampleTables nets.now.tables }
    requires one { net_count nets.now.tables ≡ 1 }
    ensures { IfOk result (λ walk. MayHave (IsSample nets.now.tables) walk) }
{
    let walk = fresh_walk(alloc, nets, 0, Goal::Any)?;
    Ok(walk)
}

/// A walk round a ring of messages goes on after each message.
#[test]
fn walk_goes_round(rt: HostRuntime) -> Result<(), Fail> {
    let alloc = rt.alloc();
    let mut nets = ring_tables(alloc)?;
    add_all(alloc, &mut nets)?;
    let Some(walk) = walk(alloc, &nets)? else {
        return Err(Fail::from("no walk"));
    };
    assert!(rt; weigh(alloc, &nets, walk, "a b a", "1 3 1 3")?);
    Ok(())
}
