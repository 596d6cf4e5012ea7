//! Terms that words don't make, and how terms compare.
ghost use Rattle.std.specs.Prelude.{◌<◌};

use crate::words::term_of;
use bit_sets::Block;
use chart_term::{Look, PartList, RowPart, Term, TermList};
use hmsc_graph::{Goal, Spot};
use msc_base::NoMemory;
use std::alloc::Global;
use std::test::Fail;

/// A block of one instance and one event.
fn block(alloc: Global, at: u32, number: u32) -> Result<Block, NoMemory>
    requires { at < 1024 }
{
    let mut block = Block::empty(alloc);
    block.add_instance(at)?;
    block.add_event(number)?;
    Ok(block)
}

/// A loop of that body with one gap, which a block of one instance shuts.
pub(crate) fn loop_shut(alloc: Global, body: Term, at: u32) -> Result<Term, NoMemory>
    requires { at < 1024 }
{
    let row = PartList::one(alloc, RowPart::Gap(block(alloc, at, 0)?))?;
    Term::loop_of(alloc, body, 1, None, row)
}

/// A loop of the body with a begun turn.
pub(crate) fn begun_loop(alloc: Global, body: Term, turn: Term) -> Result<Term, NoMemory> {
    let row = PartList::one(alloc, RowPart::Turn(turn))?;
    Term::loop_of(alloc, body, 1, None, row)
}

/// A walk from the start of a net to the goal.
fn walk(alloc: Global, net: u32, to: Goal, block: Block) -> Result<Term, NoMemory> {
    Term::walk_of(alloc, net, Spot::Start, to, block)
}

/// Whether nothing weighs one more than twice as much each time that it becomes a loop of itself with a begun turn of itself, as far as
/// the greatest weight.
fn doubles(alloc: Global) -> Result<bool, NoMemory> {
    let mut term = Term::nil(alloc)?;
    let mut weight: u64 = 1;
    for _ in 0..64 {
        let turn = term.copy(alloc)?;
        term = begun_loop(alloc, term, turn)?;
        weight = weight.saturating_mul(2).saturating_add(1);
        if term.weight() != weight {
            return Ok(false);
        }
    }
    Ok(weight == u64::MAX)
}

#[test]
fn weight_saturates(rt: HostRuntime) -> Result<(), Fail> {
    assert!(rt; doubles(rt.alloc())?);
    Ok(())
}

/// Whether the term is a walk of net 2 from the start to node 7, which has a block of instance 3.
fn is_walk(term: &Term) -> bool {
    match term.look() {
        Look::Walk {
            net,
            from,
            to,
            block,
        } => net == 2 && from == Spot::Start && to == Goal::Node(7) && block.has_instance(3),
        _ => false,
    }
}

/// Whether a walk shows its parts, and weighs 1.
fn walk_is_shown(alloc: Global) -> Result<bool, NoMemory> {
    let term = walk(alloc, 2, Goal::Node(7), block(alloc, 3, 9)?)?;
    Ok(term.weight() == 1 && is_walk(&term))
}

#[test]
fn walk_and_its_parts(rt: HostRuntime) -> Result<(), Fail> {
    assert!(rt; walk_is_shown(rt.alloc())?);
    Ok(())
}

/// A loop of an event, whose gap a block of that instance shuts.
fn shut(alloc: Global, at: u32) -> Result<Term, Fail>
    requires { at < 1024 }
{
    Ok(loop_shut(alloc, term_of(alloc, "1:a")?, at)?)
}

/// Whether two loops that blocks of these instances shut are the same, and neither comes before the other.
fn are_alike(alloc: Global, first: u32, second: u32) -> Result<bool, Fail>
    requires first { first < 1024 }
    requires second { second < 1024 }
{
    let first = shut(alloc, first)?;
    let second = shut(alloc, second)?;
    Ok(first.same(&second) && !(first < second) && !(second < first))
}

/// Whether the terms differ, and one of them comes before the other.
fn are_apart(first: &Term, second: &Term) -> bool {
    !first.same(second) && (first < second) != (second < first)
}

/// Whether two loops are apart that blocks of different instances shut.
fn blocks_are_apart(alloc: Global) -> Result<bool, Fail> {
    Ok(are_apart(&shut(alloc, 3)?, &shut(alloc, 64)?))
}

/// Whether two rows of the same events are apart.
fn rows_are_apart(alloc: Global) -> Result<bool, Fail> {
    let first = term_of(alloc, "1:a 2:c seq")?;
    let second = term_of(alloc, "2:c 1:a seq")?;
    Ok(are_apart(&first, &second))
}

#[test]
fn blocks_and_rows_count_in_equality_and_order(rt: HostRuntime) -> Result<(), Fail> {
    assert!(rt; are_alike(rt.alloc(), 3, 3)?);
    assert!(rt; blocks_are_apart(rt.alloc())?);
    assert!(rt; rows_are_apart(rt.alloc())?);
    Ok(())
}

/// Terms in their order, one behind each sign: those without events have the code 0; then come those of event 1 alone, then those of
/// events 1 and 2. A walk and a loop, which words don't make, stand at the empty places.
const RISING: &str = "nil| |1:a| |1:a 2:c seq|1:a 2:c par|1:a 2:c alt|1:a 2:b seq 1<2";

/// The term of that index: by its words, or the walk or the loop.
fn rising_term(alloc: Global, index: usize, words: &str) -> Result<Term, Fail> {
    match index {
        1 => Ok(walk(alloc, 0, Goal::Any, Block::empty(alloc))?),
        3 => shut(alloc, 0),
        _ => term_of(alloc, words),
    }
}

/// Terms in their order.
fn rising(alloc: Global) -> Result<TermList, Fail> {
    let mut terms = TermList::new(alloc);
    for (index, words) in RISING.split('|').enumerate() {
        terms.push(rising_term(alloc, index, words)?)?;
    }
    Ok(terms)
}

/// Whether the term of that index comes before those of the greater ones, and is none of the others.
fn is_placed(terms: &TermList, index: usize, term: &Term) -> bool {
    for (place, other) in terms.as_slice().iter().enumerate() {
        if (term < other) != (index < place) || term.same(other) != (index == place) {
            return false;
        }
    }
    true
}

/// Whether there are eight terms, each before those behind it.
fn are_rising(terms: &TermList) -> bool {
    for (index, term) in terms.as_slice().iter().enumerate() {
        if !is_placed(terms, index, term) {
            return false;
        }
    }
    terms.len() == 8
}

#[test]
fn terms_are_ordered_by_codes_then_as_the_table_of_weights(rt: HostRuntime) -> Result<(), Fail> {
    let terms = rising(rt.alloc())?;
    assert!(rt; are_rising(&terms));
    Ok(())
}

/// Whether a block of that instance and event misses the message of events 4 and 5.
fn misses(alloc: Global, at: u32, number: u32) -> Result<bool, Fail>
    requires { at < 1024 }
{
    Ok(term_of(alloc, "4:a 5:b seq 4<5")?.misses(&block(alloc, at, number)?))
}

/// Whether the empty block misses a walk.
fn misses_walk(alloc: Global) -> Result<bool, NoMemory> {
    let walk = walk(alloc, 0, Goal::Any, Block::empty(alloc))?;
    Ok(walk.misses(&Block::empty(alloc)))
}

/// Whether a block of instance 0 misses a loop of messages.
fn misses_loop(alloc: Global) -> Result<bool, Fail> {
    let messages = loop_shut(alloc, term_of(alloc, "4:a 5:b seq 4<5")?, 9)?;
    Ok(messages.misses(&block(alloc, 0, 9)?))
}

#[test]
fn block_misses_a_message(rt: HostRuntime) -> Result<(), Fail> {
    let alloc = rt.alloc();
    assert!(rt; misses(alloc, 2, 3)? && misses(alloc, 64, 6)?);
    assert!(rt; !misses(alloc, 1, 3)? && !misses(alloc, 2, 5)?);
    assert!(rt; !misses_walk(alloc)? && !misses_loop(alloc)?);
    Ok(())
}
