//! What permission leaves of a term, and when a term may end.
ghost use Rattle.std.specs.Prelude.{◌<◌};

use crate::samples::{MESSAGE, ring_tables};
use crate::words::term_of;
use bit_sets::Block;
use chart_term::Term;
use hmsc_graph::Goal;
use std::alloc::Global;
use std::test::Fail;
use term_permission::{fresh_loop, fresh_walk, may_end, permit};
use term_tables::Nets;

/// What permission by a block of that instance leaves of the message: whether it is the message itself.
#[tactic(auto, using(crate::proofs::SampleTerms::over_no_nets))]
fn leaves_it(alloc: Global, at: u32) -> Result<Option<bool>, Fail>
    requires { at < 1024 }
{
    let nets = Nets::new(alloc);
    let term = term_of(alloc, MESSAGE)?;
    let mut block = Block::empty(alloc);
    block.add_instance(at)?;
    match permit(alloc, &nets, &term, &block)? {
        Some(left) => Ok(Some(left.same(&term))),
        None => Ok(None),
    }
}

/// A message whose sender may do nothing has no pattern left; it stays as it is where an instance that isn't its own may do nothing.
#[test]
fn permission_of_a_message(rt: HostRuntime) -> Result<(), Fail> {
    assert!(rt; leaves_it(rt.alloc(), 0)? == None);
    assert!(rt; leaves_it(rt.alloc(), 2)? == Some(true));
    Ok(())
}

/// A loop of messages before its first turn: whether it is empty, and whether it may end.
#[tactic(auto, using(crate::proofs::SampleTerms::over_no_nets))]
fn loop_is(alloc: Global, lower: u64, upper: Option<u64>) -> Result<(bool, bool), Fail> {
    let nets = Nets::new(alloc);
    let term = fresh_loop(alloc, &nets, term_of(alloc, MESSAGE)?, lower, upper)?;
    let ends = may_end(alloc, &nets, &term)?;
    Ok((term.same(&Term::nil(alloc)?), ends))
}

/// A loop is empty where its lower count is above the upper; one that owes no turn may end, and one of messages that owes one may not.
#[test]
fn ends_of_loops(rt: HostRuntime) -> Result<(), Fail> {
    assert!(rt; loop_is(rt.alloc(), 2, Some(1))? == (true, true));
    assert!(rt; loop_is(rt.alloc(), 0, None)? == (false, true));
    assert!(rt; loop_is(rt.alloc(), 1, None)? == (false, false));
    Ok(())
}

/// The walk from the start of the ring, anywhere or to an end: whether it may end, if there is one.
#[tactic(auto, using(crate::proofs::SampleTerms::tables_ready))]
fn walk_ends(alloc: Global, to_end: bool) -> Result<Option<bool>, Fail> {
    let nets = ring_tables(alloc)?;
    let to = if to_end { Goal::End } else { Goal::Any };
    match fresh_walk(alloc, &nets, 0, to)? {
        Some(walk) => Ok(Some(may_end(alloc, &nets, &walk)?)),
        None => Ok(None),
    }
}

/// No walk round a ring leads to an end, and one round a ring of messages may not end.
#[test]
fn ends_of_walks(rt: HostRuntime) -> Result<(), Fail> {
    assert!(rt; walk_ends(rt.alloc(), true)? == None);
    assert!(rt; walk_ends(rt.alloc(), false)? == Some(false));
    Ok(())
}
