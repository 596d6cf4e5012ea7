//! A judge of a log in pieces, by the empty term.
use chart_term::Term;
use event_log::{LogFault, LogForm};
use log_judge::{Judge, JudgeFault};
use msc_base::Verdict;
use std::alloc::Global;
use std::test::Fail;
use term_sets::Residuals;
use term_tables::Nets;

/// A judge by the empty term.
fn empty(alloc: Global) -> Result<Judge<Residuals>, Fail> {
    let nets = Nets::new(alloc);
    let term = Term::nil(alloc)?;
    let judge = Judge::new(alloc, nets, term, LogForm::Lines, 1)?;
    Ok(judge)
}

/// The verdict on a log in two pieces, or the fault of the first call that has one.
fn judged(alloc: Global, first: &[u8], second: &[u8]) -> Result<Result<Verdict, JudgeFault>, Fail> {
    let mut judge = empty(alloc)?;
    if let Err(fault) = judge.feed(first) {
        return Ok(Err(fault));
    }
    if let Err(fault) = judge.feed(second) {
        return Ok(Err(fault));
    }
    Ok(judge.finish())
}

/// A log without events conforms to the empty term; an event that the tables lack fails, in its line, also where it is cut; and a line
/// that is no event is a fault of the log, at its end.
#[test]
fn logs_in_two_pieces(rt: HostRuntime) -> Result<(), Fail> {
    let alloc = rt.alloc();
    let blank = judged(alloc, b"\n", b"/* none */")?;
    assert!(rt; blank == Ok(Verdict::Conforms { events: 0 }));
    let cut = judged(alloc, b"\ni: act", b"ion go;")?;
    assert!(rt; cut == Ok(Verdict::Fails { event: 1, line: 2 }));
    let fault = judged(alloc, b"i: action", b"")?;
    assert!(rt; fault == Err(JudgeFault::Log(LogFault::Syntax(1))));
    Ok(())
}

/// A fault is answered by each later call.
#[test]
fn a_fault_stays(rt: HostRuntime) -> Result<(), Fail> {
    let mut judge = empty(rt.alloc())?;
    let expected = JudgeFault::Log(LogFault::Syntax(1));
    assert!(rt; judge.feed(b"i: action\n") == Err(expected));
    assert!(rt; judge.feed(b"i: action go;\n") == Err(expected));
    assert!(rt; judge.finish() == Err(expected));
    Ok(())
}
