//! Rows: what terms weigh, and what is left of them after one event and another; which are the same; and their codes.
use crate::steps::weighs;
use crate::words::term_of;
use std::alloc::Global;
use std::test::Fail;

/// The words of a term, labels of events, and the weights of the term and of all that is left of it after each event. Behind them what
/// the row shows.
const WEIGHTS: &str = "
1:a 2:b seq 1<2 | a b | 5 1 1 | a message leaves its input alone
1:a 2:b seq 1<2 | b | 5 0 | an input waits for its output
nil 2:b seq 1<2 | | 1 | the pair of a message whose output has happened is dead
1:a 2:c 3:e par par 2<3 | | 6 | a coregion of three actions
2:c 3:e par 2<3 | | 5 | the same behind the first
1:a 3:e par 2<3 | | 3 | the same behind the second, whose pair is dead
3:d 4:e seq 3<4 5:f 6:g seq 5<6 alt | | 11 | one of two messages
1:a 2:b 3:d 4:e seq 3<4 5:f 6:g seq 5<6 alt seq seq 1<2 | | 16 | a request and one of two answers
1:a 2:a 3:c par par 2<3 | a c a | 6 8 1 1 | the first a may have been either, with 5 and 3 left; after c it was the second
1:a 2:b seq 1<2 2-2 | a a b b | 7 8 3 1 1 | both outputs of a loop may come before the first input
1:a 2:b seq 1<2 2-2 | a a a | 7 8 3 0 | and then no third
1:a 2:b seq 1<2 1- 3:c seq | c | 9 0 | an action can't pass a turn that is owed
1:a 2:b seq 1<2 1- 3:c seq | a c b | 9 10 1 1 | it passes an input, and then no further turn begins
1:a 2:c seq 3:a 4:e seq alt | a c | 7 2 1 | an event that both operands begin with takes neither from the choice
1:a 2:c seq 3:a 4:e seq alt | a e | 7 2 1 | so the other can follow too
1:a 2:b 3:d 4:e seq 3<4 5:f 6:g seq 5<6 alt seq seq 1<2 1- | a b d e a b f g | 18 31 29 19 18 31 29 19 18 | what a turn leaves is the loop as it began, whichever the answer was
";

/// Terms that are the same, on either side of a sign.
const SAME: &str = "
nil 2:b seq 1<2 = 2:b
nil nil seq = nil
1:a 1:a alt = 1:a
2:c 1:a alt 2:c alt = 2:c 1:a alt
";

/// Terms and their codes. By the definition event 1 adds 2^33 + 121339668 to a code, and event 2 adds 2^34 + 57966030.
const CODES: &str = "
nil = 0
1:a = 8711274260
1:a 2:c seq = 25949109474
2:c 1:a seq = 25949109474
";

/// Whether a row of weights holds.
fn has_weights(alloc: Global, row: &str) -> Result<bool, Fail> {
    let mut parts = row.split('|');
    let (Some(words), Some(labels), Some(weights)) = (parts.next(), parts.next(), parts.next())
    else {
        return Ok(row.is_empty());
    };
    let term = term_of(alloc, words)?;
    weighs(alloc, term, labels, weights)
}

/// Whether the terms of a row are the same.
fn is_same(alloc: Global, row: &str) -> Result<bool, Fail> {
    let Some((first, second)) = row.split_once('=') else {
        return Ok(row.is_empty());
    };
    let first = term_of(alloc, first)?;
    let second = term_of(alloc, second)?;
    Ok(first.same(&second))
}

/// Whether the term of a row has the code.
fn has_code(alloc: Global, row: &str) -> Result<bool, Fail> {
    let Some((words, code)) = row.split_once('=') else {
        return Ok(row.is_empty());
    };
    let term = term_of(alloc, words)?;
    Ok(code.trim().parse::<u64>().ok() == Some(term.facts().code))
}

#[test]
fn weights(rt: HostRuntime) -> Result<(), Fail> {
    for row in WEIGHTS.lines() {
        assert!(rt; has_weights(rt.alloc(), row)?, "{row}");
    }
    Ok(())
}

#[test]
fn same_terms(rt: HostRuntime) -> Result<(), Fail> {
    for row in SAME.lines() {
        assert!(rt; is_same(rt.alloc(), row)?, "{row}");
    }
    Ok(())
}

#[test]
fn codes(rt: HostRuntime) -> Result<(), Fail> {
    for row in CODES.lines() {
        assert!(rt; has_code(rt.alloc(), row)?, "{row}");
    }
    Ok(())
}
