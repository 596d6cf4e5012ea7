//! The instances and the woven list of a chart, and what is refused.

use crate::woven::all_give;
use std::test::Fail;

/// An address is an instance of the chart. Behind colons and in one column a name stands once in a level, nothing joins a part of a
/// column with one behind a colon, and an operand is a level of its own.
#[test]
fn names_of_a_chart(rt: HostRuntime) -> Result<(), Fail> {
    let rows = [
        (
            "msc A; instance j; endinstance; i: out a to k; endmsc;",
            "undeclared 1:36",
        ),
        (
            "msc A; i: opt begin X; opt end; j: opt begin X; opt end; endmsc;",
            "twice 1:36",
        ),
        (
            "msc A; instance i; opt begin X; opt end; endinstance; instance j; opt begin X; opt end; endinstance; endmsc;",
            "{ | } ",
        ),
        (
            "msc A; instance i; opt begin X; opt end; endinstance; instance i; opt begin X; opt end; endinstance; endmsc;",
            "twice 1:67",
        ),
        (
            "msc A; instance i; opt begin X; opt end; endinstance; j: opt begin X; opt end; endmsc;",
            "twice 1:58",
        ),
        (
            "msc A; instance i; opt begin X; opt begin X; opt end; opt end; endinstance; instance j; endinstance; endmsc;",
            "{ { | } | } ",
        ),
    ];
    assert_eq!(rt; all_give(rt.alloc(), &rows)?, "");
    Ok(())
}

/// The items stand in the order of the text; messages of one text are paired in order, and told apart by pairing names. A lost
/// message is not received, nor one that an inline expression stands in place of.
#[test]
fn items_and_pairs(rt: HostRuntime) -> Result<(), Fail> {
    let rows = [
        (
            "msc A; instance j; endinstance; i: out a to j; j: in a from i; endmsc;",
            "i0 j1 0>1 ",
        ),
        (
            "msc A; instance i; out a to j; out a to j; endinstance; instance j; in a from i; in a from i; endinstance; endmsc;",
            "i0 i1 j2 j3 0>2 1>3 ",
        ),
        (
            "msc A; instance i; out a,x to j; out a,y to j; endinstance; instance j; in a,y from i; in a,x from i; endinstance; endmsc;",
            "i0 i1 j2 j3 0>3 1>2 ",
        ),
        (
            "msc A; instance j; action a; endinstance; i: action a; i: action a; endmsc;",
            "j0 i1 i2 ",
        ),
        (
            "msc A; instance j; out a to lost i; endinstance; i: in a from j; endmsc;",
            "unmatched 1:53",
        ),
        (
            "msc A; instance j; out a to i; endinstance; i: opt begin X; opt end; endmsc;",
            "unmatched 1:20",
        ),
    ];
    assert_eq!(rt; all_give(rt.alloc(), &rows)?, "");
    Ok(())
}
