//! The levels of charts as they are woven, and what is refused.

use crate::charts::chart_of;
use crate::woven::{all_give, at};
use chart_text::chart_text;
use level_weaving::first_misplaced;
use msc_instances::chart_names;
use msc_tree::RawChart;
use std::alloc::{AllocError, Global};
use std::test::Fail;

/// The earliest exception that stands where it may not.
fn misplaced(alloc: Global, chart: &RawChart) -> Result<String, AllocError> {
    let Ok(text) = chart_text(alloc, chart) else {
        return Err(AllocError);
    };
    let Ok(named) = chart_names(alloc, chart, text.as_slice()) else {
        return Err(AllocError);
    };
    match first_misplaced(alloc, chart, &named.names, text.as_slice()) {
        Ok(Some(place)) => at(alloc, "exc placed", place),
        Ok(None) => Ok(String::new(alloc)),
        Err(_) => Err(AllocError),
    }
}

/// Whether each text has its exceptions where stands beside it.
fn all_misplace(
    alloc: Global,
    rows: &[(&'static str, &'static str)],
) -> Result<&'static str, Fail> {
    for (text, want) in rows {
        let Some(chart) = chart_of(alloc, text) else {
            return Ok(text);
        };
        if misplaced(alloc, &chart)?.as_str() != *want {
            return Ok(text);
        }
    }
    Ok("")
}

/// The events of a coregion are paired in the order of the text. Names and orders of events are kept, and conditions are no items.
#[test]
fn events_and_coregions(rt: HostRuntime) -> Result<(), Fail> {
    let rows = [
        (
            "msc A; instance i; concurrent; out a to j; out b to j; endconcurrent; endinstance; instance j; in b from i; in a from i; endinstance; endmsc;",
            "( i0 i1 ) j2 j3 0>3 1>2 ",
        ),
        (
            "msc A; instance i; concurrent; out a to j; out a to j; endconcurrent; out a to j; endinstance; instance j; in a from i; concurrent; in a from i; in a from i; endconcurrent; endinstance; endmsc;",
            "( i0 i1 ) i2 j3 ( j4 j5 ) 0>3 1>4 2>5 ",
        ),
        (
            "msc A; instance i; condition c; action x; endinstance; instance j; action y; endinstance; endmsc;",
            "i0 j1 ",
        ),
        (
            "msc A; instance i; concurrent; action x; out a to j; endconcurrent; endinstance; instance j; endinstance; endmsc;",
            "unmatched 1:42",
        ),
        (
            "msc A; instance i; concurrent; action x; endconcurrent; opt begin X; opt end; endinstance; endmsc;",
            "( i0 ) { | } ",
        ),
    ];
    assert_eq!(rt; all_give(rt.alloc(), &rows)?, "");
    Ok(())
}

/// A creation stands first in the column of the child. Parts of one name in several columns are one item, behind what stands before it in
/// each; the pairs stand in the order of their outputs in the text, whatever the order of the items.
#[test]
fn items_of_several_columns(rt: HostRuntime) -> Result<(), Fail> {
    let rows = [
        (
            "msc A; instance j; action x; endinstance; instance i; create j; endinstance; endmsc;",
            "i1 j0 ",
        ),
        (
            "msc A; instance i; action x; reference R: B shared all; endinstance; instance j; action y; reference R: B shared all; endinstance; endmsc;",
            "i0 j1 [ i j ] ",
        ),
        (
            "msc A; instance i; reference R: B shared i, j; out a to k; endinstance; instance j; out b to k; reference R: B shared i, j; endinstance; instance k; in a from i; in b from j; endinstance; endmsc;",
            "j1 [ i j ] i0 k2 k3 0>2 1>3 ",
        ),
        (
            "msc A; instance i; reference R: B shared all; reference S: C shared all; endinstance; instance j; reference S: C shared all; reference R: B shared all; endinstance; endmsc;",
            "crossed 1:20",
        ),
        (
            "msc A; instance i; endinstance; instance j; endinstance; i, j: reference B; j: action x; i: action y; i: reference B; endmsc;",
            "[ i j ] j0 i1 [ i ] ",
        ),
    ];
    assert_eq!(rt; all_give(rt.alloc(), &rows)?, "");
    Ok(())
}

/// Each operand of an inline expression is woven by itself, of those of all its parts, with its own messages; events are numbered in the
/// order of the text.
#[test]
fn inline_expressions(rt: HostRuntime) -> Result<(), Fail> {
    let rows = [
        (
            "msc A; instance i; alt begin X shared all; out a to j; alt; action x; alt end; endinstance; instance j; alt begin X shared all; in a from i; alt; action y; alt end; endinstance; endmsc;",
            "{ i0 j2 0>2 | i1 j3 | } ",
        ),
        (
            "msc A; instance i; opt begin X shared all; reference R: B shared all; reference S: C shared all; opt end; endinstance; instance j; opt begin X shared all; reference S: C shared all; reference R: B shared all; opt end; endinstance; endmsc;",
            "crossed 1:44",
        ),
        (
            "msc A; instance i; opt begin X shared all; out a to j; opt end; endinstance; instance j; in a from i; opt begin X shared all; opt end; endinstance; endmsc;",
            "unmatched 1:44",
        ),
        (
            "msc A; instance i; endinstance; instance j; endinstance; i, j: par begin; i: out a to j; j: in a from i; par; all: opt begin; j: action y; opt end; par end; endmsc;",
            "{ i0 j1 0>1 | { j2 | } | } ",
        ),
    ];
    assert_eq!(rt; all_give(rt.alloc(), &rows)?, "");
    Ok(())
}

/// An exception covers all instances, and stands in no operand.
#[test]
fn places_of_exceptions(rt: HostRuntime) -> Result<(), Fail> {
    let rows = [
        (
            "msc A; instance i; alt begin; exc begin; action x; exc end; alt; action y; alt end; endinstance; endmsc;",
            "exc placed 1:31",
        ),
        (
            "msc A; instance i; exc begin; action x; exc end; endinstance; instance j; endinstance; endmsc;",
            "exc placed 1:20",
        ),
        (
            "msc A; instance i; exc begin X shared all; action x; exc end; endinstance; instance j; exc begin X shared all; exc end; endinstance; endmsc;",
            "",
        ),
    ];
    assert_eq!(rt; all_misplace(rt.alloc(), &rows)?, "");
    Ok(())
}
