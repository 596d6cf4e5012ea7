//! Orders of items, pairs, and the first of two faults.
ghost use Rattle.std.specs.Prelude.{◌<◌};

use column_order::{Edge, Sorted, pair_up, sort_edges, weave, weave_entries};
use msc_base::{NoMemory, Place};
use msc_rules::{Broken, Numbered, earlier_fault};
use std::alloc::Global;
use std::test::Fail;

/// A rule of that number.
#[derive(Clone, Copy, Debug, PartialEq, Eq)]
struct Probe {
    number: u32,
}

impl Numbered for Probe {
    ghost number_of = { λ p. p.number };

    fn number(&self) -> u32 {
        self.number
    }
}

/// The fault of a rule of that number at that byte of the first line.
fn fault(number: u32, byte: u32) -> Option<Broken<Probe>> {
    let place = Place {
        byte: byte as u64,
        line: 1,
        column: 1,
    };
    Some(Broken {
        rule: Probe { number },
        place,
    })
}

/// The number of the rule that is first broken.
fn first_number(a: Option<Broken<Probe>>, b: Option<Broken<Probe>>) -> u32 {
    match earlier_fault(a, b) {
        None => 0,
        Some(first) => first.rule.number,
    }
}

/// Four items under two edges.
#[tactic(auto, using(crate::proofs::TestFacts::two_inside))]
fn sorted(alloc: Global, a: Edge, b: Edge) -> Result<Sorted, NoMemory>
    requires a { (a.from < 4) × (a.to < 4) }
    requires b { (b.from < 4) × (b.to < 4) }
{
    sort_edges(alloc, 4, [a, b].as_slice())
}

/// Four items, of which two entries put some into columns.
#[tactic(auto, using(crate::proofs::TestFacts::two_inside))]
fn woven(alloc: Global, a: Edge, b: Edge) -> Result<Sorted, NoMemory>
    requires a { (a.from < 4) × (a.to < 4) }
    requires b { (b.from < 4) × (b.to < 4) }
{
    weave_entries(alloc, 4, 4, [a, b].as_slice())
}

/// The pairs of two outputs with two inputs, in three classes.
#[tactic(auto, using(crate::proofs::TestFacts::two_below))]
fn paired(
    alloc: Global,
    out_classes: [u32; 2],
    in_classes: [u32; 2],
) -> Result<Vec<Edge>, NoMemory> {
    let [a, b] = out_classes;
    let [c, d] = in_classes;
    let outs = [
        Edge {
            from: a % 3,
            to: 10,
        },
        Edge {
            from: b % 3,
            to: 11,
        },
    ];
    let ins = [
        Edge {
            from: c % 3,
            to: 20,
        },
        Edge {
            from: d % 3,
            to: 21,
        },
    ];
    pair_up(alloc, 3, outs.as_slice(), ins.as_slice())
}

/// An earlier place decides, and at one place the lower number.
#[test]
fn the_first_fault(rt: HostRuntime) {
    assert_eq!(rt; first_number(fault(13, 40), fault(14, 20)), 14);
    assert_eq!(rt; first_number(fault(14, 20), fault(13, 20)), 13);
}

/// The order of the items, or of none where they are stuck.
fn order_of(alloc: Global, sorted: &Sorted) -> Result<Vec<u32>, NoMemory> {
    let mut items = Vec::new(alloc);
    if let Sorted::Whole(order) = sorted {
        items.extend_from_slice(order)?;
    }
    Ok(items)
}

/// An item stands as early as its predecessors let it, in a column the earlier entry comes first, and an item without a column is
/// due at once.
#[test]
fn orders_of_items(rt: HostRuntime) -> Result<(), Fail> {
    let alloc = rt.alloc();
    let due = sorted(alloc, Edge { from: 2, to: 1 }, Edge { from: 0, to: 3 })?;
    assert_eq!(rt; order_of(alloc, &due)?.as_slice(), [0, 2, 1, 3].as_slice());
    let column = woven(alloc, Edge { from: 3, to: 2 }, Edge { from: 3, to: 1 })?;
    assert_eq!(rt;
        order_of(alloc, &column)?.as_slice(),
        [0, 2, 1, 3].as_slice()
    );
    let columns: Vec<Vec<u32>> = Vec::new(alloc);
    let free = weave(alloc, 3, columns.as_slice())?;
    assert_eq!(rt; order_of(alloc, &free)?.as_slice(), [0, 1, 2].as_slice());
    Ok(())
}

/// A cycle leaves its earliest item.
#[test]
fn a_cycle_is_stuck(rt: HostRuntime) -> Result<(), Fail> {
    match sorted(rt.alloc(), Edge { from: 2, to: 1 }, Edge { from: 1, to: 2 })? {
        Sorted::Stuck(item) => assert_eq!(rt; item, 1),
        Sorted::Whole(_) => assert!(rt; false, "whole"),
    }
    Ok(())
}

/// The first input of a class goes with its first output.
#[test]
fn ends_of_one_class_are_paired(rt: HostRuntime) -> Result<(), Fail> {
    let pairs = paired(rt.alloc(), [1, 2], [2, 1])?;
    let wanted = [Edge { from: 10, to: 21 }, Edge { from: 11, to: 20 }];
    assert_eq!(rt; pairs.as_slice(), wanted.as_slice());
    Ok(())
}
