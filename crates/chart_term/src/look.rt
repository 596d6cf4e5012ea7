//! The parts of a term, and of a list of parts, for those who walk down it: term_tables, term_step, and the constructors here.

use crate::{PartList, RowPart, Term};
use bit_sets::Block;
use hmsc_graph::{Goal, Spot};
use tie_list::TieList;

/// The parts of a term.
#[derive(Drop)]
pub enum Look<'a> {
    /// The empty process.
    Nil,
    /// An event.
    Event {
        /// Its number in the chart.
        number: u32,
        /// The instance at which it happens, or the smaller of its two.
        at: u32,
        /// Its second instance.
        also: Option<u32>,
        /// The number of its label.
        label: u32,
    },
    /// Turns in weak sequence.
    Seq(&'a PartList),
    /// Turns side by side.
    Par(&'a PartList),
    /// One of these turns (delayed choice).
    Choice(&'a PartList),
    /// A term below a tie of these pairs: the first of a pair comes before the second.
    Tied(&'a Term, &'a TieList),
    /// A loop.
    Loop {
        /// The loop's operand.
        body: &'a Term,
        /// How many turns have to come yet.
        lower: u64,
        /// How many turns may come yet, if there is an end to them.
        upper: Option<u64>,
        /// The gaps where turns may begin, and the turns that have begun.
        row: &'a PartList,
    },
    /// A walk through a net.
    Walk {
        /// The net's number.
        net: u32,
        /// Where the walk begins.
        from: Spot,
        /// Where it goes.
        to: Goal,
        /// The instances at which nothing may happen on the way.
        block: &'a Block,
    },
}

/// What a look at a list of parts shows.
#[derive(Drop)]
pub enum PartLook<'a> {
    /// Parts that lie side by side in memory.
    Leaf(&'a [RowPart]),
    /// Both halves, neither of which is empty.
    Fork(&'a PartList, &'a PartList),
}
