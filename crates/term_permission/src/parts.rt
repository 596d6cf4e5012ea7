//! The parts of loops and walks as structs, which `permission` and term_step hand on.

use bit_sets::Block;
use chart_term::{PartList, Term};
use hmsc_graph::{Goal, Spot};

/// The parts of a loop.
#[derive(Clone, Copy)]
pub struct LoopParts<'a> {
    /// Its operand.
    pub body: &'a Term,
    /// How many turns have to come yet.
    pub lower: u64,
    /// How many turns may come yet, if there is an end to them.
    pub upper: Option<u64>,
    /// The gaps where turns may begin, and the turns that have begun.
    pub row: &'a PartList,
}

/// What a loop's parts are permitted by.
#[derive(Clone, Copy)]
pub struct LoopBlock<'a> {
    /// The block, for the turns that have begun.
    pub whole: &'a Block,
    /// Those of its instances that the operand has, for the gaps.
    pub narrow: &'a Block,
}

/// The parts of a walk.
#[derive(Clone, Copy)]
pub struct WalkParts<'a> {
    /// The number of its net.
    pub net: u32,
    /// Where it begins.
    pub from: Spot,
    /// Where it leads.
    pub to: Goal,
    /// The instances at which nothing may happen on the way.
    pub own: &'a Block,
}
