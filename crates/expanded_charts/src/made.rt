//! Parts of an expansion as they are made.

use crate::shown::ShownGate;
use expansion_tree::Expansion;
use msc_base::PairList;

/// A part of an expansion.
#[derive(Drop)]
pub struct Made<'a> {
    /// The part.
    pub part: Expansion,
    /// The numbers of its events that a tie above it may still name, each with the number that the event has in its chart.
    pub own: PairList,
    /// The numbers of its events that are at gates, with the gates.
    pub gates: Vec<ShownGate<'a>>,
    /// The number of the next event.
    pub next: u32,
}

/// Parts of an expansion, in the order of the text.
#[derive(Drop)]
pub struct MadeParts<'a> {
    /// The parts.
    pub parts: Vec<Expansion>,
    /// The numbers of their events that a tie above them may still name, each with the number that the event has in its chart.
    pub own: PairList,
    /// The numbers of their events that are at gates, with the gates.
    pub gates: Vec<ShownGate<'a>>,
    /// The number of the next event.
    pub next: u32,
}
