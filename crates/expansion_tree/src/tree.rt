//! The tree of an expansion: its events, with numbers of their own, and the forms that hold them.

use hmsc_graph::Shape;
use msc_base::PairList;

/// An event of an expansion.
#[derive(Clone, Copy, Debug, PartialEq, Eq)]
pub struct ExpandedEvent {
    /// Its number, which no other event of the expansion has.
    pub number: u32,
    /// The number of the instance at which it happens.
    pub at: u32,
    /// That of its second instance, where it has one: a creation has the created one.
    pub also: Option<u32>,
    /// The number of its label.
    pub label: u32,
}

/// What a chart, or a part of it, expands to: its references are replaced by what the charts come to that they name.
#[derive(Drop)]
pub enum Expansion {
    /// An event.
    Event(ExpandedEvent),
    /// These in weak sequence: of two events that share an instance the earlier part's comes first.
    InRow(Vec<Expansion>),
    /// These side by side.
    Aside(Vec<Expansion>),
    /// One of these.
    OneOf(Vec<Expansion>),
    /// This in place of what stands behind it in its row, or what stands behind it.
    Exception(Box<Expansion>),
    /// This, at least as often as the first bound says, and at most as often as the second, where there is one. The number is that by
    /// which the whole loop counts as one event.
    Turns(u32, u64, Option<u64>, Box<Expansion>),
    /// This, where the first event of each pair, by its number, comes before the second.
    Tied(Box<Expansion>, PairList),
    /// A walk to an end of the graph of this shape, whose nodes come to these, one for each line. The number is that by which the whole
    /// walk counts as one event; the events of its nodes have others.
    Walk(u32, Shape, Vec<Expansion>),
}
