//! Whether an event is a chart's or a log's, and the parts that `address` hands to `act`.

use msc_base::{Kind, Names};
use msc_tree::Target;

/// Where an event is written.
#[derive(Clone, Copy, Debug, PartialEq, Eq)]
pub enum Origin {
    /// In a chart, where it may have orders and gates.
    Chart,
    /// On a line of a log, where it has neither.
    Log,
}

/// The events that an event comes before, and those that it comes after (Z.120, clause 4.6).
#[derive(Drop)]
pub struct Orders {
    /// The events that it comes before.
    pub earlier_than: Names,
    /// The events that it comes after.
    pub later_than: Names,
}

/// What an event does to which other end, and its orders.
#[derive(Drop)]
pub struct Address {
    /// What it does.
    pub kind: Kind,
    /// The other end.
    pub target: Target,
    /// Its orders.
    pub orders: Orders,
}
