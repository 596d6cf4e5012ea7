//! Tags of gates, and which numbers of events still show them.

use msc_base::Name;

/// A tag of an event at a gate.
#[derive(Clone, Copy)]
pub enum GateTag<'a> {
    /// A gate of the level in which the event stands.
    Via(&'a Name),
    /// Of a reference or an inline expression of that level, by its name, a gate.
    On(&'a Name, &'a Name),
}

/// The number of an event, and a tag that it shows.
#[derive(Clone, Copy)]
pub struct ShownGate<'a> {
    /// The number.
    pub number: u32,
    /// The tag.
    pub tag: GateTag<'a>,
}
