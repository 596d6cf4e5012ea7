//! Events and joins that call gates of a level, or hand them on.

ghost use Rattle.std.specs.Prelude.{◌≡◌, option_map};
ghost use Rattle.gate_rules.specs.Callers.{caller_view, far_gate, key_view, own_gate_of};
ghost use Rattle.gate_rules.specs.GateRules.{place_of};

use msc_base::Place;
use msc_meaning::{EventNode, ReferenceItem};
use msc_tree::{Join, JoinEnd};

/// A gate of a reference or inline expression, by both names.
#[derive(Clone, Copy, PartialEq, Eq, Hash)]
pub(crate) struct GateKey<'a> {
    pub(crate) name: &'a [u8],
    pub(crate) gate: &'a [u8],
}

/// An event that calls a gate, or a join of a reference.
#[derive(Clone, Copy)]
pub(crate) enum Caller<'a> {
    Event(&'a EventNode, GateKey<'a>),
    Join(&'a ReferenceItem, &'a Join),
}

impl<'a> Caller<'a> {
    /// Where it stands.
    pub(crate) fn place(self) -> Place
        ensures { result ≡ place_of (caller_view self.entry) }
    {
        match self {
            Caller::Event(node, _) => node.event.place.get(),
            Caller::Join(_, join) => join.place,
        }
    }

    /// The gate of its own reference, where that has a name.
    pub(crate) fn own(self) -> Option<GateKey<'a>>
        ensures { option_map key_view result ≡ own_gate_of (caller_view self.entry) }
    {
        match self {
            Caller::Event(_, _) => None,
            Caller::Join(reference, join) => match &reference.name {
                Some(name) => Some(GateKey {
                    name: name.bytes(),
                    gate: join.gate.bytes(),
                }),
                None => None,
            },
        }
    }

    /// The gate of another, which it calls.
    pub(crate) fn far(self) -> Option<GateKey<'a>>
        ensures { option_map key_view result ≡ far_gate (caller_view self.entry) }
    {
        match self {
            Caller::Event(_, key) => Some(key),
            Caller::Join(_, join) => match &join.to {
                JoinEnd::Env(_) => None,
                JoinEnd::Reference(name, gate) => Some(GateKey {
                    name: name.bytes(),
                    gate: gate.bytes(),
                }),
            },
        }
    }
}
