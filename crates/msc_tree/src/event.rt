//! Single events as they are written in a chart, with gates and orders, and which way a message goes.

ghost use Rattle.std.specs.Prelude.{◌≡◌};
ghost use Rattle.msc_tree.specs.Directions.{far_name, is_direction, to_instance, way_by};

use crate::{BoxedName, BoxedOrder, Parameters, TreePlace};
use msc_base::{Items, Kind, Name, Text};

/// The other end of an event, as it is written.
#[derive(Drop)]
pub enum Target {
    /// The event names no other end.
    Nobody,
    /// The environment, where one is named through this gate.
    Env(Option<BoxedName>),
    /// The instance of this name.
    Instance(Name),
    /// The reference or inline expression of the first name, through the gate of the second.
    Gate(BoxedName, BoxedName),
}

/// An event of a chart, as it is written (Z.120, clauses 4.3 to 4.10).
#[derive(Drop)]
pub struct RawEvent {
    /// What it does.
    pub kind: Kind,
    /// Where it stands, behind its name.
    pub place: TreePlace,
    /// The name of the message or timer, the action, or the name of the child.
    pub text: Text,
    /// The list in parentheses behind the message or timer, item by item, where there is one.
    pub parameters: Parameters,
    /// The name that serves the pairing alone, where there is one.
    pub pairing: Option<Name>,
    /// The other end.
    pub target: Target,
    /// The name by which general orderings know it, and the events that it is ordered with.
    pub order: BoxedOrder,
}

/// A document has an event for nearly each of its lines: what few of them have stands in boxes.
const _: () = prove!(size_of::<RawEvent>() == 184);

/// A list of events.
pub type RawEventList = Items<RawEvent>;

/// Which way a message goes at the instance of its event.
#[derive(Clone, Copy, Debug, PartialEq, Eq)]
pub enum Direction {
    /// It is put out.
    Out,
    /// It is taken in.
    In,
}

impl Direction {
    /// Whether it is the other's direction. It takes no memory.
    pub fn is(self, other: Direction) -> bool
        ensures { result ≡ is_direction self other }
    {
        matches!(
            (self, other),
            (Direction::Out, Direction::Out) | (Direction::In, Direction::In)
        )
    }
}

/// The direction, where the other end is an instance.
fn to_instance(direction: Direction, target: &Target) -> Option<Direction>
    ensures { result ≡ to_instance direction target.now }
{
    match target {
        Target::Instance(_) => Some(direction),
        Target::Nobody | Target::Env(_) | Target::Gate(_, _) => None,
    }
}

/// The direction of an output to an instance and of an input from one, and none for other events.
pub fn way_of(event: &RawEvent) -> Option<Direction>
    ensures { result ≡ way_by event.now.kind event.now.target }
{
    match event.kind {
        Kind::Output => to_instance(Direction::Out, &event.target),
        Kind::Input => to_instance(Direction::In, &event.target),
        Kind::OutputLost
        | Kind::InputFound
        | Kind::Action
        | Kind::TimerStart
        | Kind::TimerStop
        | Kind::Timeout
        | Kind::Create => None,
    }
}

/// The name of the far end, and no bytes where that is no instance.
pub fn far_bytes(target: &Target) -> &[u8]
    ensures { result.now ≡ far_name target.now }
{
    match target {
        Target::Instance(name) => name.bytes(),
        Target::Nobody => &[],
        Target::Env(_) => &[],
        Target::Gate(_, _) => &[],
    }
}
