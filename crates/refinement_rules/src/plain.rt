//! The events that a decomposed instance may have: for `local`.

ghost use Rattle.std.specs.Option.{is_none, option_copied};
ghost use Rattle.std.specs.Prelude.{◌≡◌, ◌&&◌, ◌||◌, not};
ghost use Rattle.refinement_rules.specs.PlainEvents.{is_message as message_of, is_nil as nil_of, is_plain as plain_of, is_plain_end as plain_end_of, is_unordered as unordered_of};

use msc_base::{Kind, Name};
use msc_tree::{RawEvent, Target};

/// Whether both hold.
pub(crate) fn both(a: bool, b: bool) -> bool
    ensures { result ≡ (a && b) }
{
    a && b
}

/// Whether one of the two holds.
pub(crate) fn either(a: bool, b: bool) -> bool
    ensures { result ≡ (a || b) }
{
    a || b
}

/// Whether it doesn't hold.
pub(crate) fn negated(a: bool) -> bool
    ensures { result ≡ not a }
{
    !a
}

/// Whether events of the kind are outputs or inputs.
fn is_message(kind: Kind) -> bool
    ensures { result ≡ message_of kind }
{
    match kind {
        Kind::Output => true,
        Kind::Input => true,
        Kind::OutputLost
        | Kind::InputFound
        | Kind::Action
        | Kind::TimerStart
        | Kind::TimerStop
        | Kind::Timeout
        | Kind::Create => false,
    }
}

/// Whether the other end is an instance, or the environment without a gate.
fn is_plain_end(target: &Target) -> bool
    ensures { result ≡ plain_end_of target.now }
{
    match target {
        Target::Nobody => false,
        Target::Env(gate) => match gate {
            Some(_) => false,
            None => true,
        },
        Target::Instance(_) => true,
        Target::Gate(_, _) => false,
    }
}

/// Whether there is none of the names.
fn is_nil(names: &[Name]) -> bool
    ensures { result ≡ nil_of names.now }
{
    match names.split_first() {
        Some(_) => false,
        None => true,
    }
}

/// Whether there is no name.
fn is_nameless(name: Option<&Name>) -> bool
    ensures { result ≡ is_none (option_copied name.entry) }
{
    match name {
        Some(_) => false,
        None => true,
    }
}

/// Whether the event has no name for general orderings, and no order.
fn is_unordered(event: &RawEvent) -> bool
    ensures { result ≡ unordered_of event.now }
{
    both(
        is_nameless(event.order.event_name()),
        both(
            is_nil(event.order.earlier_than()),
            is_nil(event.order.later_than()),
        ),
    )
}

/// Whether the event is an output or input, to or from an instance or the environment, without a name, an order or a gate.
pub(crate) fn is_plain(event: &RawEvent) -> bool
    ensures { result ≡ plain_of event.now }
{
    both(
        is_message(event.kind),
        both(is_plain_end(&event.target), is_unordered(event)),
    )
}
