//! What an event does, with its text and address: for events of charts (`events`) and of logs (`log_event`).

ghost use Rattle.std.specs.Prelude.{◌≡◌, IfOk};
ghost use Rattle.msc_tree.specs.declared.event.Target.TheVariants.{Nobody};
ghost use Rattle.token_grammar.specs.Answers.{Gives};
ghost use Rattle.token_grammar.specs.PartReaders.{message_view};
ghost use Rattle.msc_events.specs.Events.{address_of, event_of, plain};
ghost use Rattle.msc_events.specs.EventReaders.{output_at, input_at, action_at, timing_at, creation_at, timers_at, act_at};

use crate::address::{address, orders};
use crate::event_parts::{Address, Orders, Origin};
use msc_base::{Kind, NoMemory, Place, Text};
use msc_tokens::Token;
use msc_tree::{BoxedOrder, GeneralOrder, Parameters, RawEvent, Target, TreePlace};
use std::alloc::Global;
use token_grammar::{
    MessageParts, ReadFault, either_word, item, message, name, name_of, starts_with,
    starts_with_either, word,
};

/// The event of these parts, without its label.
fn made_event(
    alloc: Global,
    place: Place,
    message: MessageParts,
    address: Address,
) -> Result<RawEvent, NoMemory>
    ensures { IfOk result (λ event. event ≡ event_of place (message_view message) address) }
{
    let order = GeneralOrder {
        event_name: None,
        earlier_than: address.orders.earlier_than,
        later_than: address.orders.later_than,
    };
    Ok(RawEvent {
        kind: address.kind,
        place: TreePlace::of(place)?,
        text: message.text,
        parameters: Parameters::of(alloc, message.parameters)?,
        pairing: message.pairing,
        target: address.target,
        order: BoxedOrder::of(alloc, order)?,
    })
}

/// A text alone.
fn plain_parts(text: Text) -> MessageParts
    ensures { message_view result ≡ plain text }
{
    MessageParts {
        text,
        pairing: None,
        parameters: None,
    }
}

/// A message is sent (Z.120, clause 4.3).
fn output(
    alloc: Global,
    setting: Origin,
    tokens: &[Token],
) -> Result<(RawEvent, &[Token]), ReadFault>
    ensures { Gives (λ x. (x.0, x.1.now)) result (output_at setting tokens.now) }
{
    let (out, rest) = word(tokens, "out")?;
    let (message, rest) = message(alloc, rest)?;
    let (_to, rest) = word(rest, "to")?;
    let (address, rest) = address(alloc, setting, rest, "lost", Kind::Output, Kind::OutputLost)?;
    let event = made_event(alloc, out.place, message, address)?;
    Ok((event, rest))
}

/// A message is received (Z.120, clause 4.3).
fn input(
    alloc: Global,
    setting: Origin,
    tokens: &[Token],
) -> Result<(RawEvent, &[Token]), ReadFault>
    ensures { Gives (λ x. (x.0, x.1.now)) result (input_at setting tokens.now) }
{
    let (word_in, rest) = word(tokens, "in")?;
    let (message, rest) = message(alloc, rest)?;
    let (_from, rest) = word(rest, "from")?;
    let (address, rest) = address(alloc, setting, rest, "found", Kind::Input, Kind::InputFound)?;
    let event = made_event(alloc, word_in.place, message, address)?;
    Ok((event, rest))
}

/// A local action (Z.120, clause 4.9).
fn action(
    alloc: Global,
    setting: Origin,
    tokens: &[Token],
) -> Result<(RawEvent, &[Token]), ReadFault>
    ensures { Gives (λ x. (x.0, x.1.now)) result (action_at setting tokens.now) }
{
    let (action, rest) = word(tokens, "action")?;
    let (text, rest) = item(alloc, rest)?;
    let (orders, rest) = orders(alloc, setting, rest)?;
    let address = Address {
        kind: Kind::Action,
        target: Target::Nobody,
        orders,
    };
    let event = made_event(alloc, action.place, plain_parts(text), address)?;
    Ok((event, rest))
}

/// A timer and the orders of its event (Z.120, clause 4.8).
fn timing(
    alloc: Global,
    setting: Origin,
    tokens: &[Token],
) -> Result<(MessageParts, Orders, &[Token]), ReadFault>
    ensures { Gives (λ x. ((message_view x.0, x.1), x.2.now)) result (timing_at setting tokens.now) }
{
    let (timer, rest) = message(alloc, tokens)?;
    let (orders, rest) = orders(alloc, setting, rest)?;
    Ok((timer, orders, rest))
}

/// A timer's event.
fn timed(
    alloc: Global,
    place: Place,
    kind: Kind,
    timer: MessageParts,
    orders: Orders,
) -> Result<RawEvent, NoMemory>
    ensures { IfOk result (λ event. event ≡ event_of place (message_view timer) (address_of kind Nobody orders)) }
{
    let address = Address {
        kind,
        target: Target::Nobody,
        orders,
    };
    made_event(alloc, place, timer, address)
}

/// An instance is created (Z.120, clause 4.10): the text and the other end are the child.
fn creation(
    alloc: Global,
    setting: Origin,
    tokens: &[Token],
) -> Result<(RawEvent, &[Token]), ReadFault>
    ensures { Gives (λ x. (x.0, x.1.now)) result (creation_at setting tokens.now) }
{
    let (create, rest) = word(tokens, "create")?;
    let (child, rest) = name(rest)?;
    let (orders, rest) = orders(alloc, setting, rest)?;
    let text = child.bytes.copy(alloc)?;
    let address = Address {
        kind: Kind::Create,
        target: Target::Instance(name_of(alloc, child)?),
        orders,
    };
    let event = made_event(alloc, create.place, plain_parts(text), address)?;
    Ok((event, rest))
}

/// A timer's event, or a creation.
fn timers(
    alloc: Global,
    setting: Origin,
    tokens: &[Token],
) -> Result<(RawEvent, &[Token]), ReadFault>
    ensures { Gives (λ x. (x.0, x.1.now)) result (timers_at setting tokens.now) }
{
    if starts_with_either(tokens, "starttimer", "set") {
        let (start, rest) = either_word(tokens, "starttimer", "set")?;
        let (timer, orders, rest) = timing(alloc, setting, rest)?;
        let event = timed(alloc, start.place, Kind::TimerStart, timer, orders)?;
        return Ok((event, rest));
    }
    if starts_with_either(tokens, "stoptimer", "reset") {
        let (stop, rest) = either_word(tokens, "stoptimer", "reset")?;
        let (timer, orders, rest) = timing(alloc, setting, rest)?;
        let event = timed(alloc, stop.place, Kind::TimerStop, timer, orders)?;
        return Ok((event, rest));
    }
    if starts_with(tokens, "timeout") {
        let (timeout, rest) = word(tokens, "timeout")?;
        let (timer, orders, rest) = timing(alloc, setting, rest)?;
        let event = timed(alloc, timeout.place, Kind::Timeout, timer, orders)?;
        return Ok((event, rest));
    }
    creation(alloc, setting, tokens)
}

/// What an event does, with its orders and its end.
pub fn act(
    alloc: Global,
    setting: Origin,
    tokens: &[Token],
) -> Result<(RawEvent, &[Token]), ReadFault>
    ensures { Gives (λ x. (x.0, x.1.now)) result (act_at setting tokens.now) }
{
    if starts_with(tokens, "out") {
        return output(alloc, setting, tokens);
    }
    if starts_with(tokens, "in") {
        return input(alloc, setting, tokens);
    }
    if starts_with(tokens, "action") {
        return action(alloc, setting, tokens);
    }
    timers(alloc, setting, tokens)
}
