//! The other end of an event, and its orders. Gates and orders stand in charts alone; `act` says where it reads.

ghost use Rattle.std.specs.Prelude.{◌≡◌, IfOk};
ghost use Rattle.token_grammar.specs.Answers.{Gives};
ghost use Rattle.msc_events.specs.Events.{address_of, named, no_orders};
ghost use Rattle.msc_events.specs.EventReaders.{names_behind_at, own_orders_at, no_orders_at, orders_at, to_name_at, some_gate_at, via_at, to_env_at, to_lost_at, to_gate_at, lost_or_gate_at, apart_address_at, address_at};

use crate::event_parts::{Address, Orders, Origin};
use msc_base::{Items, Kind, Name, Names};
use msc_tokens::Token;
use msc_tree::{BoxedName, Target};
use std::alloc::Global;
use token_grammar::{
    ReadFault, ending, names, own_name, some_name, starts_with, starts_with_name, word,
};

/// The names behind this word, where it stands.
fn names_behind<'a>(
    alloc: Global,
    tokens: &'a [Token],
    text: &str,
) -> Result<(Names, &'a [Token]), ReadFault>
    ensures { Gives (λ x. (x.0, x.1.now)) result (names_behind_at text.now tokens.now) }
{
    if starts_with(tokens, text) {
        let (_word, rest) = word(tokens, text)?;
        return names(alloc, rest);
    }
    Ok((Items::new(alloc), tokens))
}

/// The orders of an event of a chart, and its end.
fn own_orders(alloc: Global, tokens: &[Token]) -> Result<(Orders, &[Token]), ReadFault>
    ensures { Gives (λ x. (x.0, x.1.now)) result (own_orders_at tokens.now) }
{
    let (earlier_than, rest) = names_behind(alloc, tokens, "before")?;
    let (later_than, rest) = names_behind(alloc, rest, "after")?;
    let rest = ending(rest)?;
    Ok((
        Orders {
            earlier_than,
            later_than,
        },
        rest,
    ))
}

/// The end of an event of a log, which has no orders.
fn no_orders(alloc: Global, tokens: &[Token]) -> Result<(Orders, &[Token]), ReadFault>
    ensures { Gives (λ x. (x.0, x.1.now)) result (no_orders_at tokens.now) }
{
    let rest = ending(tokens)?;
    Ok((
        Orders {
            earlier_than: Items::new(alloc),
            later_than: Items::new(alloc),
        },
        rest,
    ))
}

/// The orders of an event, and its end.
pub fn orders(
    alloc: Global,
    setting: Origin,
    tokens: &[Token],
) -> Result<(Orders, &[Token]), ReadFault>
    ensures { Gives (λ x. (x.0, x.1.now)) result (orders_at setting tokens.now) }
{
    match setting {
        Origin::Chart => own_orders(alloc, tokens),
        Origin::Log => no_orders(alloc, tokens),
    }
}

/// The orders behind an event's other end, and its end.
fn addressed(
    alloc: Global,
    setting: Origin,
    tokens: &[Token],
    kind: Kind,
    target: Target,
) -> Result<(Address, &[Token]), ReadFault>
    ensures orders { Gives (λ x. (x.0.orders, x.1.now)) result (orders_at setting tokens.now) }
    ensures address { IfOk result (λ x. x.0 ≡ address_of kind target x.0.orders) }
{
    let (orders, rest) = orders(alloc, setting, tokens)?;
    Ok((
        Address {
            kind,
            target,
            orders,
        },
        rest,
    ))
}

/// An instance as other end.
fn to_name(
    alloc: Global,
    setting: Origin,
    tokens: &[Token],
    kind: Kind,
) -> Result<(Address, &[Token]), ReadFault>
    ensures { Gives (λ x. (x.0, x.1.now)) result (to_name_at setting kind tokens.now) }
{
    let (name, rest) = own_name(alloc, tokens)?;
    addressed(alloc, setting, rest, kind, Target::Instance(name))
}

/// A gate behind `via`, where it is named.
fn some_gate(alloc: Global, tokens: &[Token]) -> Result<(Option<Name>, &[Token]), ReadFault>
    ensures { Gives (λ x. (x.0, x.1.now)) result (some_gate_at tokens.now) }
{
    if starts_with(tokens, "via") {
        let (_via, rest) = word(tokens, "via")?;
        let (gate, rest) = own_name(alloc, rest)?;
        return Ok((Some(gate), rest));
    }
    Ok((None, tokens))
}

/// A gate behind `via`, where it is named. A log names none.
fn via(
    alloc: Global,
    setting: Origin,
    tokens: &[Token],
) -> Result<(Option<Name>, &[Token]), ReadFault>
    ensures { Gives (λ x. (x.0, x.1.now)) result (via_at setting tokens.now) }
{
    match setting {
        Origin::Chart => some_gate(alloc, tokens),
        Origin::Log => Ok((None, tokens)),
    }
}

/// The environment as other end, through a gate or none (Z.120, clause 4.5).
fn to_env(
    alloc: Global,
    setting: Origin,
    tokens: &[Token],
    kind: Kind,
) -> Result<(Address, &[Token]), ReadFault>
    ensures { Gives (λ x. (x.0, x.1.now)) result (to_env_at setting kind tokens.now) }
{
    let (_env, rest) = word(tokens, "env")?;
    let (gate, rest) = via(alloc, setting, rest)?;
    let target = Target::Env(BoxedName::of_some(alloc, gate)?);
    addressed(alloc, setting, rest, kind, target)
}

/// The other end of a message that is lost or found.
fn target_of(name: Option<Name>) -> Target
    ensures { result ≡ named name }
{
    match name {
        Some(name) => Target::Instance(name),
        None => Target::Nobody,
    }
}

/// No other end, or one that doesn't take part.
fn to_lost<'a>(
    alloc: Global,
    setting: Origin,
    tokens: &'a [Token],
    lost: &str,
    kind: Kind,
) -> Result<(Address, &'a [Token]), ReadFault>
    ensures { Gives (λ x. (x.0, x.1.now)) result (to_lost_at setting lost.now kind tokens.now) }
{
    let (_lost, rest) = word(tokens, lost)?;
    let (name, rest) = some_name(alloc, rest)?;
    addressed(alloc, setting, rest, kind, target_of(name))
}

/// The gate of a reference or inline expression as other end (Z.120, clause 4.5).
fn to_gate(alloc: Global, tokens: &[Token], kind: Kind) -> Result<(Address, &[Token]), ReadFault>
    ensures { Gives (λ x. (x.0, x.1.now)) result (to_gate_at kind tokens.now) }
{
    let (_reference, rest) = word(tokens, "reference")?;
    let (name, rest) = own_name(alloc, rest)?;
    let (_via, rest) = word(rest, "via")?;
    let (gate, rest) = own_name(alloc, rest)?;
    let target = Target::Gate(BoxedName::of(alloc, name)?, BoxedName::of(alloc, gate)?);
    addressed(alloc, Origin::Chart, rest, kind, target)
}

/// No other end, or one that doesn't take part, or a gate.
fn lost_or_gate<'a>(
    alloc: Global,
    tokens: &'a [Token],
    lost: &str,
    kind: Kind,
    lost_kind: Kind,
) -> Result<(Address, &'a [Token]), ReadFault>
    ensures { Gives (λ x. (x.0, x.1.now)) result (lost_or_gate_at lost.now kind lost_kind tokens.now) }
{
    if starts_with(tokens, lost) {
        return to_lost(alloc, Origin::Chart, tokens, lost, lost_kind);
    }
    to_gate(alloc, tokens, kind)
}

/// Another end that is no instance and not the environment. A log has no gates.
fn apart_address<'a>(
    alloc: Global,
    setting: Origin,
    tokens: &'a [Token],
    lost: &str,
    kind: Kind,
    lost_kind: Kind,
) -> Result<(Address, &'a [Token]), ReadFault>
    ensures { Gives (λ x. (x.0, x.1.now)) result (apart_address_at setting lost.now kind lost_kind tokens.now) }
{
    match setting {
        Origin::Chart => lost_or_gate(alloc, tokens, lost, kind, lost_kind),
        Origin::Log => to_lost(alloc, Origin::Log, tokens, lost, lost_kind),
    }
}

/// The other end of a message. The word says that it has none (Z.120, clause 4.3).
pub fn address<'a>(
    alloc: Global,
    setting: Origin,
    tokens: &'a [Token],
    lost: &str,
    kind: Kind,
    lost_kind: Kind,
) -> Result<(Address, &'a [Token]), ReadFault>
    ensures { Gives (λ x. (x.0, x.1.now)) result (address_at setting lost.now kind lost_kind tokens.now) }
{
    if starts_with_name(tokens) {
        return to_name(alloc, setting, tokens, kind);
    }
    if starts_with(tokens, "env") {
        return to_env(alloc, setting, tokens, kind);
    }
    apart_address(alloc, setting, tokens, lost, kind, lost_kind)
}
