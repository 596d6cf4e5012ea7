//! Single events, coregions and stops of a chart: what msc_document puts into columns and operands.

ghost use Rattle.std.specs.Prelude.{◌≡◌, IfOk};
ghost use Rattle.token_grammar.specs.Answers.{Gives};
ghost use Rattle.token_grammar.specs.Languages.{starts};
ghost use Rattle.msc_events.specs.Events.{tagged};
ghost use Rattle.msc_events.specs.EventReaders.{label_at, some_label_at, single_at, single_words, timing_words, singles_at, coregion_end_at, coregion_at, stop_at};

use crate::act::act;
use crate::event_parts::Origin;
use msc_base::{Items, Name, NoMemory, Place};
use msc_tokens::Token;
use msc_tree::{RawEvent, RawEventList};
use std::alloc::Global;
use token_grammar::{ReadFault, ending, own_name, starts_with, starts_with_either, word};

/// The label of an event, by which general orderings know it (Z.120, clause 4.6).
fn label(alloc: Global, tokens: &[Token]) -> Result<(Name, &[Token]), ReadFault>
    ensures { Gives (λ x. (x.0, x.1.now)) result (label_at tokens.now) }
{
    let (_label, rest) = word(tokens, "label")?;
    let (name, rest) = own_name(alloc, rest)?;
    let (_end, rest) = word(rest, ";")?;
    Ok((name, rest))
}

/// The label of an event, where it has one.
fn some_label(alloc: Global, tokens: &[Token]) -> Result<(Option<Name>, &[Token]), ReadFault>
    ensures { Gives (λ x. (x.0, x.1.now)) result (some_label_at tokens.now) }
{
    if starts_with(tokens, "label") {
        let (name, rest) = label(alloc, tokens)?;
        return Ok((Some(name), rest));
    }
    Ok((None, tokens))
}

/// The event with this label.
fn with_label(
    alloc: Global,
    event_name: Option<Name>,
    event: RawEvent,
) -> Result<RawEvent, NoMemory>
    ensures { IfOk result (λ labelled. labelled ≡ tagged event_name event) }
{
    let order = event.order.named(alloc, event_name)?;
    Ok(RawEvent { order, ..event })
}

/// A single event of a chart (Z.120, clauses 4.3 to 4.10).
pub fn single(alloc: Global, tokens: &[Token]) -> Result<(RawEvent, &[Token]), ReadFault>
    ensures { Gives (λ x. (x.0, x.1.now)) result (single_at tokens.now) }
{
    let (event_name, rest) = some_label(alloc, tokens)?;
    let (event, rest) = act(alloc, Origin::Chart, rest)?;
    let event = with_label(alloc, event_name, event)?;
    Ok((event, rest))
}

/// Whether the tokens start with a timer's event, or a creation.
fn starts_with_timing(tokens: &[Token]) -> bool
    ensures { result ≡ starts timing_words tokens.now }
{
    starts_with_either(tokens, "starttimer", "set")
        || starts_with_either(tokens, "stoptimer", "reset")
        || starts_with_either(tokens, "timeout", "create")
}

/// Whether the tokens start with a single event.
pub fn starts_with_single(tokens: &[Token]) -> bool
    ensures { result ≡ starts single_words tokens.now }
{
    starts_with_either(tokens, "label", "out")
        || starts_with_either(tokens, "in", "action")
        || starts_with_timing(tokens)
}

/// The single events that the tokens start with.
fn singles(alloc: Global, tokens: &[Token]) -> Result<(RawEventList, &[Token]), ReadFault>
    ensures { Gives (λ x. (x.0, x.1.now)) result (singles_at tokens.now) }
{
    let mut events = Items::new(alloc);
    let mut rest = tokens;
    for _k in 0..tokens.len() {
        if !starts_with_single(rest) {
            break;
        }
        match single(alloc, rest) {
            Ok((event, behind)) => {
                events.push(event)?;
                rest = behind;
            }
            Err(fault) => return Err(fault),
        }
    }
    Ok((events, rest))
}

/// The end of a coregion.
fn coregion_end(tokens: &[Token]) -> Result<&[Token], ReadFault>
    ensures { Gives (λ x. (tt, x.now)) result (coregion_end_at tokens.now) }
{
    let (_endconcurrent, rest) = word(tokens, "endconcurrent")?;
    ending(rest)
}

/// A coregion (Z.120, clause 7.1), with its place.
pub fn coregion(
    alloc: Global,
    tokens: &[Token],
) -> Result<(Place, RawEventList, &[Token]), ReadFault>
    ensures { Gives (λ x. ((x.0, x.1), x.2.now)) result (coregion_at tokens.now) }
{
    let (concurrent, rest) = word(tokens, "concurrent")?;
    let rest = ending(rest)?;
    let (events, rest) = singles(alloc, rest)?;
    let rest = coregion_end(rest)?;
    Ok((concurrent.place, events, rest))
}

/// The stop of an instance (Z.120, clause 4.11), with its place.
pub fn stop(tokens: &[Token]) -> Result<(Place, &[Token]), ReadFault>
    ensures { Gives (λ x. (x.0, x.1.now)) result (stop_at tokens.now) }
{
    let (stop, rest) = word(tokens, "stop")?;
    let rest = ending(rest)?;
    Ok((stop.place, rest))
}
