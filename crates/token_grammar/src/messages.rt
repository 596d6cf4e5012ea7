//! Messages and timers with pairing name and list: for events of charts and logs alike (msc_events), and msc_document.

ghost use Rattle.std.specs.Prelude.{◌≡◌, [], ◌∷◌, ◌++◌, length};
ghost use Rattle.token_grammar.specs.Answers.{Gives};
ghost use Rattle.token_grammar.specs.PartReaders.{comma_item_at, item_at, more_items_at, items_at, inside_at, parameters_at, pairing_at, list_at, message_at, message_view};

use crate::parts::{own_name, own_text};
use crate::readers::{ReadFault, name_or_string, starts_with, starts_with_item, word};
use msc_base::{Items, Name, Text, Words};
use msc_tokens::Token;
use std::alloc::Global;

/// A message or a timer, as it is written.
#[derive(Drop)]
pub struct MessageParts {
    /// Its name.
    pub text: Text,
    /// The name that serves the pairing alone, where there is one.
    pub pairing: Option<Name>,
    /// The list in parentheses, item by item, where there is one.
    pub parameters: Option<Words>,
}

/// A name or a string.
pub fn item(alloc: Global, tokens: &[Token]) -> Result<(Text, &[Token]), ReadFault>
    ensures { Gives (λ x. (x.0, x.1.now)) result (item_at tokens.now) }
{
    let (token, rest) = name_or_string(tokens)?;
    Ok((token.bytes.copy(alloc)?, rest))
}

/// A name or a string behind a comma.
fn comma_item(alloc: Global, tokens: &[Token]) -> Result<(Text, &[Token]), ReadFault>
    ensures { Gives (λ x. (x.0, x.1.now)) result (comma_item_at tokens.now) }
{
    let (_comma, rest) = word(tokens, ",")?;
    item(alloc, rest)
}

/// Other items, each behind a comma, appended to the list.
fn more_items(
    alloc: Global,
    tokens: &[Token],
    prefix: Words,
) -> Result<(Words, &[Token]), ReadFault>
    ensures { Gives (λ x. (x.0, x.1.now)) result (more_items_at prefix (length tokens.now) tokens.now) }
{
    let mut items = prefix;
    let mut rest = tokens;
    for _k in 0..tokens.len() {
        if !starts_with(rest, ",") {
            break;
        }
        match comma_item(alloc, rest) {
            Ok((item, behind)) => {
                items.push(item)?;
                rest = behind;
            }
            Err(fault) => return Err(fault),
        }
    }
    Ok((items, rest))
}

/// Items with commas between them.
fn items(alloc: Global, tokens: &[Token]) -> Result<(Words, &[Token]), ReadFault>
    ensures { Gives (λ x. (x.0, x.1.now)) result (items_at tokens.now) }
{
    let (first, rest) = item(alloc, tokens)?;
    let items = Items::one(alloc, first)?;
    more_items(alloc, rest, items)
}

/// Items, where there are any.
fn inside(alloc: Global, tokens: &[Token]) -> Result<(Words, &[Token]), ReadFault>
    ensures { Gives (λ x. (x.0, x.1.now)) result (inside_at tokens.now) }
{
    if starts_with_item(tokens) {
        return items(alloc, tokens);
    }
    Ok((Items::new(alloc), tokens))
}

/// A list in parentheses.
pub fn parameters(alloc: Global, tokens: &[Token]) -> Result<(Words, &[Token]), ReadFault>
    ensures { Gives (λ x. (x.0, x.1.now)) result (parameters_at tokens.now) }
{
    let (_open, rest) = word(tokens, "(")?;
    let (items, rest) = inside(alloc, rest)?;
    let (_close, rest) = word(rest, ")")?;
    Ok((items, rest))
}

/// A list in parentheses, where there is one.
fn list(alloc: Global, tokens: &[Token]) -> Result<(Option<Words>, &[Token]), ReadFault>
    ensures { Gives (λ x. (x.0, x.1.now)) result (list_at tokens.now) }
{
    if starts_with(tokens, "(") {
        let (items, rest) = parameters(alloc, tokens)?;
        return Ok((Some(items), rest));
    }
    Ok((None, tokens))
}

/// A name that serves the pairing alone, where there is one.
fn pairing(alloc: Global, tokens: &[Token]) -> Result<(Option<Name>, &[Token]), ReadFault>
    ensures { Gives (λ x. (x.0, x.1.now)) result (pairing_at tokens.now) }
{
    if starts_with(tokens, ",") {
        let (_comma, rest) = word(tokens, ",")?;
        let (name, rest) = own_name(alloc, rest)?;
        return Ok((Some(name), rest));
    }
    Ok((None, tokens))
}

/// A message or a timer (Z.120, clauses 4.3 and 4.8).
pub fn message(alloc: Global, tokens: &[Token]) -> Result<(MessageParts, &[Token]), ReadFault>
    ensures { Gives (λ x. (message_view x.0, x.1.now)) result (message_at tokens.now) }
{
    let (name, rest) = own_text(alloc, tokens)?;
    let (pairing, rest) = pairing(alloc, rest)?;
    let (parameters, rest) = list(alloc, rest)?;
    Ok((
        MessageParts {
            text: name,
            pairing,
            parameters,
        },
        rest,
    ))
}
