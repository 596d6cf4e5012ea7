//! The text of a log's event by its kind, for logs in JSON (event_log).

ghost use Rattle.std.specs.Prelude.{◌≡◌, List, ℕ, IfOk, IfErr};
ghost use Rattle.token_grammar.specs.Answers.{Gives};
ghost use Rattle.token_grammar.specs.Languages.{texts};
ghost use Rattle.token_grammar.specs.Refusals.{IsRefusal};
ghost use Rattle.msc_events.specs.LogEvents.{ReadsText};
ghost use Rattle.msc_events.specs.LogReaders.{text_at, glued_message_at};
ghost use Rattle.msc_events.specs.LogRefusals.{IsTextRefused};

use msc_base::{Kind, Place, Text};
use msc_tokens::{Token, TokenList};
use msc_tree::label_text;
use std::alloc::Global;
use token_grammar::{
    ParseFault, ReadFault, item, name, own_text, parameters, refusal, starts_with,
};

/// A message without pairing name.
fn plain_message(alloc: Global, tokens: &[Token]) -> Result<(Text, &[Token]), ReadFault>
    ensures { Gives (λ x. (x.0, x.1.now)) result (glued_message_at tokens.now) }
{
    let (first, rest) = name(tokens)?;
    if starts_with(rest, "(") {
        let (list, rest) = parameters(alloc, rest)?;
        let text = label_text(alloc, first.bytes.bytes(), Some(list.as_slice()))?;
        return Ok((Text::from_vec(text), rest));
    }
    let text = label_text(alloc, first.bytes.bytes(), None)?;
    Ok((Text::from_vec(text), rest))
}

/// The text of an event of this kind, at the prefix of the tokens.
fn text(alloc: Global, kind: Kind, tokens: &[Token]) -> Result<(Text, &[Token]), ReadFault>
    ensures { Gives (λ x. (x.0, x.1.now)) result (text_at kind tokens.now) }
{
    match kind {
        Kind::Action => item(alloc, tokens),
        Kind::Create => own_text(alloc, tokens),
        Kind::Output
        | Kind::Input
        | Kind::OutputLost
        | Kind::InputFound
        | Kind::TimerStart
        | Kind::TimerStop
        | Kind::Timeout => plain_message(alloc, tokens),
    }
}

/// The text that the tokens are, of a text that ends there.
fn read_text(alloc: Global, kind: Kind, tokens: &[Token], end: Place) -> Result<Text, ParseFault>
    ensures ok { IfOk result (λ text. ReadsText kind (texts tokens.now) text) }
    ensures only { IfOk result (λ text. (other : List ℕ) → ReadsText kind (texts tokens.now) other → other ≡ text) }
    ensures none { IfErr result (λ fault. IsRefusal fault → (text : List ℕ) → ReadsText kind (texts tokens.now) text → ⊥) }
    ensures place { IfErr result (λ fault. IsRefusal fault → IsTextRefused kind tokens.now end fault) }
{
    match text(alloc, kind, tokens) {
        Ok((text, rest)) => {
            if rest.is_empty() {
                Ok(text)
            } else {
                Err(refusal(tokens, rest.len(), end))
            }
        }
        Err(ReadFault::Refused(left)) => Err(refusal(tokens, left, end)),
        Err(ReadFault::TooDeep(left)) => Err(refusal(tokens, left, end)),
        Err(ReadFault::NoMemory) => Err(ParseFault::NoMemory),
    }
}

/// The text, in the form of a label, that the tokens are for an event of this kind: a message without pairing name, of
/// an action a string or a name, of a creation the child's name.
pub fn parse_text(alloc: Global, kind: Kind, tokens: &TokenList) -> Result<Text, ParseFault>
    ensures ok { IfOk result (λ text. ReadsText kind (texts tokens.now.tokens) text) }
    ensures only { IfOk result (λ text. (other : List ℕ) → ReadsText kind (texts tokens.now.tokens) other → other ≡ text) }
    ensures none { IfErr result (λ fault. IsRefusal fault → (text : List ℕ) → ReadsText kind (texts tokens.now.tokens) text → ⊥) }
    ensures place { IfErr result (λ fault. IsRefusal fault → IsTextRefused kind tokens.now.tokens tokens.now.end_place fault) }
{
    read_text(alloc, kind, tokens.as_slice(), tokens.end_place())
}
