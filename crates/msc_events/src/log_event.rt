//! The event of a line of a log. event_log calls it; no chart is known here.

ghost use Rattle.std.specs.Prelude.{◌≡◌, IfOk, IfErr};
ghost use Rattle.msc_base.specs.declared.label.Label.{Label};
ghost use Rattle.token_grammar.specs.Answers.{Gives};
ghost use Rattle.token_grammar.specs.Languages.{texts};
ghost use Rattle.token_grammar.specs.Refusals.{IsRefusal, RefusedAt};
ghost use Rattle.msc_events.specs.LogEvents.{event, ReadsEvent};
ghost use Rattle.msc_events.specs.LogReaders.{event_at};

use crate::act::act;
use crate::event_parts::Origin;
use msc_base::{Label, Place};
use msc_tokens::{Token, TokenList};
use msc_tree::label_of;
use std::alloc::Global;
use token_grammar::{ParseFault, ReadFault, own_name, refusal, word};

/// The event at the prefix of the tokens.
fn event(alloc: Global, tokens: &[Token]) -> Result<(Label, &[Token]), ReadFault>
    ensures { Gives (λ x. (x.0, x.1.now)) result (event_at tokens.now) }
{
    let (at, rest) = own_name(alloc, tokens)?;
    let (_colon, rest) = word(rest, ":")?;
    let (said, rest) = act(alloc, Origin::Log, rest)?;
    let label = label_of(alloc, at, &said)?;
    Ok((label, rest))
}

/// The event that the tokens are, of a text that ends there.
fn read_event(alloc: Global, tokens: &[Token], end: Place) -> Result<Label, ParseFault>
    ensures ok { IfOk result (λ label. ReadsEvent (texts tokens.now) label) }
    ensures only { IfOk result (λ label. (other : Label) → ReadsEvent (texts tokens.now) other → other ≡ label) }
    ensures none { IfErr result (λ fault. IsRefusal fault → (label : Label) → ReadsEvent (texts tokens.now) label → ⊥) }
    ensures place { IfErr result (λ fault. IsRefusal fault → RefusedAt event tokens.now end fault) }
{
    match event(alloc, tokens) {
        Ok((label, rest)) => {
            if rest.is_empty() {
                Ok(label)
            } else {
                Err(refusal(tokens, rest.len(), end))
            }
        }
        Err(ReadFault::Refused(left)) => Err(refusal(tokens, left, end)),
        Err(ReadFault::TooDeep(left)) => Err(refusal(tokens, left, end)),
        Err(ReadFault::NoMemory) => Err(ParseFault::NoMemory),
    }
}

/// The event of a log that the tokens are (Z.120, clauses 4.3, 4.8, 4.9 and 4.10).
pub fn parse_event(alloc: Global, tokens: &TokenList) -> Result<Label, ParseFault>
    ensures ok { IfOk result (λ label. ReadsEvent (texts tokens.now.tokens) label) }
    ensures only { IfOk result (λ label. (other : Label) → ReadsEvent (texts tokens.now.tokens) other → other ≡ label) }
    ensures none { IfErr result (λ fault. IsRefusal fault → (label : Label) → ReadsEvent (texts tokens.now.tokens) label → ⊥) }
    ensures place { IfErr result (λ fault. IsRefusal fault → RefusedAt event tokens.now.tokens tokens.now.end_place fault) }
{
    read_event(alloc, tokens.as_slice(), tokens.end_place())
}
