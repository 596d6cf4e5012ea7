//! The event of a session that the tokens of a line are.

ghost use Rattle.std.specs.Prelude.{◌≡◌, ◌∷◌, ℕ, List, IfOk, MatchOption, Some, codes};
ghost use Rattle.msc_base.specs.Only.{Never, Only};
ghost use Rattle.token_grammar.specs.Languages.{texts};
ghost use Rattle.session_log.specs.Sessions.{IsKeyedEvent};

use crate::KeyedLabel;
use crate::copies::list_of;
use event_log::{Version, event_of_tokens, name_of};
use msc_base::{NoMemory, is_text};
use msc_tokens::{Token, TokenList};
use std::alloc::Global;

/// The key of a line, and the tokens behind `=`.
fn key_and_rest(tokens: &[Token]) -> Option<(&[u8], &[Token])>
    ensures { MatchOption result ((key : List ℕ) (rest : List (List ℕ)) → texts tokens.now ≡ key ∷ codes "=" ∷ rest → ⊥)
        (λ found. texts tokens.now ≡ found.0.now ∷ codes "=" ∷ texts found.1.now) }
{
    let (key, behind) = tokens.split_first()?;
    let (sign, rest) = behind.split_first()?;
    if is_text(sign.bytes.bytes(), "=") {
        Some((key.bytes.bytes(), rest))
    } else {
        None
    }
}

/// The event of a session that the tokens are, in a log of this version.
pub fn keyed_event(
    alloc: Global,
    version: Version,
    tokens: &TokenList,
) -> Result<Option<KeyedLabel>, NoMemory>
    ensures { IfOk result (λ found. MatchOption found (Never (IsKeyedEvent version (texts tokens.now.tokens)))
        (λ event. Only (IsKeyedEvent version (texts tokens.now.tokens)) event)) }
{
    let Some((key, rest)) = key_and_rest(tokens.as_slice()) else {
        return Ok(None);
    };
    let Some(key) = name_of(alloc, key)? else {
        return Ok(None);
    };
    let rest = list_of(alloc, rest)?;
    match event_of_tokens(alloc, version, &rest)? {
        Some(label) => Ok(Some(KeyedLabel::new(alloc, key, label)?)),
        None => Ok(None),
    }
}
