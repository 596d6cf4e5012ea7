//! The tokens behind the key of a line, as a list of their own: `keyed_tokens` reads them as an event.

ghost use Rattle.std.specs.Prelude.{◌≡◌, IfOk};

use msc_base::NoMemory;
use msc_tokens::{Token, TokenList};
use std::alloc::Global;

/// The same token once more.
fn copy_token(alloc: Global, token: &Token) -> Result<Token, NoMemory>
    ensures { IfOk result (λ other. other ≡ token.now) }
{
    Ok(Token {
        kind: token.kind,
        bytes: token.bytes.copy(alloc)?,
        place: token.place,
    })
}

/// The list of these tokens.
pub fn list_of(alloc: Global, tokens: &[Token]) -> Result<TokenList, NoMemory>
    ensures { IfOk result (λ list. list.tokens ≡ tokens.now) }
{
    let mut list = TokenList::new(alloc);
    for token in tokens {
        list.push(copy_token(alloc, token)?)?;
    }
    Ok(list)
}
