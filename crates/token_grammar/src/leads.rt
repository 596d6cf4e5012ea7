//! Names that may lead a statement, so no words that begin another one: for statements (msc_document) and `parts`.

ghost use Rattle.std.specs.Prelude.{◌≡◌, ◌↔◌, IsTrue};
ghost use Rattle.msc_base.specs.Lists.{IsAmong};
ghost use Rattle.token_grammar.specs.Classes.{is_one_of};
ghost use Rattle.token_grammar.specs.Languages.{among, starts};
ghost use Rattle.token_grammar.specs.Parts.{leads, other_leads};

use crate::readers::is_name_token;
use msc_base::is_text;
use msc_tokens::Token;

/// Whether the bytes are a word that begins another statement.
pub fn is_other_lead(bytes: &[u8]) -> bool
    ensures { IsTrue result ↔ IsAmong other_leads bytes.now }
{
    is_text(bytes, "call")
        || is_text(bytes, "create")
        || is_text(bytes, "data")
        || is_text(bytes, "endmethod")
        || is_text(bytes, "endsuspension")
        || is_text(bytes, "gate")
        || is_text(bytes, "language")
        || is_text(bytes, "method")
        || is_text(bytes, "receive")
        || is_text(bytes, "replyin")
        || is_text(bytes, "replyout")
        || is_text(bytes, "stop")
        || is_text(bytes, "suspension")
        || is_text(bytes, "variables")
}

/// Whether the token is a word that begins another statement.
pub fn is_other_token(token: &Token) -> bool
    ensures { result ≡ is_one_of other_leads token.now.bytes }
{
    is_other_lead(token.bytes.bytes())
}

/// Whether the token is a name that may stand left of a statement's colon.
fn is_lead_token(token: &Token) -> bool
    ensures { result ≡ among leads token.now }
{
    is_name_token(token) && !is_other_token(token)
}

/// Whether the tokens start with a name that may stand left of a statement's colon.
pub fn starts_with_lead(tokens: &[Token]) -> bool
    ensures { result ≡ starts leads tokens.now }
{
    match tokens.split_first() {
        Some((first, _)) => is_lead_token(first),
        None => false,
    }
}
