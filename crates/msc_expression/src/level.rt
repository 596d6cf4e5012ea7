//! One level opened, or the token that opens one too many: for all readers that nest, here and in msc_document.

ghost use Rattle.token_grammar.specs.Answers.{Gives};
ghost use Rattle.token_grammar.specs.Languages.{just};
ghost use Rattle.msc_expression.specs.Levels.{open_at};

use msc_tokens::Token;
use token_grammar::{ReadFault, word};

/// How many levels may be opened behind a word that opens one, and the tokens behind it. Where none may be opened, the
/// word is one too many.
pub fn open<'a>(
    tokens: &'a [Token],
    text: &str,
    levels: usize,
) -> Result<(usize, &'a [Token]), ReadFault>
    ensures { Gives (λ x. (x.0, x.1.now)) result (open_at (just text.now) levels tokens.now) }
{
    let (_word, rest) = word(tokens, text)?;
    if levels == 0 {
        return Err(ReadFault::TooDeep(tokens.len()));
    }
    Ok((levels - 1, rest))
}
