//! The name and the shared list of an inline expression, and its end: for `items`.

ghost use Rattle.std.specs.Prelude.{◌≡◌};
ghost use Rattle.token_grammar.specs.Answers.{Gives};
ghost use Rattle.msc_document.specs.DocumentReaders.{naming_at, closing_at};

use msc_base::Name;
use msc_events::{Orientation, shared_in};
use msc_tokens::Token;
use msc_tree::Cover;
use std::alloc::Global;
use token_grammar::{ReadFault, ending, some_name, word};

/// The name of an inline expression and, in a column, the list of those that share it, where there are any.
pub fn naming(
    alloc: Global,
    orientation: Orientation,
    tokens: &[Token],
) -> Result<(Option<Name>, Option<Cover>, &[Token]), ReadFault>
    ensures { Gives (λ x. ((x.0, x.1), x.2.now)) result (naming_at orientation tokens.now) }
{
    let (name, rest) = some_name(alloc, tokens)?;
    let (shared, rest) = shared_in(alloc, orientation, rest)?;
    let rest = ending(rest)?;
    Ok((name, shared, rest))
}

/// The end of an inline expression, behind its form's word.
pub fn closing(tokens: &[Token]) -> Result<&[Token], ReadFault>
    ensures { Gives (λ x. (tt, x.now)) result (closing_at tokens.now) }
{
    let (_end, rest) = word(tokens, "end")?;
    ending(rest)
}
