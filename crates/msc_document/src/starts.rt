//! What tokens start with, by the first words: for `closer` and `items`, which choose by it.

ghost use Rattle.std.specs.Prelude.{◌≡◌};
ghost use Rattle.token_grammar.specs.Languages.{starts};
ghost use Rattle.msc_document.specs.DocumentReaders as specs;

use msc_events::starts_with_single;
use msc_tokens::Token;
use token_grammar::{starts_with, starts_with_either};

/// Whether the tokens start with the word of a form.
pub fn starts_with_form(tokens: &[Token]) -> bool
    ensures { result ≡ starts specs.form_words tokens.now }
{
    starts_with_either(tokens, "alt", "par")
        || starts_with_either(tokens, "opt", "exc")
        || starts_with(tokens, "loop")
}

/// Whether the tokens start with a condition, an inline expression or a reference.
pub fn starts_with_multi(tokens: &[Token]) -> bool
    ensures { result ≡ starts specs.multi_words tokens.now }
{
    starts_with(tokens, "condition") || starts_with_form(tokens) || starts_with(tokens, "reference")
}

/// Whether the tokens start with an event.
pub fn starts_with_event(tokens: &[Token]) -> bool
    ensures { result ≡ starts specs.event_words tokens.now }
{
    starts_with_single(tokens)
        || starts_with(tokens, "concurrent")
        || starts_with_multi(tokens)
        || starts_with(tokens, "stop")
}
