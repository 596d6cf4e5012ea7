//! Whether tokens go on with an item, or close what is read, by one or two tokens: for `items`.

ghost use Rattle.std.specs.Prelude.{◌≡◌};
ghost use Rattle.token_grammar.specs.Answers.{Gives};
ghost use Rattle.token_grammar.specs.Languages.{starts, word_at};
ghost use Rattle.msc_document.specs.DocumentReaders as specs;
ghost use Rattle.msc_document.specs.StatementReaders.{state_of, statement_words};

use crate::starts::{starts_with_event, starts_with_multi};
use msc_tokens::Token;
use msc_tree::InlineForm;
use token_grammar::{ReadFault, starts_with, starts_with_either, starts_with_lead, word};

/// The word that ends what is read, and the tokens behind it.
pub fn close<'a>(
    tokens: &'a [Token],
    outer: &str,
    closer: Option<InlineForm>,
) -> Result<(&'a Token, &'a [Token]), ReadFault>
    ensures { Gives (λ x. (x.0.now, x.1.now)) result (word_at (specs.closer_word outer.now closer) tokens.now) }
{
    match closer {
        Some(form) => word(tokens, form.word()),
        None => word(tokens, outer),
    }
}

/// Whether the tokens start with the word that ends what is read.
fn starts_with_closer(tokens: &[Token], outer: &str, closer: Option<InlineForm>) -> bool
    ensures { result ≡ starts (specs.closer_word outer.now closer) tokens.now }
{
    match closer {
        Some(form) => starts_with(tokens, form.word()),
        None => starts_with(tokens, outer),
    }
}

/// Whether the tokens start as they do behind the word of a form that begins an inline expression.
fn starts_with_seconds(tokens: &[Token], form: InlineForm) -> bool
    ensures { result ≡ starts (specs.form_seconds form) tokens.now }
{
    match form {
        InlineForm::Loop => starts_with_either(tokens, "<", "begin"),
        InlineForm::Alt | InlineForm::Par | InlineForm::Opt | InlineForm::Exc => {
            starts_with(tokens, "begin")
        }
    }
}

/// The same where there is a form that ends what is read.
fn starts_with_closer_seconds(tokens: &[Token], closer: Option<InlineForm>) -> bool
    ensures { result ≡ starts (specs.closer_seconds closer) tokens.now }
{
    match closer {
        Some(form) => starts_with_seconds(tokens, form),
        None => false,
    }
}

/// Whether the tokens go on with an event of a column.
pub fn column_goes_on(tokens: &[Token], closer: Option<InlineForm>) -> bool
    ensures { result ≡ specs.column_goes_on closer tokens.now }
{
    match tokens.split_first() {
        Some((_, rest)) => {
            starts_with_event(tokens)
                && (!starts_with_closer(tokens, "endinstance", closer)
                    || starts_with_closer_seconds(rest, closer))
        }
        None => false,
    }
}

/// Whether the tokens start with an item elsewhere: of any kind, or no event.
fn starts_with_item(tokens: &[Token], any: bool) -> bool
    ensures { result ≡ starts (specs.more_words (state_of any)) tokens.now }
{
    if any {
        return starts_with_event(tokens);
    }
    starts_with_multi(tokens)
}

/// Whether the tokens go on with an item of a statement.
pub fn statement_goes_on(tokens: &[Token], any: bool, closer: Option<InlineForm>) -> bool
    ensures { result ≡ specs.statement_goes_on closer (state_of any) tokens.now }
{
    match tokens.split_first() {
        Some((_, rest)) => {
            starts_with_item(tokens, any)
                && (!starts_with_closer(tokens, "endmsc", closer)
                    || starts_with_closer_seconds(rest, closer))
        }
        None => false,
    }
}

/// Whether the tokens start with what covers a statement.
fn starts_with_cover(tokens: &[Token]) -> bool
    ensures { result ≡ starts specs.opening_words tokens.now }
{
    starts_with_lead(tokens) || starts_with(tokens, "all")
}

/// Whether the tokens start with a statement, which in a chart may be the column of an instance.
pub fn starts_with_statement(tokens: &[Token], closer: Option<InlineForm>) -> bool
    ensures { result ≡ starts (statement_words closer) tokens.now }
{
    match closer {
        Some(_) => starts_with_cover(tokens),
        None => starts_with(tokens, "instance") || starts_with_cover(tokens),
    }
}

/// The word of the form, and the tokens behind it.
pub fn form_token(tokens: &[Token], form: InlineForm) -> Result<(&Token, &[Token]), ReadFault>
    ensures { Gives (λ x. (x.0.now, x.1.now)) result (word_at (specs.form_word form) tokens.now) }
{
    word(tokens, form.word())
}
