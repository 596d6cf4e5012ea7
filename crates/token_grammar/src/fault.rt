//! From a refusal by tokens left to a fault at its place, and the forms that aren't taken: for who reads whole texts.

ghost use Rattle.std.specs.Prelude.{◌≡◌, ◌++◌, List, length};
ghost use Rattle.std.specs.Str.{bytes_eq};
ghost use Rattle.msc_tokens.specs.declared.token.Token.{Token};
ghost use Rattle.token_grammar.specs.Classes.{is_one_of};
ghost use Rattle.token_grammar.specs.Refused.{fault_at, fault_by, form_of, guard_texts, data_texts, time_texts, method_texts, qualifier_texts, inheritance_texts};

use msc_base::Place;
use msc_rules::Form;
use msc_tokens::Token;

/// Why tokens aren't read.
#[derive(Clone, Copy, Debug, PartialEq, Eq)]
pub enum ParseFault {
    /// The token here can't continue what the tokens before it begin, or the text ends here too early.
    Syntax(Place),
    /// The same, where the token is a word or mark of a form that isn't taken.
    Unsupported(Form, Place),
    /// The token here opens a level too many.
    TooDeep(Place),
    /// Want of memory.
    NoMemory,
}

/// Whether the token is this text.
fn is(token: &Token, text: &str) -> bool
    ensures { result ≡ bytes_eq token.now.bytes text.now }
{
    token.bytes.bytes() == text.as_bytes()
}

fn is_guard(token: &Token) -> bool
    ensures { result ≡ is_one_of guard_texts token.now.bytes }
{
    is(token, "when") || is(token, "otherwise")
}

fn is_data(token: &Token) -> bool
    ensures { result ≡ is_one_of data_texts token.now.bytes }
{
    is(token, "language")
        || is(token, "data")
        || is(token, "variables")
        || is(token, "def")
        || is(token, "undef")
        || is(token, ":=")
        || is(token, "=")
}

fn is_time(token: &Token) -> bool
    ensures { result ≡ is_one_of time_texts token.now.bytes }
{
    is(token, "time") || is(token, "@") || is(token, "[") || is(token, "]") || is(token, "&")
}

fn is_method(token: &Token) -> bool
    ensures { result ≡ is_one_of method_texts token.now.bytes }
{
    is(token, "call")
        || is(token, "receive")
        || is(token, "replyout")
        || is(token, "replyin")
        || is(token, "method")
        || is(token, "endmethod")
        || is(token, "suspension")
        || is(token, "endsuspension")
}

fn is_qualifier(token: &Token) -> bool
    ensures { result ≡ is_one_of qualifier_texts token.now.bytes }
{
    is(token, "<<") || is(token, ">>")
}

fn is_inheritance(token: &Token) -> bool
    ensures { result ≡ is_one_of inheritance_texts token.now.bytes }
{
    is(token, "inherits")
        || is(token, "virtual")
        || is(token, "redefined")
        || is(token, "finalized")
        || is(token, "subst")
        || is(token, "using")
}

/// The form of which the token is a word or mark.
pub fn form_of(token: &Token) -> Option<Form>
    ensures { result ≡ form_of token.now.bytes }
{
    if is_guard(token) {
        Some(Form::Guard)
    } else if is_data(token) {
        Some(Form::DataForm)
    } else if is_time(token) {
        Some(Form::TimeForm)
    } else if is_method(token) {
        Some(Form::Method)
    } else if is_qualifier(token) {
        Some(Form::Qualifier)
    } else if is_inheritance(token) {
        Some(Form::Inheritance)
    } else if is(token, "gate") {
        Some(Form::GateForm)
    } else if is(token, "exc") {
        Some(Form::ExcForm)
    } else {
        None
    }
}

/// The refusal of a token, by the form that it belongs to.
fn refusal_of(token: &Token) -> ParseFault
    ensures { result ≡ fault_by (form_of token.now.bytes) token.now.place }
{
    match form_of(token) {
        Some(form) => ParseFault::Unsupported(form, token.place),
        None => ParseFault::Syntax(token.place),
    }
}

/// The refusal of the first of the last so many tokens, or of the text's end where there is none.
pub fn refusal(tokens: &[Token], left: usize, end: Place) -> ParseFault
    ensures { (prefix rest : List Token) → tokens.now ≡ prefix ++ rest → left ≡ length rest → result ≡ fault_at rest end }
{
    if left > tokens.len() {
        return ParseFault::Syntax(end);
    }
    let rest = &tokens[tokens.len() - left..];
    match rest.split_first() {
        Some((token, _)) => refusal_of(token),
        None => ParseFault::Syntax(end),
    }
}
