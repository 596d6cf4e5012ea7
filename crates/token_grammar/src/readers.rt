//! Single tokens: read, or refused by how many are left. All other readers stand on these; they tell no place.

ghost use Rattle.std.specs.Prelude.{◌≡◌, [], ◌∷◌, IfOk};
ghost use Rattle.std.specs.List.{list_all};
ghost use Rattle.msc_base.specs.Names.{IsName};
ghost use Rattle.token_grammar.specs.Answers.{Gives};
ghost use Rattle.token_grammar.specs.Classes.{exactly, is_digit, is_name, is_string, is_number};
ghost use Rattle.token_grammar.specs.Languages.{Set, among, starts, just, names, strings, numbers, names_or_strings, word_at, bytes_at};
ghost use Rattle.token_grammar.specs.declared.readers.ReadFault.TheVariants.{NoMemory};

use msc_base::NoMemory;
use msc_tokens::Token;
use std::alloc::AllocFailed;

/// Why the prefix of a list of tokens isn't read.
#[derive(Clone, Copy, Debug, PartialEq, Eq)]
pub enum ReadFault {
    /// A token is refused, with so many left, it among them; with none left, the list ends too early.
    Refused(usize),
    /// A token opens a level too many, with so many left, it among them.
    TooDeep(usize),
    /// Want of memory.
    NoMemory,
}

impl From<NoMemory> for ReadFault {
    ghost from_gives = { λ _ e. e ≡ NoMemory };

    fn from(_: NoMemory) -> Self {
        ReadFault::NoMemory
    }
}

impl<T: Drop> From<AllocFailed<T>> for ReadFault {
    ghost from_gives = { λ _ e. e ≡ NoMemory };

    fn from(_: AllocFailed<T>) -> Self {
        ReadFault::NoMemory
    }
}

/// Whether the token is this text.
fn is_text(token: &Token, text: &str) -> bool
    ensures { result ≡ among (just text.now) token.now }
{
    token.bytes.bytes() == text.as_bytes()
}

/// Whether the token is a name.
pub fn is_name_token(token: &Token) -> bool
    ensures { result ≡ is_name token.now.bytes }
{
    msc_base::is_name(token.bytes.bytes())
}

/// Whether the token is a string: no other begins with an apostrophe.
fn is_string_token(token: &Token) -> bool
    ensures { result ≡ is_string token.now.bytes }
{
    match token.bytes.bytes().first() {
        Some(byte) => *byte == b'\'',
        None => false,
    }
}

/// Whether all bytes are digits.
fn are_digits(bytes: &[u8]) -> bool
    ensures { result ≡ list_all is_digit bytes.now }
{
    bytes.iter().all(|byte| *byte > 47 && *byte < 58)
}

/// Whether the token is a number.
fn is_number_token(token: &Token) -> bool
    ensures { result ≡ is_number token.now.bytes }
{
    let bytes = token.bytes.bytes();
    !bytes.is_empty() && are_digits(bytes)
}

/// Whether the tokens start with this text.
pub fn starts_with(tokens: &[Token], text: &str) -> bool
    ensures { result ≡ starts (just text.now) tokens.now }
{
    match tokens.split_first() {
        Some((first, _)) => is_text(first, text),
        None => false,
    }
}

/// Whether the tokens start with one of these two texts.
pub fn starts_with_either(tokens: &[Token], one: &str, other: &str) -> bool
    ensures { result ≡ starts (exactly one.now ∷ exactly other.now ∷ []) tokens.now }
{
    match tokens.split_first() {
        Some((first, _)) => is_text(first, one) || is_text(first, other),
        None => false,
    }
}

/// Whether the tokens start with a name.
pub fn starts_with_name(tokens: &[Token]) -> bool
    ensures { result ≡ starts names tokens.now }
{
    match tokens.split_first() {
        Some((first, _)) => is_name_token(first),
        None => false,
    }
}

/// Whether the tokens start with a name or a string.
pub fn starts_with_item(tokens: &[Token]) -> bool
    ensures { result ≡ starts names_or_strings tokens.now }
{
    match tokens.split_first() {
        Some((first, _)) => is_name_token(first) || is_string_token(first),
        None => false,
    }
}

/// Whether the tokens start with a string.
fn starts_with_string(tokens: &[Token]) -> bool
    ensures { result ≡ starts strings tokens.now }
{
    match tokens.split_first() {
        Some((first, _)) => is_string_token(first),
        None => false,
    }
}

/// Whether the tokens start with a number.
fn starts_with_number(tokens: &[Token]) -> bool
    ensures { result ≡ starts numbers tokens.now }
{
    match tokens.split_first() {
        Some((first, _)) => is_number_token(first),
        None => false,
    }
}

/// The first token and those behind it, if it is one that is wanted.
fn first_if(tokens: &[Token], is_wanted: bool) -> Result<(&Token, &[Token]), ReadFault>
    ensures { (wanted : Set) → is_wanted ≡ starts wanted tokens.now → Gives (λ x. (x.0.now, x.1.now)) result (word_at wanted tokens.now) }
{
    if !is_wanted {
        return Err(ReadFault::Refused(tokens.len()));
    }
    match tokens.split_first() {
        Some((first, rest)) => Ok((first, rest)),
        None => Err(ReadFault::Refused(0)),
    }
}

/// The first token, where it is this text, and those behind it.
pub fn word<'a>(tokens: &'a [Token], text: &str) -> Result<(&'a Token, &'a [Token]), ReadFault>
    ensures { Gives (λ x. (x.0.now, x.1.now)) result (word_at (just text.now) tokens.now) }
{
    first_if(tokens, starts_with(tokens, text))
}

/// The first token, where it is one of these two texts, and those behind it.
pub fn either_word<'a>(
    tokens: &'a [Token],
    one: &str,
    other: &str,
) -> Result<(&'a Token, &'a [Token]), ReadFault>
    ensures { Gives (λ x. (x.0.now, x.1.now)) result (word_at (exactly one.now ∷ exactly other.now ∷ []) tokens.now) }
{
    first_if(tokens, starts_with_either(tokens, one, other))
}

/// The first token, where it is a name, and those behind it.
pub fn name(tokens: &[Token]) -> Result<(&Token, &[Token]), ReadFault>
    ensures gives { Gives (λ x. (x.0.now.bytes, x.1.now)) result (bytes_at names tokens.now) }
    ensures token { Gives (λ x. (x.0.now, x.1.now)) result (word_at names tokens.now) }
    ensures name { IfOk result (λ x. IsName x.0.now.bytes) }
{
    first_if(tokens, starts_with_name(tokens))
}

/// The first token, where it is a name or a string, and those behind it.
pub fn name_or_string(tokens: &[Token]) -> Result<(&Token, &[Token]), ReadFault>
    ensures { Gives (λ x. (x.0.now.bytes, x.1.now)) result (bytes_at names_or_strings tokens.now) }
{
    first_if(tokens, starts_with_item(tokens))
}

/// The first token, where it is a string, and those behind it.
pub fn string(tokens: &[Token]) -> Result<(&Token, &[Token]), ReadFault>
    ensures { Gives (λ x. (x.0.now.bytes, x.1.now)) result (bytes_at strings tokens.now) }
{
    first_if(tokens, starts_with_string(tokens))
}

/// The first token, where it is a number, and those behind it.
pub fn number(tokens: &[Token]) -> Result<(&Token, &[Token]), ReadFault>
    ensures { Gives (λ x. (x.0.now.bytes, x.1.now)) result (bytes_at numbers tokens.now) }
{
    first_if(tokens, starts_with_number(tokens))
}
