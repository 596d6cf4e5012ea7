//! Names as values, the end of a statement, lists of names: what the readers of msc_events and up are made of.

ghost use Rattle.std.specs.Prelude.{◌≡◌, [], ◌∷◌, ◌++◌, length, IfOk};
ghost use Rattle.msc_base.specs.Names.{IsName};
ghost use Rattle.token_grammar.specs.Answers.{Gives};
ghost use Rattle.token_grammar.specs.Languages.{names, optional_at, word_at};
ghost use Rattle.token_grammar.specs.PartReaders.{name_at, placed_name_at, lead_at, ending_at, comma_name_at, more_names_at, name_list_at};
ghost use Rattle.token_grammar.specs.Parts.{kept};

use crate::leads::is_other_token;
use crate::readers::{ReadFault, name, starts_with, starts_with_name, string, word};
use msc_base::{Items, Name, NameRefused, Names, NoMemory, Place, Text};
use msc_tokens::Token;
use std::alloc::Global;

/// The name that a token is.
pub fn name_of(alloc: Global, token: &Token) -> Result<Name, NoMemory>
    requires { IsName token.now.bytes }
    ensures { IfOk result (λ name. name ≡ token.now.bytes) }
{
    match Name::from_bytes(alloc, token.bytes.bytes()) {
        Ok(name) => Ok(name),
        Err(_) => Err(NoMemory),
    }
}

/// The first token, where it is a name, as a name of its own and as it stands, and those behind it.
fn taken_name(alloc: Global, tokens: &[Token]) -> Result<(Name, &Token, &[Token]), ReadFault>
    ensures token { Gives (λ x. (x.1.now, x.2.now)) result (word_at names tokens.now) }
    ensures name { IfOk result (λ x. x.0 ≡ x.1.now.bytes) }
{
    match tokens.split_first() {
        Some((first, rest)) => match Name::from_bytes(alloc, first.bytes.bytes()) {
            Ok(name) => Ok((name, first, rest)),
            Err(NameRefused::NotAName) => Err(ReadFault::Refused(tokens.len())),
            Err(NameRefused::NoMemory) => Err(ReadFault::NoMemory),
        },
        None => Err(ReadFault::Refused(0)),
    }
}

/// The first token, where it is a name, as a name of its own, and those behind it.
pub fn own_name(alloc: Global, tokens: &[Token]) -> Result<(Name, &[Token]), ReadFault>
    ensures { Gives (λ x. (x.0, x.1.now)) result (name_at tokens.now) }
{
    let (name, _token, rest) = taken_name(alloc, tokens)?;
    Ok((name, rest))
}

/// A name, if the tokens start with one, and those behind it.
pub fn some_name(alloc: Global, tokens: &[Token]) -> Result<(Option<Name>, &[Token]), ReadFault>
    ensures { Gives (λ x. (x.0, x.1.now)) result (optional_at names kept name_at tokens.now) }
{
    if starts_with_name(tokens) {
        let (name, rest) = own_name(alloc, tokens)?;
        return Ok((Some(name), rest));
    }
    Ok((None, tokens))
}

/// The first token, where it is a name, as a text of its own, and those behind it.
pub fn own_text(alloc: Global, tokens: &[Token]) -> Result<(Text, &[Token]), ReadFault>
    ensures { Gives (λ x. (x.0, x.1.now)) result (name_at tokens.now) }
{
    let (token, rest) = name(tokens)?;
    Ok((token.bytes.copy(alloc)?, rest))
}

/// The first token, where it is a name, as a name of its own with its place, and those behind it.
pub fn placed_name(alloc: Global, tokens: &[Token]) -> Result<(Name, Place, &[Token]), ReadFault>
    ensures { Gives (λ x. ((x.0, x.1), x.2.now)) result (placed_name_at tokens.now) }
{
    let (name, token, rest) = taken_name(alloc, tokens)?;
    Ok((name, token.place, rest))
}

/// The first token, where it may lead a statement, as a name of its own with its place, and those behind it.
pub fn placed_lead(alloc: Global, tokens: &[Token]) -> Result<(Name, Place, &[Token]), ReadFault>
    ensures { Gives (λ x. ((x.0, x.1), x.2.now)) result (lead_at tokens.now) }
{
    match tokens.split_first() {
        Some((first, _)) => {
            if is_other_token(first) {
                Err(ReadFault::Refused(tokens.len()))
            } else {
                placed_name(alloc, tokens)
            }
        }
        None => Err(ReadFault::Refused(0)),
    }
}

/// The end of a statement: a semicolon, with or without a comment (Z.120, clause 2.3).
pub fn ending(tokens: &[Token]) -> Result<&[Token], ReadFault>
    ensures { Gives (λ x. (tt, x.now)) result (ending_at tokens.now) }
{
    if starts_with(tokens, "comment") {
        let (_comment, rest) = word(tokens, "comment")?;
        let (_string, rest) = string(rest)?;
        let (_end, rest) = word(rest, ";")?;
        return Ok(rest);
    }
    let (_end, rest) = word(tokens, ";")?;
    Ok(rest)
}

/// A name behind a comma.
fn comma_name(alloc: Global, tokens: &[Token]) -> Result<(Name, &[Token]), ReadFault>
    ensures { Gives (λ x. (x.0, x.1.now)) result (comma_name_at tokens.now) }
{
    let (_comma, rest) = word(tokens, ",")?;
    own_name(alloc, rest)
}

/// Other names, each behind a comma, appended to the list.
pub fn more_names(
    alloc: Global,
    tokens: &[Token],
    prefix: Names,
) -> Result<(Names, &[Token]), ReadFault>
    ensures { Gives (λ x. (x.0, x.1.now)) result (more_names_at prefix (length tokens.now) tokens.now) }
{
    let mut names = prefix;
    let mut rest = tokens;
    for _k in 0..tokens.len() {
        if !starts_with(rest, ",") {
            break;
        }
        match comma_name(alloc, rest) {
            Ok((name, behind)) => {
                names.push(name)?;
                rest = behind;
            }
            Err(fault) => return Err(fault),
        }
    }
    Ok((names, rest))
}

/// Names with commas between them.
pub fn names(alloc: Global, tokens: &[Token]) -> Result<(Names, &[Token]), ReadFault>
    ensures { Gives (λ x. (x.0, x.1.now)) result (name_list_at tokens.now) }
{
    let (first, rest) = own_name(alloc, tokens)?;
    let names = Items::one(alloc, first)?;
    more_names(alloc, rest, names)
}
