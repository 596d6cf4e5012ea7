//! The heading of a document and declarations of instances: for `head`, and for msc_document.

ghost use Rattle.std.specs.Prelude.{◌≡◌, [], ◌∷◌, ◌++◌, length};
ghost use Rattle.token_grammar.specs.Answers.{Gives};
ghost use Rattle.msc_events.specs.Declarations.{decl_of};
ghost use Rattle.msc_events.specs.DeclarationReaders.{heading_at, related_at, kind_at, some_kind_at, colon_kind_at, refinement_at, some_refinement_at, decl_at, comma_decl_at, more_decls_at, decl_list_at, declared_at};

use msc_base::{Items, Name, Names, Place};
use msc_tokens::Token;
use msc_tree::{Decl, DeclList, Heading};
use std::alloc::Global;
use token_grammar::{
    ReadFault, ending, own_name, placed_name, starts_with, starts_with_name, word,
};

/// The document to which the document is related, where one is named.
fn related(alloc: Global, tokens: &[Token]) -> Result<(Option<Name>, &[Token]), ReadFault>
    ensures { Gives (λ x. (x.0, x.1.now)) result (related_at tokens.now) }
{
    if starts_with(tokens, "related") {
        let (_related, rest) = word(tokens, "related")?;
        let (_to, rest) = word(rest, "to")?;
        let (name, rest) = own_name(alloc, rest)?;
        return Ok((Some(name), rest));
    }
    Ok((None, tokens))
}

/// The heading of a document (Z.120, clause 3).
pub fn heading(alloc: Global, tokens: &[Token]) -> Result<(Heading, &[Token]), ReadFault>
    ensures { Gives (λ x. (x.0, x.1.now)) result (heading_at tokens.now) }
{
    let (_mscdocument, rest) = word(tokens, "mscdocument")?;
    let (name, rest) = own_name(alloc, rest)?;
    let (related, rest) = related(alloc, rest)?;
    let rest = ending(rest)?;
    Ok((Heading { name, related }, rest))
}

/// The kind of an instance: one name or two.
fn kind(alloc: Global, tokens: &[Token]) -> Result<(Names, &[Token]), ReadFault>
    ensures { Gives (λ x. (x.0, x.1.now)) result (kind_at tokens.now) }
{
    let (first, rest) = own_name(alloc, tokens)?;
    let mut kind = Items::new(alloc);
    kind.push(first)?;
    if starts_with_name(rest) {
        let (second, rest) = own_name(alloc, rest)?;
        kind.push(second)?;
        return Ok((kind, rest));
    }
    Ok((kind, rest))
}

/// The kind of an instance, where there is one.
fn some_kind(alloc: Global, tokens: &[Token]) -> Result<(Names, &[Token]), ReadFault>
    ensures { Gives (λ x. (x.0, x.1.now)) result (some_kind_at tokens.now) }
{
    if starts_with_name(tokens) {
        return kind(alloc, tokens);
    }
    Ok((Items::new(alloc), tokens))
}

/// The kind of an instance behind a colon, where there is one.
fn colon_kind(alloc: Global, tokens: &[Token]) -> Result<(Names, &[Token]), ReadFault>
    ensures { Gives (λ x. (x.0, x.1.now)) result (colon_kind_at tokens.now) }
{
    if starts_with(tokens, ":") {
        let (_colon, rest) = word(tokens, ":")?;
        return kind(alloc, rest);
    }
    Ok((Items::new(alloc), tokens))
}

/// The chart that refines an instance, with the place of the decomposition (Z.120, clause 7.4).
fn refinement(alloc: Global, tokens: &[Token]) -> Result<(Place, Name, &[Token]), ReadFault>
    ensures { Gives (λ x. ((x.0, x.1), x.2.now)) result (refinement_at tokens.now) }
{
    let (decomposed, rest) = word(tokens, "decomposed")?;
    let (_as, rest) = word(rest, "as")?;
    let (chart, rest) = own_name(alloc, rest)?;
    Ok((decomposed.place, chart, rest))
}

/// The chart that refines an instance, where there is one.
fn some_refinement(
    alloc: Global,
    tokens: &[Token],
) -> Result<(Option<(Place, Name)>, &[Token]), ReadFault>
    ensures { Gives (λ x. (x.0, x.1.now)) result (some_refinement_at tokens.now) }
{
    if starts_with(tokens, "decomposed") {
        let (place, chart, rest) = refinement(alloc, tokens)?;
        return Ok((Some((place, chart)), rest));
    }
    Ok((None, tokens))
}

/// The declaration of these parts.
fn made_decl(name: Name, place: Place, kind: Names, refinement: Option<(Place, Name)>) -> Decl
    ensures { result ≡ decl_of (name, place) kind refinement }
{
    match refinement {
        Some((place, chart)) => Decl {
            name,
            kind,
            refined: Some(chart),
            place,
        },
        None => Decl {
            name,
            kind,
            refined: None,
            place,
        },
    }
}

/// The declaration of an instance (Z.120, clause 4.2).
pub fn decl(alloc: Global, tokens: &[Token]) -> Result<(Decl, &[Token]), ReadFault>
    ensures { Gives (λ x. (x.0, x.1.now)) result (decl_at tokens.now) }
{
    let (name, place, rest) = placed_name(alloc, tokens)?;
    let (kind, rest) = colon_kind(alloc, rest)?;
    let (refinement, rest) = some_refinement(alloc, rest)?;
    Ok((made_decl(name, place, kind, refinement), rest))
}

/// A declaration behind a comma.
fn comma_decl(alloc: Global, tokens: &[Token]) -> Result<(Decl, &[Token]), ReadFault>
    ensures { Gives (λ x. (x.0, x.1.now)) result (comma_decl_at tokens.now) }
{
    let (_comma, rest) = word(tokens, ",")?;
    decl(alloc, rest)
}

/// Other declarations, each behind a comma, appended to the list.
pub fn more_decls(
    alloc: Global,
    tokens: &[Token],
    prefix: DeclList,
) -> Result<(DeclList, &[Token]), ReadFault>
    ensures { Gives (λ x. (x.0, x.1.now)) result (more_decls_at prefix (length tokens.now) tokens.now) }
{
    let mut decls = prefix;
    let mut rest = tokens;
    for _k in 0..tokens.len() {
        if !starts_with(rest, ",") {
            break;
        }
        match comma_decl(alloc, rest) {
            Ok((decl, behind)) => {
                decls.push(decl)?;
                rest = behind;
            }
            Err(fault) => return Err(fault),
        }
    }
    Ok((decls, rest))
}

/// Declarations with commas between them.
pub fn decls(alloc: Global, tokens: &[Token]) -> Result<(DeclList, &[Token]), ReadFault>
    ensures { Gives (λ x. (x.0, x.1.now)) result (decl_list_at tokens.now) }
{
    let (first, rest) = decl(alloc, tokens)?;
    let mut decls = Items::new(alloc);
    decls.push(first)?;
    more_decls(alloc, rest, decls)
}

/// Behind the colon of a statement, the declaration of the instance that leads it (Z.120, clause 4.2).
pub fn declared(
    alloc: Global,
    name: Name,
    place: Place,
    tokens: &[Token],
) -> Result<(Decl, &[Token]), ReadFault>
    ensures { Gives (λ x. (x.0, x.1.now)) result (declared_at (name, place) tokens.now) }
{
    let (_instance, rest) = word(tokens, "instance")?;
    let (kind, rest) = some_kind(alloc, rest)?;
    let (refinement, rest) = some_refinement(alloc, rest)?;
    let rest = ending(rest)?;
    Ok((made_decl(name, place, kind, refinement), rest))
}
