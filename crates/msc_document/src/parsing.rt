//! From a list of tokens to the document, or the first fault with its place: `parse`, which msc_cmd calls.

ghost use Rattle.std.specs.Prelude.{◌≡◌, ◌++◌, ◌∷◌, List, ℕ, IfOk, IfErr, length};
ghost use Rattle.msc_base.specs.declared.limits.TheConstants.Limits.{NESTING};
ghost use Rattle.msc_tokens.specs.declared.token.Token.{Token};
ghost use Rattle.msc_tree.specs.Charts.{Document};
ghost use Rattle.msc_tree.specs.Views.{document_view};
ghost use Rattle.token_grammar.specs.declared.fault.ParseFault.{ParseFault};
ghost use Rattle.token_grammar.specs.declared.fault.ParseFault.TheVariants.{TooDeep};
ghost use Rattle.token_grammar.specs.Refusals.{IsFault, IsRefusal};
ghost use Rattle.msc_document.specs.DocumentGrammar.{document};
ghost use Rattle.msc_document.specs.DocumentAnswers.{IsAnswer};

use crate::document::document;
use msc_base::{Limits, Place};
use msc_tokens::{Token, TokenList};
use msc_tree::RawDocument;
use std::alloc::Global;
use token_grammar::{ParseFault, ReadFault, refusal};

/// That the first of the last so many tokens opens a level too many.
fn too_deep(tokens: &[Token], left: usize, end: Place) -> ParseFault
    ensures { (prefix rest : List Token) (token : Token) → tokens.now ≡ prefix ++ token ∷ rest → left ≡ length (token ∷ rest) → result ≡ TooDeep token.place }
{
    if left > tokens.len() {
        return ParseFault::TooDeep(end);
    }
    let rest = &tokens[tokens.len() - left..];
    match rest.split_first() {
        Some((token, _)) => ParseFault::TooDeep(token.place),
        None => ParseFault::TooDeep(end),
    }
}

/// The document that the tokens are, of a text that ends there, where so many levels may be opened.
fn read_document(
    alloc: Global,
    tokens: &[Token],
    levels: usize,
    end: Place,
) -> Result<RawDocument, ParseFault>
    ensures { IsAnswer levels tokens.now end result }
{
    match document(alloc, tokens, levels) {
        Ok((document, rest)) => {
            if rest.is_empty() {
                Ok(document)
            } else {
                Err(refusal(tokens, rest.len(), end))
            }
        }
        Err(ReadFault::Refused(left)) => Err(refusal(tokens, left, end)),
        Err(ReadFault::TooDeep(left)) => Err(too_deep(tokens, left, end)),
        Err(ReadFault::NoMemory) => Err(ParseFault::NoMemory),
    }
}

/// The document that the tokens are (Z.120, clause 3). At most 64 levels are open at a place: each `begin` opens one,
/// and so does each parenthesis, `loop` and `opt` of a reference's expression and each `expr` of a frame.
///
/// Where they are none, the first fault is answered: the token with which they begin no document, or the text's end
/// where they are only a prefix of one, or the token that opens level 65.
pub fn parse(alloc: Global, tokens: &TokenList) -> Result<RawDocument, ParseFault>
    ensures ok { IfOk result (λ read. (document NESTING).reads tokens.now.tokens (document_view read)) }
    ensures only { IfOk result (λ read. (levels : ℕ) (other : Document) → (document levels).reads tokens.now.tokens other → other ≡ document_view read) }
    ensures faultless { IfOk result (λ read. (fault : ParseFault) → IsFault document NESTING tokens.now.tokens tokens.now.end_place fault → ⊥) }
    ensures none { IfErr result (λ fault. IsRefusal fault → (other : Document) → (document NESTING).reads tokens.now.tokens other → ⊥) }
    ensures place { IfErr result (λ fault. IsRefusal fault → IsFault document NESTING tokens.now.tokens tokens.now.end_place fault) }
    ensures only_fault { IfErr result (λ fault. IsRefusal fault → (other : ParseFault) → IsFault document NESTING tokens.now.tokens tokens.now.end_place other → other ≡ fault) }
{
    read_document(
        alloc,
        tokens.as_slice(),
        Limits::NESTING as usize,
        tokens.end_place(),
    )
}
