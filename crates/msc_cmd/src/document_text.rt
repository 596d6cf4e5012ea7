//! What the bytes of a document are as a text, before any rule on charts: for `reading`, `printing` and `sampling`.

ghost use Rattle.std.specs.Prelude.{◌≡◌, ◌≤◌, ℕ, List, IfOk, IfSome, length};
ghost use Rattle.msc_base.specs.declared.limits.TheConstants.Limits.{DOCUMENT_BYTES};
ghost use Rattle.msc_tokens.specs.Places.{first_place, past};
ghost use Rattle.msc_cmd.specs.DocumentTexts.{BreaksGrammar, BreaksRule, IsTheText, ParsesAs};
ghost use Rattle.msc_cmd.specs.Intakes.{HasTaken, IsPrefixOf};

use crate::intake::Intake;
use msc_base::{Limits, NoMemory, Place};
use msc_document::{parse, read_by_parts};
use msc_rules::Rule;
use msc_tokens::{LexFault, TokenList, lex_all, place_behind};
use msc_tree::RawDocument;
use std::alloc::Global;
use token_grammar::ParseFault;

/// What the bytes of a document are as a text.
#[derive(Drop)]
pub enum DocumentText {
    /// A text of this document.
    Read(RawDocument),
    /// The first rule that the text breaks, and where.
    Refused(Rule, Place),
}

/// The rule that a fault of the bytes breaks, and its place; none for want of memory.
fn broken_by(fault: &LexFault) -> Option<(Rule, Place)>
    ensures { IfSome result (λ b. BreaksRule fault.now b.0 b.1) }
{
    match *fault {
        LexFault::BadByte(at) => Some((Rule::BadByte, at)),
        LexFault::OpenString(at) => Some((Rule::OpenString, at)),
        LexFault::OpenNote(at) => Some((Rule::OpenNote, at)),
        LexFault::LongName(at) => Some((Rule::LongName, at)),
        LexFault::NoMemory => None,
    }
}

/// The rule that a fault of the tokens breaks, and its place; none for want of memory.
fn misread_by(fault: &ParseFault) -> Option<(Rule, Place)>
    ensures { IfSome result (λ b. BreaksGrammar fault.now b.0 b.1) }
{
    match *fault {
        ParseFault::Syntax(at) => Some((Rule::Syntax, at)),
        ParseFault::Unsupported(form, at) => Some((Rule::Unsupported(form), at)),
        ParseFault::TooDeep(at) => Some((Rule::TooDeep, at)),
        ParseFault::NoMemory => None,
    }
}

/// What tokens are by the grammar. The tokens are dropped: they take more memory than the document.
fn parsed(alloc: Global, tokens: TokenList) -> Result<DocumentText, NoMemory>
    ensures { IfOk result (ParsesAs tokens.tokens tokens.end_place) }
{
    match parse(alloc, &tokens) {
        Ok(document) => Ok(DocumentText::Read(document)),
        Err(fault) => match misread_by(&fault) {
            Some((rule, there)) => Ok(DocumentText::Refused(rule, there)),
            None => Err(NoMemory),
        },
    }
}

/// What a text is, from its tokens as a whole.
fn whole_text(alloc: Global, text: &[u8]) -> Result<DocumentText, NoMemory>
    requires { length text.now ≤ DOCUMENT_BYTES }
    ensures { IfOk result (IsTheText text.now) }
{
    match lex_all(alloc, text) {
        Ok(tokens) => parsed(alloc, tokens),
        Err(fault) => match broken_by(&fault) {
            Some((broken, at)) => Ok(DocumentText::Refused(broken, at)),
            None => Err(NoMemory),
        },
    }
}

/// What a text is. Where it isn't read part by part, it is looked at as a whole.
pub fn read_text(alloc: Global, text: &[u8]) -> Result<DocumentText, NoMemory>
    requires { length text.now ≤ DOCUMENT_BYTES }
    ensures { IfOk result (IsTheText text.now) }
{
    match read_by_parts(alloc, text)? {
        Some(document) => Ok(DocumentText::Read(document)),
        None => whole_text(alloc, text),
    }
}

/// The place behind a text.
fn end_of(text: &[u8]) -> Place
    requires { length text.now ≤ DOCUMENT_BYTES }
    ensures { result ≡ past first_place text.now }
{
    let first = Place {
        byte: 0,
        line: 1,
        column: 1,
    };
    place_behind(first, text)
}

/// What the text of the document that has been taken is.
pub fn text_of(alloc: Global, intake: Intake) -> Result<DocumentText, NoMemory>
    ensures { (prefix : List ℕ) (bytes : List ℕ) → HasTaken prefix intake → IsPrefixOf prefix bytes → IfOk result (IsTheText bytes) }
{
    if intake.count > Limits::DOCUMENT_BYTES {
        return Ok(DocumentText::Refused(Rule::Bytes, end_of(intake.text.as_slice())));
    }
    read_text(alloc, intake.text.as_slice())
}
