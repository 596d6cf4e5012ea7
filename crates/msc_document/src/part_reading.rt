//! A document's text read part by part, so that the tokens of a few charts alone are held: for msc_cmd.

ghost use Rattle.std.specs.Prelude.{◌≡◌, ◌<◌, ◌≤◌, ◌+◌, ◌^◌, ℕ, List, length, IfOk, IfSome, OnOk, []};
ghost use Rattle.std.specs.Bool.{OnTrue};
ghost use Rattle.msc_base.specs.declared.limits.TheConstants.Limits.{NESTING};
ghost use Rattle.msc_tree.specs.Views.{document_view};
ghost use Rattle.msc_document.specs.DocumentParts.{Continues, Ends, HasRead, IsNew, IsWritten, Moves};

use crate::chart::chart;
use crate::document::some_end;
use msc_base::{Limits, NoMemory};
use msc_events::heading;
use msc_tokens::{LexFault, PartLexer, Token};
use msc_tree::RawDocument;
use std::alloc::Global;
use token_grammar::{ReadFault, starts_with};

/// In how many bytes of the text the ends of charts are looked for.
const PART_BYTES: usize = 8_192;

/// Behind the last `endmsc;` of the text that has a byte behind it, and behind this byte; 0 where there is none.
fn last_end(text: &[u8]) -> usize
    ensures { result ≤ length text.now }
{
    let mut rest = text;
    while let Some((last, front)) = rest.split_last() {
        if *last == b';' && rest.len() < text.len() && front.ends_with(b"endmsc") {
            return rest.len() + 1;
        }
        rest = front;
    }
    0
}

/// Whether nothing of the document has been read.
fn is_new(document: &RawDocument) -> bool
    ensures { OnTrue result (IsNew (document_view document.now)) }
{
    document.heading.is_none() && document.charts.is_empty()
}

/// Reads the heading, where the document begins with one.
fn take_heading<'a>(
    alloc: Global,
    tokens: &'a [Token],
    levels: usize,
    document: &mut RawDocument,
) -> Result<&'a [Token], ReadFault>
    ensures { IfOk result (λ rest. Continues levels tokens.now rest.now (document_view document.old) (document_view document.new)) }
{
    if !is_new(document) {
        return Ok(tokens);
    }
    if !starts_with(tokens, "mscdocument") {
        return Ok(tokens);
    }
    let (heading, rest) = heading(alloc, tokens)?;
    document.heading = Some(heading);
    Ok(rest)
}

/// Reads what the tokens go on with up to the document's end: the heading, where the document begins with one, and charts.
fn take_part<'a>(
    alloc: Global,
    tokens: &'a [Token],
    levels: usize,
    document: &mut RawDocument,
) -> Result<&'a [Token], ReadFault>
    ensures { IfOk result (λ rest. Continues levels tokens.now rest.now (document_view document.old) (document_view document.new)) }
{
    let mut rest = take_heading(alloc, tokens, levels, document)?;
    for _k in 0..tokens.len() {
        if !starts_with(rest, "msc") {
            break;
        }
        let (chart, behind) = chart(alloc, rest, levels)?;
        document.charts.push(chart)?;
        rest = behind;
    }
    Ok(rest)
}

/// Reads charts that all the tokens are.
fn take_all_charts(
    alloc: Global,
    tokens: &[Token],
    levels: usize,
    document: &mut RawDocument,
) -> Result<(), ReadFault>
    ensures { OnOk result (Continues levels tokens.now [] (document_view document.old) (document_view document.new)) }
{
    let rest = take_part(alloc, tokens, levels, document)?;
    if rest.is_empty() {
        Ok(())
    } else {
        Err(ReadFault::Refused(rest.len()))
    }
}

/// Takes the next bytes of the text, and reads the charts that end in them.
fn take_window<'a>(
    alloc: Global,
    text: &'a [u8],
    levels: usize,
    lexer: &mut PartLexer,
    document: &mut RawDocument,
) -> Result<&'a [u8], ReadFault>
    requires some { 0 < length text.now }
    requires room { lexer.old.place.byte + length text.now < 2 ^ 63 }
    ensures moves { IfOk result (λ behind. Moves levels text.now behind.now lexer.old (document_view document.old) lexer.new (document_view document.new)) }
    ensures fewer { IfOk result (λ behind. length behind.now < length text.now) }
    ensures count { IfOk result (λ behind. lexer.new.place.byte + length behind.now ≤ lexer.old.place.byte + length text.now) }
{
    let (window, others) = text.split_at(PART_BYTES.min(text.len()));
    let end = last_end(window);
    if end == 0 {
        lexer.feed(window)?;
        return Ok(others);
    }
    let (part, behind) = text.split_at(end);
    lexer.feed(part)?;
    let tokens = lexer.take_tokens();
    take_all_charts(alloc, tokens.as_slice(), levels, document)?;
    Ok(behind)
}

/// Reads what is left of the document, and its end.
fn take_rest(
    alloc: Global,
    tokens: &[Token],
    levels: usize,
    document: &mut RawDocument,
) -> Result<(), ReadFault>
    ensures { OnOk result (Ends levels tokens.now (document_view document.old) (document_view document.new)) }
{
    let rest = take_part(alloc, tokens, levels, document)?;
    let left = some_end(rest)?;
    if left.is_empty() {
        Ok(())
    } else {
        Err(ReadFault::Refused(left.len()))
    }
}

/// Ends the text, and reads what is left of its document.
fn finish(
    alloc: Global,
    lexer: PartLexer,
    levels: usize,
    document: RawDocument,
) -> Result<RawDocument, ReadFault>
    ensures { (bytes : List ℕ) → HasRead levels bytes lexer (document_view document) → IfOk result (λ read. IsWritten levels bytes (document_view read)) }
{
    let mut document = document;
    match lexer.finish() {
        Ok(list) => {
            take_rest(alloc, list.as_slice(), levels, &mut document)?;
            Ok(document)
        }
        Err(LexFault::NoMemory) => Err(ReadFault::NoMemory),
        Err(_) => Err(ReadFault::Refused(0)),
    }
}

/// The document that the text is, where so many levels may be opened.
fn read_text(alloc: Global, text: &[u8], levels: usize) -> Result<RawDocument, ReadFault>
    requires { length text.now < 2 ^ 63 }
    ensures { IfOk result (λ read. IsWritten levels text.now (document_view read)) }
{
    let mut lexer = PartLexer::new(alloc);
    let mut document = RawDocument {
        heading: None,
        charts: Vec::new(alloc),
    };
    let mut rest = text;
    while !rest.is_empty() {
        rest = take_window(alloc, rest, levels, &mut lexer, &mut document)?;
    }
    finish(alloc, lexer, levels, document)
}

/// The document that the text is. It is read part by part, so that the tokens of a few charts alone are held.
///
/// Where there is none, it isn't read so, which says nothing of why: `parse` tells what is wrong, if anything is.
pub fn read_by_parts(alloc: Global, text: &[u8]) -> Result<Option<RawDocument>, NoMemory>
    requires { length text.now < 2 ^ 63 }
    ensures { IfOk result (λ read. IfSome read (λ document. IsWritten NESTING text.now (document_view document))) }
{
    match read_text(alloc, text, Limits::NESTING as usize) {
        Ok(document) => Ok(Some(document)),
        Err(ReadFault::NoMemory) => Err(NoMemory),
        Err(_) => Ok(None),
    }
}
