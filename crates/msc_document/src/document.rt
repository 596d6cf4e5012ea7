//! A document with or without heading: for `parsing` and `part_reading`. It counts no place and no limit.

ghost use Rattle.std.specs.Prelude.{◌≡◌, [], ◌∷◌, length, map};
ghost use Rattle.msc_tree.specs.Views.{chart_view, document_view};
ghost use Rattle.token_grammar.specs.Answers.{Gives};
ghost use Rattle.msc_document.specs.DocumentReaders.{document_end_at, document_at};
ghost use Rattle.msc_document.specs.ChartReaders.{more_charts_at, charts_at, some_charts_at, some_end_at, headed_at, unheaded_at, some_document_at};

use crate::chart::chart;
use msc_events::heading;
use msc_tokens::Token;
use msc_tree::{RawChart, RawDocument};
use std::alloc::Global;
use token_grammar::{ReadFault, ending, starts_with, word};

/// Other charts, appended to those that there are.
fn more_charts(
    alloc: Global,
    tokens: &[Token],
    levels: usize,
    prefix: Vec<RawChart>,
) -> Result<(Vec<RawChart>, &[Token]), ReadFault>
    ensures { Gives (λ x. (map chart_view x.0.items, x.1.now)) result (more_charts_at levels (map chart_view prefix.items) (length tokens.now) tokens.now) }
{
    let mut charts = prefix;
    let mut rest = tokens;
    for _k in 0..tokens.len() {
        if !starts_with(rest, "msc") {
            break;
        }
        match chart(alloc, rest, levels) {
            Ok((chart, behind)) => {
                charts.push(chart)?;
                rest = behind;
            }
            Err(fault) => return Err(fault),
        }
    }
    Ok((charts, rest))
}

/// Charts, if there are any.
fn charts(
    alloc: Global,
    tokens: &[Token],
    levels: usize,
) -> Result<(Vec<RawChart>, &[Token]), ReadFault>
    ensures { Gives (λ x. (map chart_view x.0.items, x.1.now)) result (charts_at levels tokens.now) }
{
    more_charts(alloc, tokens, levels, Vec::new(alloc))
}

/// One chart, and others.
fn some_charts(
    alloc: Global,
    tokens: &[Token],
    levels: usize,
) -> Result<(Vec<RawChart>, &[Token]), ReadFault>
    ensures { Gives (λ x. (map chart_view x.0.items, x.1.now)) result (some_charts_at levels tokens.now) }
{
    let (first, rest) = chart(alloc, tokens, levels)?;
    let mut prefix = Vec::new(alloc);
    prefix.push(first)?;
    more_charts(alloc, rest, levels, prefix)
}

/// The end of a document.
fn document_end(tokens: &[Token]) -> Result<&[Token], ReadFault>
    ensures { Gives (λ x. (tt, x.now)) result (document_end_at tokens.now) }
{
    let (_endmscdocument, rest) = word(tokens, "endmscdocument")?;
    ending(rest)
}

/// The end of a document, where there is one.
pub fn some_end(tokens: &[Token]) -> Result<&[Token], ReadFault>
    ensures { Gives (λ x. (tt, x.now)) result (some_end_at tokens.now) }
{
    if starts_with(tokens, "endmscdocument") {
        let rest = document_end(tokens)?;
        return Ok(rest);
    }
    Ok(tokens)
}

/// A document with a heading.
fn headed(
    alloc: Global,
    tokens: &[Token],
    levels: usize,
) -> Result<(RawDocument, &[Token]), ReadFault>
    ensures { Gives (λ x. (document_view x.0, x.1.now)) result (headed_at levels tokens.now) }
{
    let (heading, rest) = heading(alloc, tokens)?;
    let (charts, rest) = charts(alloc, rest, levels)?;
    let rest = some_end(rest)?;
    Ok((
        RawDocument {
            heading: Some(heading),
            charts,
        },
        rest,
    ))
}

/// A document without heading, with at least one chart.
fn unheaded(
    alloc: Global,
    tokens: &[Token],
    levels: usize,
) -> Result<(RawDocument, &[Token]), ReadFault>
    ensures { Gives (λ x. (document_view x.0, x.1.now)) result (unheaded_at levels tokens.now) }
{
    let (charts, rest) = some_charts(alloc, tokens, levels)?;
    let rest = some_end(rest)?;
    Ok((
        RawDocument {
            heading: None,
            charts,
        },
        rest,
    ))
}

/// A document with at least one token.
fn some_document(
    alloc: Global,
    tokens: &[Token],
    levels: usize,
) -> Result<(RawDocument, &[Token]), ReadFault>
    ensures { Gives (λ x. (document_view x.0, x.1.now)) result (some_document_at levels tokens.now) }
{
    if starts_with(tokens, "mscdocument") {
        return headed(alloc, tokens, levels);
    }
    if starts_with(tokens, "msc") {
        return unheaded(alloc, tokens, levels);
    }
    let rest = document_end(tokens)?;
    let empty = RawDocument {
        heading: None,
        charts: Vec::new(alloc),
    };
    Ok((empty, rest))
}

/// A document, where so many levels may be opened in it (Z.120, clause 3).
pub fn document(
    alloc: Global,
    tokens: &[Token],
    levels: usize,
) -> Result<(RawDocument, &[Token]), ReadFault>
    ensures { Gives (λ x. (document_view x.0, x.1.now)) result (document_at levels tokens.now) }
{
    match tokens.split_first() {
        Some(_) => some_document(alloc, tokens, levels),
        None => {
            let empty = RawDocument {
                heading: None,
                charts: Vec::new(alloc),
            };
            Ok((empty, tokens))
        }
    }
}
