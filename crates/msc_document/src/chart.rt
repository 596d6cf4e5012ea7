//! A chart: heads, then statements or a graph. For `document` and `part_reading`.

ghost use Rattle.std.specs.Prelude.{◌≡◌, ◌++◌, codes};
ghost use Rattle.msc_tree.specs.Views.{content_view, chart_view};
ghost use Rattle.token_grammar.specs.Answers.{Gives};
ghost use Rattle.token_grammar.specs.Languages.{starts, just};
ghost use Rattle.msc_document.specs.DocumentReaders.{chart_words, chart_end_at, content_at, chart_at};
ghost use Rattle.msc_document.specs.ChartReaders.{chart_parts_at};

use crate::statements::chart_statements;
use msc_events::heads;
use msc_expression::graph;
use msc_tokens::Token;
use msc_tree::{Content, RawChart};
use std::alloc::Global;
use token_grammar::{
    ReadFault, ending, own_name, starts_with, starts_with_either, starts_with_lead, word,
};

/// Whether the tokens start with a statement of a chart, or with the chart's end.
fn starts_with_statement(tokens: &[Token]) -> bool
    ensures { result ≡ starts (chart_words ++ just (codes "endmsc")) tokens.now }
{
    starts_with(tokens, "instance")
        || starts_with_lead(tokens)
        || starts_with_either(tokens, "all", "endmsc")
}

/// The end of a chart.
fn chart_end(tokens: &[Token]) -> Result<&[Token], ReadFault>
    ensures { Gives (λ x. (tt, x.now)) result (chart_end_at tokens.now) }
{
    let (_endmsc, rest) = word(tokens, "endmsc")?;
    ending(rest)
}

/// What a chart holds, and its end: statements, or a graph (Z.120, clauses 4.1 and 7.5).
fn content(alloc: Global, tokens: &[Token], levels: usize) -> Result<(Content, &[Token]), ReadFault>
    ensures { Gives (λ x. (content_view x.0, x.1.now)) result (content_at levels tokens.now) }
{
    if starts_with_statement(tokens) {
        let (held, rest) = chart_statements(alloc, tokens, levels)?;
        let rest = ending(rest)?;
        return Ok((Content::Events(held), rest));
    }
    let (held, rest) = graph(alloc, tokens, levels)?;
    let rest = chart_end(rest)?;
    Ok((Content::Graph(held), rest))
}

/// A chart, part by part.
fn chart_parts(
    alloc: Global,
    tokens: &[Token],
    levels: usize,
) -> Result<(RawChart, &[Token]), ReadFault>
    ensures { Gives (λ x. (chart_view x.0, x.1.now)) result (chart_parts_at levels tokens.now) }
{
    let (first, rest) = word(tokens, "msc")?;
    let (name, rest) = own_name(alloc, rest)?;
    let rest = ending(rest)?;
    let (declared, rest) = heads(alloc, rest)?;
    let (content, rest) = content(alloc, rest, levels)?;
    Ok((
        RawChart {
            name,
            place: first.place,
            decls: declared.decls,
            messages: declared.messages,
            timers: declared.timers,
            content,
        },
        rest,
    ))
}

/// A chart, where so many levels may be opened in it (Z.120, clause 4.1).
pub fn chart(
    alloc: Global,
    tokens: &[Token],
    levels: usize,
) -> Result<(RawChart, &[Token]), ReadFault>
    ensures { Gives (λ x. (chart_view x.0, x.1.now)) result (chart_at levels tokens.now) }
{
    chart_parts(alloc, tokens, levels)
}
