//! The heads of a chart, appended to what was declared: for the reader of charts in msc_document.

ghost use Rattle.std.specs.Prelude.{◌≡◌, codes};
ghost use Rattle.token_grammar.specs.Answers.{Gives};
ghost use Rattle.token_grammar.specs.Languages.{starts};
ghost use Rattle.msc_events.specs.DeclarationReaders.{decls_onto_at, names_onto_at, line_at, decls_head_at, messages_head_at, timers_head_at, next_head_at, head_words, heads_at};

use crate::declaration::{decl, more_decls};
use crate::head_parts::Heads;
use msc_base::{Items, Names};
use msc_tokens::Token;
use msc_tree::DeclList;
use std::alloc::Global;
use token_grammar::{
    ReadFault, ending, more_names, own_name, starts_with, starts_with_either, word,
};

/// Declarations with commas between them, appended to the list.
fn decls_onto(
    alloc: Global,
    tokens: &[Token],
    prefix: DeclList,
) -> Result<(DeclList, &[Token]), ReadFault>
    ensures { Gives (λ x. (x.0, x.1.now)) result (decls_onto_at prefix tokens.now) }
{
    let (first, rest) = decl(alloc, tokens)?;
    let mut decls = prefix;
    decls.push(first)?;
    more_decls(alloc, rest, decls)
}

/// Names with commas between them, appended to the list.
fn names_onto(
    alloc: Global,
    tokens: &[Token],
    prefix: Names,
) -> Result<(Names, &[Token]), ReadFault>
    ensures { Gives (λ x. (x.0, x.1.now)) result (names_onto_at prefix tokens.now) }
{
    let (first, rest) = own_name(alloc, tokens)?;
    let mut names = prefix;
    names.push(first)?;
    more_names(alloc, rest, names)
}

/// A line of declarations, appended to the list.
fn decls_line(
    alloc: Global,
    tokens: &[Token],
    prefix: DeclList,
) -> Result<(DeclList, &[Token]), ReadFault>
    ensures { Gives (λ x. (x.0, x.1.now)) result (line_at (codes "inst") (decls_onto_at prefix) tokens.now) }
{
    let (_inst, rest) = word(tokens, "inst")?;
    let (decls, rest) = decls_onto(alloc, rest, prefix)?;
    let rest = ending(rest)?;
    Ok((decls, rest))
}

/// A line of names behind this word, appended to the list.
fn names_line<'a>(
    alloc: Global,
    tokens: &'a [Token],
    text: &str,
    prefix: Names,
) -> Result<(Names, &'a [Token]), ReadFault>
    ensures { Gives (λ x. (x.0, x.1.now)) result (line_at text.now (names_onto_at prefix) tokens.now) }
{
    let (_word, rest) = word(tokens, text)?;
    let (names, rest) = names_onto(alloc, rest, prefix)?;
    let rest = ending(rest)?;
    Ok((names, rest))
}

/// The declarations of instances of one head, behind what was declared (Z.120, clause 4.2).
fn decls_head(
    alloc: Global,
    tokens: &[Token],
    prefix: Heads,
) -> Result<(Heads, &[Token]), ReadFault>
    ensures { Gives (λ x. (x.0, x.1.now)) result (decls_head_at prefix tokens.now) }
{
    match decls_line(alloc, tokens, prefix.decls) {
        Ok((decls, rest)) => Ok((
            Heads {
                decls,
                messages: prefix.messages,
                timers: prefix.timers,
            },
            rest,
        )),
        Err(fault) => Err(fault),
    }
}

/// The messages of one head, behind what was declared.
fn messages_head(
    alloc: Global,
    tokens: &[Token],
    prefix: Heads,
) -> Result<(Heads, &[Token]), ReadFault>
    ensures { Gives (λ x. (x.0, x.1.now)) result (messages_head_at prefix tokens.now) }
{
    let (messages, rest) = names_line(alloc, tokens, "msg", prefix.messages)?;
    Ok((
        Heads {
            decls: prefix.decls,
            messages,
            timers: prefix.timers,
        },
        rest,
    ))
}

/// The timers of one head, behind what was declared.
fn timers_head(
    alloc: Global,
    tokens: &[Token],
    prefix: Heads,
) -> Result<(Heads, &[Token]), ReadFault>
    ensures { Gives (λ x. (x.0, x.1.now)) result (timers_head_at prefix tokens.now) }
{
    let (timers, rest) = names_line(alloc, tokens, "timer", prefix.timers)?;
    Ok((
        Heads {
            decls: prefix.decls,
            messages: prefix.messages,
            timers,
        },
        rest,
    ))
}

/// One head of a chart, behind what was declared (Z.120, clause 4.1).
fn next_head(alloc: Global, tokens: &[Token], prefix: Heads) -> Result<(Heads, &[Token]), ReadFault>
    ensures { Gives (λ x. (x.0, x.1.now)) result (next_head_at prefix tokens.now) }
{
    if starts_with(tokens, "inst") {
        return decls_head(alloc, tokens, prefix);
    }
    if starts_with(tokens, "msg") {
        return messages_head(alloc, tokens, prefix);
    }
    timers_head(alloc, tokens, prefix)
}

/// Whether the tokens start with a head of a chart.
fn starts_with_head(tokens: &[Token]) -> bool
    ensures { result ≡ starts head_words tokens.now }
{
    starts_with_either(tokens, "inst", "msg") || starts_with(tokens, "timer")
}

/// What the heads of a chart declare that the tokens start with (Z.120, clause 4.1).
pub fn heads(alloc: Global, tokens: &[Token]) -> Result<(Heads, &[Token]), ReadFault>
    ensures { Gives (λ x. (x.0, x.1.now)) result (heads_at tokens.now) }
{
    let mut declared = Heads {
        decls: Items::new(alloc),
        messages: Items::new(alloc),
        timers: Items::new(alloc),
    };
    let mut rest = tokens;
    for _k in 0..tokens.len() {
        if !starts_with_head(rest) {
            break;
        }
        match next_head(alloc, rest, declared) {
            Ok((more, behind)) => {
                declared = more;
                rest = behind;
            }
            Err(fault) => return Err(fault),
        }
    }
    Ok((declared, rest))
}
