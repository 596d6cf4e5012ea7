//! Reference expressions by precedence, and level by level: for nodes of graphs, and for references in msc_document.

ghost use Rattle.std.specs.Prelude.{◌≡◌, ◌∷◌, [], map};
ghost use Rattle.msc_tree.specs.Views.{expression_view};
ghost use Rattle.token_grammar.specs.Answers.{Gives};
ghost use Rattle.token_grammar.specs.Languages.{starts, just};
ghost use Rattle.msc_expression.specs.ExpressionGrammar.{joined};
ghost use Rattle.msc_expression.specs.ExpressionReaders.{word_of, join_of, part_at, next_part_at, more_parts_at, other_parts_at, parts_at, loop_rest_at, opt_rest_at, closed_at, prefix_at, form_at, expression_at};

use crate::bounds::loop_bounds;
use crate::level::open;
use msc_tokens::Token;
use msc_tree::RefExpr;
use std::alloc::Global;
use token_grammar::{ReadFault, own_name, starts_with, word};

/// What stands between parts of an expression.
#[derive(Clone, Copy, Debug, PartialEq, Eq)]
enum Operator {
    Alt,
    Par,
    Seq,
}

impl Operator {
    /// Its word.
    fn word(self) -> &'static str
        ensures { result.now ≡ word_of self }
    {
        match self {
            Operator::Alt => "alt",
            Operator::Par => "par",
            Operator::Seq => "seq",
        }
    }

    /// Whether the tokens start with it.
    fn starts(self, tokens: &[Token]) -> bool
        ensures { result ≡ starts (just (word_of self)) tokens.now }
    {
        starts_with(tokens, self.word())
    }

    /// The expression of the parts; a single part is itself.
    fn join(self, mut parts: Vec<RefExpr>) -> RefExpr
        ensures { expression_view result ≡ joined (join_of self) (map expression_view parts.items) }
    {
        if parts.len() == 1 {
            if let Some(part) = parts.pop() {
                return part;
            }
        }
        match self {
            Operator::Alt => RefExpr::Alt(parts),
            Operator::Par => RefExpr::Par(parts),
            Operator::Seq => RefExpr::Seq(parts),
        }
    }
}

/// The expression of a reference or of a node, where so many levels may still be opened.
pub fn expression(
    alloc: Global,
    tokens: &[Token],
    levels: usize,
) -> Result<(RefExpr, &[Token]), ReadFault>
    ensures { Gives (λ x. (expression_view x.0, x.1.now)) result (expression_at levels tokens.now) }
{
    parts(alloc, tokens, levels, Operator::Alt)
}

/// Parts with the operator between them, as one expression.
#[cycle(expressions)]
fn parts(
    alloc: Global,
    tokens: &[Token],
    levels: usize,
    operator: Operator,
) -> Result<(RefExpr, &[Token]), ReadFault>
    ensures { Gives (λ x. (expression_view x.0, x.1.now)) result (parts_at operator (part_at operator (prefix_at levels)) tokens.now) }
{
    let (first, rest) = part(alloc, tokens, levels, operator)?;
    other_parts(alloc, rest, levels, operator, first)
}

/// What stands between two such operators.
#[cycle(expressions)]
fn part(
    alloc: Global,
    tokens: &[Token],
    levels: usize,
    operator: Operator,
) -> Result<(RefExpr, &[Token]), ReadFault>
    ensures { Gives (λ x. (expression_view x.0, x.1.now)) result (part_at operator (prefix_at levels) tokens.now) }
{
    match operator {
        Operator::Alt => parts(alloc, tokens, levels, Operator::Par),
        Operator::Par => parts(alloc, tokens, levels, Operator::Seq),
        Operator::Seq => prefix(alloc, tokens, levels),
    }
}

/// The expression of a first part and of those behind it.
#[cycle(expressions)]
fn other_parts(
    alloc: Global,
    tokens: &[Token],
    levels: usize,
    operator: Operator,
    first: RefExpr,
) -> Result<(RefExpr, &[Token]), ReadFault>
    ensures { Gives (λ x. (expression_view x.0, x.1.now)) result (other_parts_at operator (part_at operator (prefix_at levels)) (expression_view first) tokens.now) }
{
    if !operator.starts(tokens) {
        return Ok((first, tokens));
    }
    let mut front = Vec::new(alloc);
    front.push(first)?;
    let (parts, rest) = more_parts(alloc, tokens, levels, operator, front)?;
    Ok((operator.join(parts), rest))
}

/// Other parts, each behind the operator, appended to those that there are.
#[cycle(expressions)]
fn more_parts(
    alloc: Global,
    tokens: &[Token],
    levels: usize,
    operator: Operator,
    front: Vec<RefExpr>,
) -> Result<(Vec<RefExpr>, &[Token]), ReadFault>
    ensures { Gives (λ x. (map expression_view x.0.items, x.1.now)) result (more_parts_at operator (part_at operator (prefix_at levels)) (map expression_view front.items) tokens.now) }
{
    let mut parts = front;
    let mut rest = tokens;
    for _k in 0..tokens.len() {
        if !operator.starts(rest) {
            break;
        }
        match next_part(alloc, rest, levels, operator) {
            Ok((part, behind)) => {
                parts.push(part)?;
                rest = behind;
            }
            Err(fault) => return Err(fault),
        }
    }
    Ok((parts, rest))
}

/// A part behind the operator.
#[cycle(expressions)]
fn next_part(
    alloc: Global,
    tokens: &[Token],
    levels: usize,
    operator: Operator,
) -> Result<(RefExpr, &[Token]), ReadFault>
    ensures { Gives (λ x. (expression_view x.0, x.1.now)) result (next_part_at operator (part_at operator (prefix_at levels)) tokens.now) }
{
    let (_operator, rest) = word(tokens, operator.word())?;
    part(alloc, rest, levels, operator)
}

/// A prefix.
#[cycle(expressions)]
fn prefix(alloc: Global, tokens: &[Token], levels: usize) -> Result<(RefExpr, &[Token]), ReadFault>
    ensures { Gives (λ x. (expression_view x.0, x.1.now)) result (prefix_at levels tokens.now) }
{
    prefix_form(alloc, tokens, levels)
}

/// A prefix, by its first token.
#[cycle(expressions)]
fn prefix_form(
    alloc: Global,
    tokens: &[Token],
    levels: usize,
) -> Result<(RefExpr, &[Token]), ReadFault>
    ensures { Gives (λ x. (expression_view x.0, x.1.now)) result (form_at levels tokens.now) }
{
    if starts_with(tokens, "loop") {
        let (inner, rest) = open(tokens, "loop", levels)?;
        return loop_rest(alloc, rest, inner);
    }
    if starts_with(tokens, "opt") {
        let (inner, rest) = open(tokens, "opt", levels)?;
        return opt_rest(alloc, rest, inner);
    }
    if starts_with(tokens, "(") {
        let (inner, rest) = open(tokens, "(", levels)?;
        return closed(alloc, rest, inner);
    }
    if starts_with(tokens, "empty") {
        let (_empty, rest) = word(tokens, "empty")?;
        return Ok((RefExpr::Empty, rest));
    }
    let (chart, rest) = own_name(alloc, tokens)?;
    Ok((RefExpr::Chart(chart), rest))
}

/// What stands behind `loop`.
#[cycle(expressions)]
fn loop_rest(
    alloc: Global,
    tokens: &[Token],
    levels: usize,
) -> Result<(RefExpr, &[Token]), ReadFault>
    ensures { Gives (λ x. (expression_view x.0, x.1.now)) result (loop_rest_at (prefix_at levels) tokens.now) }
{
    let (bounds, rest) = loop_bounds(tokens)?;
    let (repeated, rest) = prefix(alloc, rest, levels)?;
    let repeated = Box::new(alloc, repeated)?;
    Ok((RefExpr::Loop(bounds.lower, bounds.upper, repeated), rest))
}

/// What stands behind `opt`.
#[cycle(expressions)]
fn opt_rest(
    alloc: Global,
    tokens: &[Token],
    levels: usize,
) -> Result<(RefExpr, &[Token]), ReadFault>
    ensures { Gives (λ x. (expression_view x.0, x.1.now)) result (opt_rest_at (prefix_at levels) tokens.now) }
{
    let (part, rest) = prefix(alloc, tokens, levels)?;
    Ok((RefExpr::Opt(Box::new(alloc, part)?), rest))
}

/// What stands behind an opening parenthesis, up to the closing one.
#[cycle(expressions)]
fn closed(alloc: Global, tokens: &[Token], levels: usize) -> Result<(RefExpr, &[Token]), ReadFault>
    ensures { Gives (λ x. (expression_view x.0, x.1.now)) result (closed_at (prefix_at levels) tokens.now) }
{
    let (inner, rest) = parts(alloc, tokens, levels, Operator::Alt)?;
    let (_close, rest) = word(rest, ")")?;
    Ok((inner, rest))
}
