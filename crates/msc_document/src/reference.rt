//! References with expression, joins and shared list: for `item`.

ghost use Rattle.std.specs.Prelude.{◌≡◌, codes};
ghost use Rattle.msc_tree.specs.Views.{expression_view, reference_view};
ghost use Rattle.token_grammar.specs.Answers.{Gives};
ghost use Rattle.token_grammar.specs.Languages.{just, names, second};
ghost use Rattle.msc_expression.specs.ExpressionReaders.{expression_at};
ghost use Rattle.msc_document.specs.DocumentReaders as specs;

use msc_base::Place;
use msc_events::{Orientation, joins, shared_in};
use msc_expression::expression;
use msc_tokens::Token;
use msc_tree::{Cover, JoinList, RawReference, RefExpr};
use std::alloc::Global;
use token_grammar::{ReadFault, ending, own_name, starts_with, starts_with_name, word};

/// What the gates of a reference are joined with, where that is said.
fn some_joins(alloc: Global, tokens: &[Token]) -> Result<(JoinList, &[Token]), ReadFault>
    ensures { Gives (λ x. (x.0, x.1.now)) result (specs.some_joins_at tokens.now) }
{
    if starts_with(tokens, "via") {
        return joins(alloc, tokens);
    }
    Ok((JoinList::new(alloc), tokens))
}

/// The expression of a reference, what its gates are joined with, and the list of those that share it.
fn parts(
    alloc: Global,
    orientation: Orientation,
    tokens: &[Token],
    levels: usize,
) -> Result<(RefExpr, JoinList, Option<Cover>, &[Token]), ReadFault>
    ensures { Gives (λ x. ((expression_view x.0, (x.1, x.2)), x.3.now)) result (specs.reference_parts_at orientation (expression_at levels) tokens.now) }
{
    let (expr, rest) = expression(alloc, tokens, levels)?;
    let (joins, rest) = some_joins(alloc, rest)?;
    let (shared, rest) = shared_in(alloc, orientation, rest)?;
    let rest = ending(rest)?;
    Ok((expr, joins, shared, rest))
}

/// A reference with a name.
fn named(
    alloc: Global,
    orientation: Orientation,
    tokens: &[Token],
    levels: usize,
) -> Result<(RawReference, &[Token]), ReadFault>
    ensures { Gives (λ x. (reference_view x.0, x.1.now)) result (specs.named_reference_at orientation (expression_at levels) tokens.now) }
{
    let (name, rest) = own_name(alloc, tokens)?;
    let (_colon, rest) = word(rest, ":")?;
    let (expr, joins, shared, rest) = parts(alloc, orientation, rest, levels)?;
    Ok((
        RawReference {
            name: Some(name),
            expr,
            joins,
            shared,
        },
        rest,
    ))
}

/// A reference without a name.
fn unnamed(
    alloc: Global,
    orientation: Orientation,
    tokens: &[Token],
    levels: usize,
) -> Result<(RawReference, &[Token]), ReadFault>
    ensures { Gives (λ x. (reference_view x.0, x.1.now)) result (specs.unnamed_reference_at orientation (expression_at levels) tokens.now) }
{
    let (expr, joins, shared, rest) = parts(alloc, orientation, tokens, levels)?;
    Ok((
        RawReference {
            name: None,
            expr,
            joins,
            shared,
        },
        rest,
    ))
}

/// Whether a name and a colon stand there.
fn is_named(tokens: &[Token]) -> bool
    ensures { result ≡ second names (just (codes ":")) tokens.now }
{
    match tokens.split_first() {
        Some((_, rest)) => starts_with_name(tokens) && starts_with(rest, ":"),
        None => false,
    }
}

/// A reference (Z.120, clause 7.3), with its place.
pub fn reference(
    alloc: Global,
    orientation: Orientation,
    tokens: &[Token],
    levels: usize,
) -> Result<(Place, RawReference, &[Token]), ReadFault>
    ensures { Gives (λ x. ((x.0, reference_view x.1), x.2.now)) result (specs.reference_at orientation (expression_at levels) tokens.now) }
{
    let (reference, rest) = word(tokens, "reference")?;
    let (part, rest) = if is_named(rest) {
        named(alloc, orientation, rest, levels)?
    } else {
        unnamed(alloc, orientation, rest, levels)?
    };
    Ok((reference.place, part, rest))
}
