//! Conditions, and the list of instances that share a part of a chart: for msc_document.

ghost use Rattle.token_grammar.specs.Answers.{Gives};
ghost use Rattle.msc_events.specs.MultiReaders.{sharers_at, some_sharers_at, shared_at, some_shared_at, shared_in_at, condition_at};

use crate::orientation::Orientation;
use msc_base::{Items, Names, Place};
use msc_tokens::Token;
use msc_tree::{Cover, FewNames};
use std::alloc::Global;
use token_grammar::{ReadFault, ending, names, starts_with, starts_with_name, word};

/// All instances, or those of these names.
fn sharers(alloc: Global, tokens: &[Token]) -> Result<(Cover, &[Token]), ReadFault>
    ensures { Gives (λ x. (x.0, x.1.now)) result (sharers_at tokens.now) }
{
    if starts_with(tokens, "all") {
        let (_all, rest) = word(tokens, "all")?;
        return Ok((Cover::All, rest));
    }
    let (names, rest) = names(alloc, tokens)?;
    let names = FewNames::several(alloc, names)?;
    Ok((Cover::Listed(names), rest))
}

/// All instances, or those of these names, or no other.
fn some_sharers(alloc: Global, tokens: &[Token]) -> Result<(Cover, &[Token]), ReadFault>
    ensures { Gives (λ x. (x.0, x.1.now)) result (some_sharers_at tokens.now) }
{
    if starts_with(tokens, "all") || starts_with_name(tokens) {
        return sharers(alloc, tokens);
    }
    let none = FewNames::several(alloc, Items::new(alloc))?;
    Ok((Cover::Listed(none), tokens))
}

/// The list of the instances that share a part of a chart.
fn shared(alloc: Global, tokens: &[Token]) -> Result<(Cover, &[Token]), ReadFault>
    ensures { Gives (λ x. (x.0, x.1.now)) result (shared_at tokens.now) }
{
    let (_shared, rest) = word(tokens, "shared")?;
    some_sharers(alloc, rest)
}

/// The list of the instances that share a part of a chart, where there is one.
fn some_shared(alloc: Global, tokens: &[Token]) -> Result<(Option<Cover>, &[Token]), ReadFault>
    ensures { Gives (λ x. (x.0, x.1.now)) result (some_shared_at tokens.now) }
{
    if starts_with(tokens, "shared") {
        let (cover, rest) = shared(alloc, tokens)?;
        return Ok((Some(cover), rest));
    }
    Ok((None, tokens))
}

/// The list of the instances that share a part of a chart, where it may stand, as in a column, and does.
pub fn shared_in(
    alloc: Global,
    orientation: Orientation,
    tokens: &[Token],
) -> Result<(Option<Cover>, &[Token]), ReadFault>
    ensures { Gives (λ x. (x.0, x.1.now)) result (shared_in_at orientation tokens.now) }
{
    match orientation {
        Orientation::Column => some_shared(alloc, tokens),
        Orientation::Covered => Ok((None, tokens)),
    }
}

/// A condition (Z.120, clause 4.7), with its place, its names and, in a column, the list of those that share it.
pub fn condition(
    alloc: Global,
    orientation: Orientation,
    tokens: &[Token],
) -> Result<(Place, Names, Option<Cover>, &[Token]), ReadFault>
    ensures { Gives (λ x. ((x.0, x.1, x.2), x.3.now)) result (condition_at orientation tokens.now) }
{
    let (condition, rest) = word(tokens, "condition")?;
    let (names, rest) = names(alloc, rest)?;
    let (shared, rest) = shared_in(alloc, orientation, rest)?;
    let rest = ending(rest)?;
    Ok((condition.place, names, shared, rest))
}
