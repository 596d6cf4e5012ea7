//! The joins of a reference's gates: for the reader of references in msc_document.

ghost use Rattle.std.specs.Prelude.{◌≡◌, [], ◌∷◌, ◌++◌, length};
ghost use Rattle.token_grammar.specs.Answers.{Gives};
ghost use Rattle.msc_events.specs.MultiReaders.{env_end_at, reference_end_at, join_end_at, join_at, comma_join_at, more_joins_at, join_list_at, joins_at};

use msc_base::Items;
use msc_tokens::Token;
use msc_tree::{Join, JoinEnd, JoinList};
use std::alloc::Global;
use token_grammar::{ReadFault, own_name, placed_name, starts_with, word};

/// A gate of what stands around a reference.
fn env_end(alloc: Global, tokens: &[Token]) -> Result<(JoinEnd, &[Token]), ReadFault>
    ensures { Gives (λ x. (x.0, x.1.now)) result (env_end_at tokens.now) }
{
    let (_env, rest) = word(tokens, "env")?;
    let (_via, rest) = word(rest, "via")?;
    let (gate, rest) = own_name(alloc, rest)?;
    Ok((JoinEnd::Env(gate), rest))
}

/// A gate of another reference or inline expression.
fn reference_end(alloc: Global, tokens: &[Token]) -> Result<(JoinEnd, &[Token]), ReadFault>
    ensures { Gives (λ x. (x.0, x.1.now)) result (reference_end_at tokens.now) }
{
    let (_reference, rest) = word(tokens, "reference")?;
    let (name, rest) = own_name(alloc, rest)?;
    let (_via, rest) = word(rest, "via")?;
    let (gate, rest) = own_name(alloc, rest)?;
    Ok((JoinEnd::Reference(name, gate), rest))
}

/// What a gate is joined with.
fn join_end(alloc: Global, tokens: &[Token]) -> Result<(JoinEnd, &[Token]), ReadFault>
    ensures { Gives (λ x. (x.0, x.1.now)) result (join_end_at tokens.now) }
{
    if starts_with(tokens, "env") {
        return env_end(alloc, tokens);
    }
    reference_end(alloc, tokens)
}

/// A gate of a reference, and what it is joined with.
fn join(alloc: Global, tokens: &[Token]) -> Result<(Join, &[Token]), ReadFault>
    ensures { Gives (λ x. (x.0, x.1.now)) result (join_at tokens.now) }
{
    let (gate, place, rest) = placed_name(alloc, tokens)?;
    let (_to, rest) = word(rest, "to")?;
    let (to, rest) = join_end(alloc, rest)?;
    Ok((Join { gate, to, place }, rest))
}

/// A join behind a comma.
fn comma_join(alloc: Global, tokens: &[Token]) -> Result<(Join, &[Token]), ReadFault>
    ensures { Gives (λ x. (x.0, x.1.now)) result (comma_join_at tokens.now) }
{
    let (_comma, rest) = word(tokens, ",")?;
    join(alloc, rest)
}

/// Other joins, each behind a comma, appended to the list.
fn more_joins(
    alloc: Global,
    tokens: &[Token],
    prefix: JoinList,
) -> Result<(JoinList, &[Token]), ReadFault>
    ensures { Gives (λ x. (x.0, x.1.now)) result (more_joins_at prefix (length tokens.now) tokens.now) }
{
    let mut joins = prefix;
    let mut rest = tokens;
    for _k in 0..tokens.len() {
        if !starts_with(rest, ",") {
            break;
        }
        match comma_join(alloc, rest) {
            Ok((join, behind)) => {
                joins.push(join)?;
                rest = behind;
            }
            Err(fault) => return Err(fault),
        }
    }
    Ok((joins, rest))
}

/// Joins with commas between them.
fn join_list(alloc: Global, tokens: &[Token]) -> Result<(JoinList, &[Token]), ReadFault>
    ensures { Gives (λ x. (x.0, x.1.now)) result (join_list_at tokens.now) }
{
    let (first, rest) = join(alloc, tokens)?;
    let mut joins = Items::new(alloc);
    joins.push(first)?;
    more_joins(alloc, rest, joins)
}

/// The joins of a reference (Z.120, clause 7.3).
pub fn joins(alloc: Global, tokens: &[Token]) -> Result<(JoinList, &[Token]), ReadFault>
    ensures { Gives (λ x. (x.0, x.1.now)) result (joins_at tokens.now) }
{
    let (_via, rest) = word(tokens, "via")?;
    join_list(alloc, rest)
}
