//! What is made of parts: a row, parts side by side, a choice, a loop, an exception, the walks through a graph.

ghost use Rattle.std.specs.Prelude.{◌≡◌, ◌++◌, [], IfOk, OnOk};
ghost use Rattle.msc_meaning.specs.Bodies.{InlinePart};
ghost use Rattle.expanded_charts.specs.Expanding.{aside as plain_aside, exception as plain_exception, inline_by, in_row as plain_row, nothing, one_of as plain_choice, or_nothing as plain_option, turns as plain_turns, walk as plain_walk};
ghost use Rattle.expanded_charts.specs.Making.{AreMade, IsAdded, IsChanged, IsMadeOf};
ghost use Rattle.expanded_charts.specs.declared.numbering.Numbering.{Numbering};

use crate::made::{Made, MadeParts};
use crate::shown::ShownGate;
use expansion_tree::Expansion;
use hmsc_graph::Shape;
use msc_base::{NoMemory, Pair, PairList};
use msc_tree::InlineForm;
use std::alloc::Global;

/// No parts.
pub(crate) fn no_parts<'a>(alloc: Global, next: u32) -> MadeParts<'a>
    ensures { (s : Numbering) → AreMade s s (nothing next) result }
{
    MadeParts {
        parts: Vec::new(alloc),
        own: PairList::new(alloc),
        gates: Vec::new(alloc),
        next,
    }
}

/// Appends the pairs.
fn append(list: &mut PairList, others: &[Pair]) -> Result<(), NoMemory>
    ensures { OnOk result (list.new ≡ list.old ++ others.now) }
{
    for pair in others {
        list.push(*pair)?;
    }
    Ok(())
}

/// Appends what is shown at gates.
fn append_gates<'a>(list: &mut Vec<ShownGate<'a>>, others: &[ShownGate<'a>]) -> Result<(), NoMemory>
    ensures { OnOk result (list.new.items ≡ list.old.items ++ others.now) }
{
    for shown in others {
        list.push(*shown)?;
    }
    Ok(())
}

/// Adds a part behind the others.
pub(crate) fn add<'a>(parts: &mut MadeParts<'a>, made: Made<'a>) -> Result<(), NoMemory>
    ensures { OnOk result (IsAdded parts.old made.entry parts.new) }
{
    let Made {
        part,
        own,
        gates,
        next,
    } = made;
    append(&mut parts.own, own.as_slice())?;
    append_gates(&mut parts.gates, gates.as_slice())?;
    parts.parts.push(part)?;
    parts.next = next;
    Ok(())
}

/// The parts in weak sequence.
pub(crate) fn in_row<'a>(parts: MadeParts<'a>) -> Made<'a>
    ensures { IsMadeOf plain_row parts.entry result }
{
    let MadeParts {
        parts,
        own,
        gates,
        next,
    } = parts;
    Made {
        part: Expansion::InRow(parts),
        own,
        gates,
        next,
    }
}

/// The parts side by side.
pub(crate) fn aside<'a>(parts: MadeParts<'a>) -> Made<'a>
    ensures { IsMadeOf plain_aside parts.entry result }
{
    let MadeParts {
        parts,
        own,
        gates,
        next,
    } = parts;
    Made {
        part: Expansion::Aside(parts),
        own,
        gates,
        next,
    }
}

/// One of the parts.
pub(crate) fn one_of<'a>(parts: MadeParts<'a>) -> Made<'a>
    ensures { IsMadeOf plain_choice parts.entry result }
{
    let MadeParts {
        parts,
        own,
        gates,
        next,
    } = parts;
    Made {
        part: Expansion::OneOf(parts),
        own,
        gates,
        next,
    }
}

/// The part, or nothing.
pub(crate) fn or_nothing<'a>(alloc: Global, made: Made<'a>) -> Result<Made<'a>, NoMemory>
    ensures { IfOk result (λ new. IsChanged plain_option made.entry new) }
{
    let Made {
        part,
        own,
        gates,
        next,
    } = made;
    let mut parts = Vec::new(alloc);
    parts.push(part)?;
    parts.push(Expansion::InRow(Vec::new(alloc)))?;
    Ok(Made {
        part: Expansion::OneOf(parts),
        own,
        gates,
        next,
    })
}

/// The part in place of what stands behind it.
pub(crate) fn exception<'a>(alloc: Global, made: Made<'a>) -> Result<Made<'a>, NoMemory>
    ensures { IfOk result (λ new. IsChanged plain_exception made.entry new) }
{
    let Made {
        part,
        own,
        gates,
        next,
    } = made;
    let part = Box::new(alloc, part)?;
    Ok(Made {
        part: Expansion::Exception(part),
        own,
        gates,
        next,
    })
}

/// The part as often as the bounds say; its events are numbered from that number on.
pub(crate) fn turns<'a>(
    alloc: Global,
    first: u32,
    lower: u64,
    upper: Option<u64>,
    made: Made<'a>,
) -> Result<Made<'a>, NoMemory>
    ensures { IfOk result (λ new. IsChanged (plain_turns first lower upper) made.entry new) }
{
    let Made {
        part,
        own,
        gates,
        next,
    } = made;
    let part = Box::new(alloc, part)?;
    Ok(Made {
        part: Expansion::Turns(first, lower, upper, part),
        own,
        gates,
        next,
    })
}

/// The walks through the graph of this shape, whose nodes the parts are; the number is their own. Nothing is shown of the parts.
pub(crate) fn walk<'a>(alloc: Global, first: u32, shape: Shape, parts: MadeParts<'a>) -> Made<'a>
    ensures { IsMadeOf (plain_walk first shape) parts.entry result }
{
    let MadeParts {
        parts,
        own: _,
        gates: _,
        next,
    } = parts;
    Made {
        part: Expansion::Walk(first, shape, parts),
        own: PairList::new(alloc),
        gates: Vec::new(alloc),
        next,
    }
}

/// An inline expression of these operands; their events are numbered from that number on.
pub(crate) fn of_form<'a>(
    alloc: Global,
    first: u32,
    form: InlineForm,
    lower: u64,
    upper: Option<u64>,
    operands: MadeParts<'a>,
) -> Result<Made<'a>, NoMemory>
    ensures { IfOk result (λ made. (part : InlinePart) → part.lower ≡ lower → part.upper ≡ upper → IsMadeOf (inline_by form part first) operands.entry made) }
{
    match form {
        InlineForm::Alt => Ok(one_of(operands)),
        InlineForm::Opt => {
            let made = or_nothing(alloc, one_of(operands))?;
            Ok(made)
        }
        InlineForm::Par => Ok(aside(operands)),
        InlineForm::Exc => {
            let made = exception(alloc, one_of(operands))?;
            Ok(made)
        }
        InlineForm::Loop => {
            let made = turns(alloc, first, lower, upper, one_of(operands))?;
            Ok(made)
        }
    }
}
