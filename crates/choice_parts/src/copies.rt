//! Copies of parts of an expansion, for `behind`.

ghost use Rattle.std.specs.Prelude.{◌≡◌, IfOk};
ghost use Rattle.expansion_tree.specs.Views.{expansion_view, expansions_view};

use expansion_tree::Expansion;
use hmsc_graph::{Shape, ShapeLine, ShapeLines};
use msc_base::{LabelRef, LabelRefs, NoMemory, Pair, PairList};
use std::alloc::Global;

/// The labels once more.
fn copied_labels(alloc: Global, labels: &[LabelRef]) -> Result<LabelRefs, NoMemory>
    ensures { IfOk result (λ copied. copied ≡ labels.now) }
{
    let mut copied = LabelRefs::new(alloc);
    for label in labels {
        let name = label.name.copy(alloc)?;
        let place = label.place;
        copied.push(LabelRef { name, place })?;
    }
    Ok(copied)
}

/// The line once more.
fn copied_line(alloc: Global, line: &ShapeLine) -> Result<ShapeLine, NoMemory>
    ensures { IfOk result (λ copied. copied ≡ line.now) }
{
    let label = line.label.copy(alloc)?;
    let next = copied_labels(alloc, line.next.as_slice())?;
    Ok(ShapeLine {
        label,
        place: line.place,
        ends: line.ends,
        next,
    })
}

/// The lines once more.
fn copied_lines(alloc: Global, lines: &[ShapeLine]) -> Result<ShapeLines, NoMemory>
    ensures { IfOk result (λ copied. copied ≡ lines.now) }
{
    let mut copied = ShapeLines::new(alloc);
    for line in lines {
        copied.push(copied_line(alloc, line)?)?;
    }
    Ok(copied)
}

/// The graph once more.
fn copied_shape(alloc: Global, shape: &Shape) -> Result<Shape, NoMemory>
    ensures { IfOk result (λ copied. copied ≡ shape.now) }
{
    let starts = copied_labels(alloc, shape.starts.as_slice())?;
    let lines = copied_lines(alloc, shape.lines.as_slice())?;
    Ok(Shape { starts, lines })
}

/// The pairs once more.
pub(crate) fn copied_pairs(alloc: Global, pairs: &[Pair]) -> Result<PairList, NoMemory>
    ensures { IfOk result (λ copied. copied ≡ pairs.now) }
{
    let mut copied = PairList::new(alloc);
    for pair in pairs {
        copied.push(*pair)?;
    }
    Ok(copied)
}

/// A part once more. It fails only for want of memory.
#[cycle(copies)]
fn copied(alloc: Global, expansion: &Expansion) -> Result<Expansion, NoMemory>
    ensures { IfOk result (λ copied. expansion_view copied ≡ expansion_view expansion.now) }
{
    match expansion {
        Expansion::Event(event) => Ok(Expansion::Event(*event)),
        Expansion::InRow(parts) => {
            let parts = copied_parts(alloc, parts.as_slice())?;
            Ok(Expansion::InRow(parts))
        }
        Expansion::Aside(parts) => {
            let parts = copied_parts(alloc, parts.as_slice())?;
            Ok(Expansion::Aside(parts))
        }
        Expansion::OneOf(parts) => {
            let parts = copied_parts(alloc, parts.as_slice())?;
            Ok(Expansion::OneOf(parts))
        }
        Expansion::Exception(part) => {
            let part = copied(alloc, part)?;
            let part = Box::new(alloc, part)?;
            Ok(Expansion::Exception(part))
        }
        Expansion::Turns(number, lower, upper, part) => {
            let part = copied(alloc, part)?;
            let part = Box::new(alloc, part)?;
            Ok(Expansion::Turns(*number, *lower, *upper, part))
        }
        Expansion::Tied(part, pairs) => {
            let part = copied(alloc, part)?;
            let part = Box::new(alloc, part)?;
            let pairs = copied_pairs(alloc, pairs.as_slice())?;
            Ok(Expansion::Tied(part, pairs))
        }
        Expansion::Walk(number, shape, parts) => {
            let shape = copied_shape(alloc, shape)?;
            let parts = copied_parts(alloc, parts.as_slice())?;
            Ok(Expansion::Walk(*number, shape, parts))
        }
    }
}

/// Parts once more, in their order. It fails only for want of memory.
#[cycle(copies)]
pub(crate) fn copied_parts(alloc: Global, parts: &[Expansion]) -> Result<Vec<Expansion>, NoMemory>
    ensures { IfOk result (λ copied. expansions_view copied.items ≡ expansions_view parts.now) }
{
    let mut copies = Vec::new(alloc);
    for part in parts {
        copies.push(copied(alloc, part)?)?;
    }
    Ok(copies)
}
