//! The rows of levels and the operands of inline expressions in an expansion.

ghost use Rattle.std.specs.Prelude.{◌≡◌};
ghost use Rattle.expansion_tree.specs.Views.{expansion_view, expansions_view};
ghost use Rattle.choice_parts.specs.ChoiceParts.{alternatives, beside, excepted, in_row, left_row_in as plain_left_row, of_first, operands_in as plain_operands, pairs_in as plain_pairs, repeated, row_in as plain_row};

use expansion_tree::Expansion;
use msc_base::Pair;
use msc_tree::InlineForm;

/// The parts of a row; none, where it is something else.
fn row_parts(expansion: &Expansion) -> &[Expansion]
    ensures { expansions_view result.now ≡ in_row (expansion_view expansion.now) }
{
    match expansion {
        Expansion::InRow(parts) => parts.as_slice(),
        Expansion::Event(_) => &[],
        Expansion::Aside(_) => &[],
        Expansion::OneOf(_) => &[],
        Expansion::Exception(_) => &[],
        Expansion::Turns(_, _, _, _) => &[],
        Expansion::Tied(_, _) => &[],
        Expansion::Walk(_, _, _) => &[],
    }
}

/// Alternatives; none, where it is something else.
fn alternative_parts(expansion: &Expansion) -> &[Expansion]
    ensures { expansions_view result.now ≡ alternatives (expansion_view expansion.now) }
{
    match expansion {
        Expansion::OneOf(parts) => parts.as_slice(),
        _ => &[],
    }
}

/// The parts side by side; none, where it is something else.
fn parts_beside(expansion: &Expansion) -> &[Expansion]
    ensures { expansions_view result.now ≡ beside (expansion_view expansion.now) }
{
    match expansion {
        Expansion::Aside(parts) => parts.as_slice(),
        _ => &[],
    }
}

/// The alternatives of an exception; none, where it is something else.
fn excepted_parts(expansion: &Expansion) -> &[Expansion]
    ensures { expansions_view result.now ≡ excepted (expansion_view expansion.now) }
{
    match expansion {
        Expansion::Exception(part) => alternative_parts(part),
        _ => &[],
    }
}

/// The alternatives of a loop; none, where it is something else.
fn repeated_parts(expansion: &Expansion) -> &[Expansion]
    ensures { expansions_view result.now ≡ repeated (expansion_view expansion.now) }
{
    match expansion {
        Expansion::Turns(_, _, _, part) => alternative_parts(part),
        _ => &[],
    }
}

/// The alternatives of the first part; none, where there is none.
fn first_alternatives(parts: &[Expansion]) -> &[Expansion]
    ensures { expansions_view result.now ≡ of_first alternatives (expansions_view parts.now) }
{
    match parts.first() {
        Some(part) => alternative_parts(part),
        None => &[],
    }
}

/// The row that the first part is; none, where there is none.
fn first_row(parts: &[Expansion]) -> &[Expansion]
    ensures { expansions_view result.now ≡ of_first in_row (expansions_view parts.now) }
{
    match parts.first() {
        Some(part) => row_parts(part),
        None => &[],
    }
}

/// The operands in what an inline expression of the form comes to.
pub fn operands_in(form: InlineForm, expansion: &Expansion) -> &[Expansion]
    ensures { expansions_view result.now ≡ plain_operands form (expansion_view expansion.now) }
{
    match form {
        InlineForm::Alt => alternative_parts(expansion),
        InlineForm::Opt => first_alternatives(alternative_parts(expansion)),
        InlineForm::Exc => excepted_parts(expansion),
        InlineForm::Par => parts_beside(expansion),
        InlineForm::Loop => repeated_parts(expansion),
    }
}

/// The row in what a level comes to.
pub fn row_in(expansion: &Expansion) -> &[Expansion]
    ensures { expansions_view result.now ≡ plain_row (expansion_view expansion.now) }
{
    match expansion {
        Expansion::Tied(part, _) => row_parts(part),
        _ => &[],
    }
}

/// The row of what is left of a level beside refining charts.
pub fn left_row_in(expansion: &Expansion) -> &[Expansion]
    ensures { expansions_view result.now ≡ plain_left_row (expansion_view expansion.now) }
{
    match expansion {
        Expansion::Tied(part, _) => first_row(parts_beside(part)),
        _ => &[],
    }
}

/// The pairs that tie what a level comes to.
pub fn pairs_in(expansion: &Expansion) -> &[Pair]
    ensures { result.now ≡ plain_pairs (expansion_view expansion.now) }
{
    match expansion {
        Expansion::Tied(_, pairs) => pairs.as_slice(),
        _ => &[],
    }
}
