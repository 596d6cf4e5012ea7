//! Whether two parts of an item are alike: for `noting`.

ghost use Rattle.std.specs.Prelude.{◌≡◌, ◌↔◌, IsTrue, map};
ghost use Rattle.msc_meaning.specs.Levels.{operand_number};
ghost use Rattle.msc_tree.specs.Views.{form_view, inline_view, operand_view, reference_view};
ghost use Rattle.msc_tree.specs.Statements.{Refer, operands};
ghost use Rattle.shared_parts.specs.PartRules.{AreAlike};

use crate::expressions::{same_bounds, same_expression};
use crate::joins::same_joins;
use msc_tree::{InlineForm, RawForm, RawInline, RawOperand, RawReference};

/// Whether the forms of two inline expressions are the same.
fn same_form(a: InlineForm, b: InlineForm) -> bool
    ensures { IsTrue result ↔ (a ≡ b) }
{
    a == b
}

/// Whether there are as many operands.
fn as_many(a: &[RawOperand], b: &[RawOperand]) -> bool
    ensures { IsTrue result ↔ (operand_number (operands (map operand_view a.now)) ≡ operand_number (operands (map operand_view b.now))) }
{
    a.len() == b.len()
}

/// Whether all three hold.
fn all_three(a: bool, b: bool, c: bool) -> bool
    ensures { IsTrue result ↔ (IsTrue a × IsTrue b × IsTrue c) }
{
    a && b && c
}

/// Whether two inline expressions are alike.
fn alike_inlines(a: &RawInline, b: &RawInline) -> bool
    ensures { IsTrue result ↔ AreAlike (inline_view a.now) (inline_view b.now) }
{
    all_three(
        same_form(a.form, b.form),
        same_bounds(a.lower, a.upper, b.lower, b.upper),
        as_many(a.operands.as_slice(), b.operands.as_slice()),
    )
}

/// Whether two references are alike.
fn alike_references(a: &RawReference, b: &RawReference) -> bool
    ensures { IsTrue result ↔ AreAlike (Refer (reference_view a.now)) (Refer (reference_view b.now)) }
{
    same_expression(&a.expr, &b.expr) && same_joins(a.joins.as_slice(), b.joins.as_slice())
}

/// Whether an inline expression or a reference is alike another form.
pub fn are_alike(a: &RawForm, b: &RawForm) -> bool
    ensures { IsTrue result ↔ AreAlike (form_view a.now) (form_view b.now) }
{
    match (a, b) {
        (RawForm::Inline(one), RawForm::Inline(other)) => alike_inlines(one, other),
        (RawForm::Reference(one), RawForm::Reference(other)) => alike_references(one, other),
        _ => false,
    }
}
