//! Whether reference expressions are the same: for `alike`.

ghost use Rattle.std.specs.Prelude.{◌≡◌, ◌↔◌, IsTrue, map};
ghost use Rattle.msc_tree.specs.Expressions as plain;
ghost use Rattle.msc_tree.specs.Views.{expression_view};

use msc_base::Name;
use msc_tree::RefExpr;

/// Whether the bounds of two loops are the same.
pub fn same_bounds(lower: u64, upper: Option<u64>, others: u64, end: Option<u64>) -> bool
    ensures { IsTrue result ↔ ((lower ≡ others) × (upper ≡ end)) }
{
    lower == others && upper == end
}

/// Whether the expression is `empty`.
fn is_empty(expression: &RefExpr) -> bool
    ensures { IsTrue result ↔ (expression_view expression.now ≡ plain.Empty) }
{
    match expression {
        RefExpr::Empty => true,
        _ => false,
    }
}

/// Whether the expression is that name.
fn is_chart(expression: &RefExpr, name: &Name) -> bool
    ensures { IsTrue result ↔ (expression_view expression.now ≡ plain.Chart name.now) }
{
    match expression {
        RefExpr::Chart(other) => other.same(name),
        _ => false,
    }
}

/// Whether the expression is one of these.
#[cycle(expressions)]
fn is_alt(expression: &RefExpr, parts: &[RefExpr]) -> bool
    ensures { IsTrue result ↔ (expression_view expression.now ≡ plain.Alt (plain.expressions (map expression_view parts.now))) }
{
    match expression {
        RefExpr::Alt(others) => same_parts(others.as_slice(), parts),
        _ => false,
    }
}

/// Whether the expression is all of these, side by side.
#[cycle(expressions)]
fn is_par(expression: &RefExpr, parts: &[RefExpr]) -> bool
    ensures { IsTrue result ↔ (expression_view expression.now ≡ plain.Par (plain.expressions (map expression_view parts.now))) }
{
    match expression {
        RefExpr::Par(others) => same_parts(others.as_slice(), parts),
        _ => false,
    }
}

/// Whether the expression is all of these, one after another.
#[cycle(expressions)]
fn is_seq(expression: &RefExpr, parts: &[RefExpr]) -> bool
    ensures { IsTrue result ↔ (expression_view expression.now ≡ plain.Seq (plain.expressions (map expression_view parts.now))) }
{
    match expression {
        RefExpr::Seq(others) => same_parts(others.as_slice(), parts),
        _ => false,
    }
}

/// Whether the expression is this, or nothing.
#[cycle(expressions)]
fn is_opt(expression: &RefExpr, part: &RefExpr) -> bool
    ensures { IsTrue result ↔ (expression_view expression.now ≡ plain.Opt (expression_view part.now)) }
{
    match expression {
        RefExpr::Opt(other) => same_expression(other, part),
        _ => false,
    }
}

/// Whether the expression is a loop of this, with these bounds.
#[cycle(expressions)]
fn is_loop(expression: &RefExpr, lower: u64, upper: Option<u64>, part: &RefExpr) -> bool
    ensures { IsTrue result ↔ (expression_view expression.now ≡ plain.Loop lower upper (expression_view part.now)) }
{
    match expression {
        RefExpr::Loop(others, end, other) => {
            same_bounds(*others, *end, lower, upper) && same_expression(other, part)
        }
        _ => false,
    }
}

/// Whether the two expressions are the same.
#[cycle(expressions)]
pub fn same_expression(a: &RefExpr, b: &RefExpr) -> bool
    ensures { IsTrue result ↔ (expression_view a.now ≡ expression_view b.now) }
{
    match b {
        RefExpr::Empty => is_empty(a),
        RefExpr::Chart(name) => is_chart(a, name),
        RefExpr::Alt(parts) => is_alt(a, parts.as_slice()),
        RefExpr::Par(parts) => is_par(a, parts.as_slice()),
        RefExpr::Seq(parts) => is_seq(a, parts.as_slice()),
        RefExpr::Opt(part) => is_opt(a, part),
        RefExpr::Loop(lower, upper, part) => is_loop(a, *lower, *upper, part),
    }
}

/// Whether the two lists have the same expressions in the same order.
#[cycle(expressions)]
fn same_parts(a: &[RefExpr], b: &[RefExpr]) -> bool
    ensures { IsTrue result ↔ (map expression_view a.now ≡ map expression_view b.now) }
{
    if a.len() != b.len() {
        return false;
    }
    for index in 0..a.len() {
        if !same_expression(&a[index], &b[index]) {
            return false;
        }
    }
    true
}
