//! Copies of references: for `items`.

ghost use Rattle.std.specs.Prelude.{◌≡◌, IfOk, map};
ghost use Rattle.msc_tree.specs.Views.{expression_view};

use msc_base::{Items, NoMemory};
use msc_tree::{Join, JoinEnd, JoinList, RefExpr};
use std::alloc::Global;

/// A copy of what a gate is joined with.
fn copied_end(alloc: Global, end: &JoinEnd) -> Result<JoinEnd, NoMemory>
    ensures { IfOk result (λ copied. copied ≡ end.now) }
{
    match end {
        JoinEnd::Env(gate) => Ok(JoinEnd::Env(gate.copy(alloc)?)),
        JoinEnd::Reference(reference, gate) => {
            let reference = reference.copy(alloc)?;
            let gate = gate.copy(alloc)?;
            Ok(JoinEnd::Reference(reference, gate))
        }
    }
}

/// A copy of the joins.
pub fn copied_joins(alloc: Global, joins: &[Join]) -> Result<JoinList, NoMemory>
    ensures { IfOk result (λ copied. copied ≡ joins.now) }
{
    let mut copied = Items::new(alloc);
    for join in joins {
        let gate = join.gate.copy(alloc)?;
        let to = copied_end(alloc, &join.to)?;
        copied.push(Join {
            gate,
            to,
            place: join.place,
        })?;
    }
    Ok(copied)
}

/// A copy of an expression.
#[cycle(copies)]
pub fn copied_expression(alloc: Global, expression: &RefExpr) -> Result<RefExpr, NoMemory>
    ensures { IfOk result (λ copied. expression_view copied ≡ expression_view expression.now) }
{
    match expression {
        RefExpr::Empty => Ok(RefExpr::Empty),
        RefExpr::Chart(name) => Ok(RefExpr::Chart(name.copy(alloc)?)),
        RefExpr::Alt(parts) => Ok(RefExpr::Alt(copied_parts(alloc, parts.as_slice())?)),
        RefExpr::Par(parts) => Ok(RefExpr::Par(copied_parts(alloc, parts.as_slice())?)),
        RefExpr::Seq(parts) => Ok(RefExpr::Seq(copied_parts(alloc, parts.as_slice())?)),
        RefExpr::Opt(part) => {
            let part = copied_expression(alloc, part)?;
            Ok(RefExpr::Opt(Box::new(alloc, part)?))
        }
        RefExpr::Loop(lower, upper, part) => {
            let part = copied_expression(alloc, part)?;
            Ok(RefExpr::Loop(*lower, *upper, Box::new(alloc, part)?))
        }
    }
}

/// Copies of the parts of an expression.
#[cycle(copies)]
fn copied_parts(alloc: Global, parts: &[RefExpr]) -> Result<Vec<RefExpr>, NoMemory>
    ensures { IfOk result (λ copied. map expression_view copied.items ≡ map expression_view parts.now) }
{
    let mut copied = Vec::new(alloc);
    for part in parts {
        copied.push(copied_expression(alloc, part)?)?;
    }
    Ok(copied)
}
