//! Prints reference expressions with the parentheses that they need, and bounds of loops.

ghost use Rattle.std.specs.Prelude.{◌≡◌, OnOk, map};
ghost use Rattle.msc_tree.specs.Expressions.{expressions};
ghost use Rattle.msc_tree.specs.Views.{expression_view};
ghost use Rattle.msc_print.specs.ExpressionWords.{bound_words, expression_words, looseness, operator_words, part_words};
ghost use Rattle.msc_print.specs.Pages.{put_all};

use crate::page::Page;
use crate::parts::between;
use msc_base::NoMemory;
use msc_tree::RefExpr;

/// Writes the bounds of a loop.
pub fn bounds(page: &mut Page, lower: u64, upper: Option<u64>) -> Result<(), NoMemory>
    ensures { OnOk result (page.new ≡ put_all page.old (bound_words lower upper)) }
{
    page.word("<")?;
    page.number(lower)?;
    page.word(",")?;
    match upper {
        Some(number) => page.number(number)?,
        None => page.word("inf")?,
    }
    page.word(">")
}

/// How loosely an expression binds.
fn looseness_of(expr: &RefExpr) -> u8
    ensures { result ≡ looseness (expression_view expr.now) }
{
    match expr {
        RefExpr::Seq(_) => 1,
        RefExpr::Par(_) => 2,
        RefExpr::Alt(_) => 3,
        _ => 0,
    }
}

#[tactic(auto, using(crate::proofs::Putting::put_append))]
/// Writes an expression.
#[cycle(expressions)]
pub fn expression(page: &mut Page, expr: &RefExpr) -> Result<(), NoMemory>
    ensures { OnOk result (page.new ≡ put_all page.old (expression_words (expression_view expr.now))) }
{
    match expr {
        RefExpr::Empty => page.word("empty"),
        RefExpr::Chart(name) => page.put(name.bytes()),
        RefExpr::Alt(parts) => joined(page, parts.as_slice(), 3, "alt"),
        RefExpr::Par(parts) => joined(page, parts.as_slice(), 2, "par"),
        RefExpr::Seq(parts) => joined(page, parts.as_slice(), 1, "seq"),
        RefExpr::Opt(inner) => {
            page.word("opt")?;
            part(page, inner, 1)
        }
        RefExpr::Loop(lower, upper, inner) => {
            page.word("loop")?;
            bounds(page, *lower, *upper)?;
            part(page, inner, 1)
        }
    }
}

#[tactic(auto, using(crate::proofs::Putting::put_append))]
/// Writes a part of an operator that binds so loosely, in parentheses unless the part binds closer.
#[cycle(expressions)]
fn part(page: &mut Page, expr: &RefExpr, operator: u8) -> Result<(), NoMemory>
    ensures { OnOk result (page.new ≡ put_all page.old (part_words operator (expression_view expr.now) (expression_words (expression_view expr.now)))) }
{
    if looseness_of(expr) < operator {
        return expression(page, expr);
    }
    page.word("(")?;
    expression(page, expr)?;
    page.word(")")
}

#[tactic(auto, using(crate::proofs::Putting::part_step))]
/// Writes parts, with the operator between them.
#[cycle(expressions)]
fn joined(page: &mut Page, parts: &[RefExpr], operator: u8, word: &str) -> Result<(), NoMemory>
    ensures { OnOk result (page.new ≡ put_all page.old (operator_words operator word.now (expressions (map expression_view parts.now)))) }
{
    let mut first = true;
    for other in parts {
        between(page, first, word)?;
        part(page, other, operator)?;
        first = false;
    }
    Ok(())
}
