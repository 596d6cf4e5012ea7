//! The facts of the gates of reference expressions: for `levels` and `inner_facts`.

ghost use Rattle.std.specs.Prelude.{◌≡◌, List, ℕ, IfOk, map};
ghost use Rattle.gate_tables.specs.FactMaps.{at_gate};
ghost use Rattle.gate_tables.specs.KeptMaps.{kept_of};
ghost use Rattle.gate_tables.specs.KnownFacts.{expression_known, parts_known};
ghost use Rattle.msc_tree.specs.Expressions.{expressions};
ghost use Rattle.msc_tree.specs.Views.{expression_view};

use crate::fact_map::{FactMap, joined, looped};
use crate::kept::KeptMaps;
use msc_base::NoMemory;
use msc_tree::RefExpr;
use std::alloc::Global;

/// The facts of the chart of that name.
fn chart_seen<'a>(alloc: Global, known: &'a KeptMaps, name: &[u8]) -> Result<FactMap<'a>, NoMemory>
    ensures { IfOk result (λ made. (g : List ℕ) → at_gate made g ≡ kept_of known.now name.now g) }
{
    match known.of(name) {
        Some(kept) => kept.seen(alloc),
        None => Ok(FactMap::new(alloc)),
    }
}

/// The facts of an expression, by those of the charts that it names.
#[cycle(expressions)]
pub fn expression_seen<'a>(
    alloc: Global,
    known: &'a KeptMaps,
    expression: &RefExpr,
) -> Result<FactMap<'a>, NoMemory>
    ensures { IfOk result (λ made. (g : List ℕ) → at_gate made g ≡ expression_known (kept_of known.now) (expression_view expression.now) g) }
{
    match expression {
        RefExpr::Empty => Ok(FactMap::new(alloc)),
        RefExpr::Chart(name) => chart_seen(alloc, known, name.bytes()),
        RefExpr::Alt(parts) => parts_seen(alloc, known, parts.as_slice(), false),
        RefExpr::Par(parts) => parts_seen(alloc, known, parts.as_slice(), true),
        RefExpr::Seq(parts) => parts_seen(alloc, known, parts.as_slice(), true),
        RefExpr::Opt(part) => expression_seen(alloc, known, part),
        RefExpr::Loop(_, _, part) => {
            let made = expression_seen(alloc, known, part)?;
            looped(alloc, made)
        }
    }
}

/// The facts of parts that all are done, or of which one is.
#[cycle(expressions)]
fn parts_seen<'a>(
    alloc: Global,
    known: &'a KeptMaps,
    parts: &[RefExpr],
    all: bool,
) -> Result<FactMap<'a>, NoMemory>
    ensures { IfOk result (λ made. (g : List ℕ) → at_gate made g ≡ parts_known (kept_of known.now) all (expressions (map expression_view parts.now)) g) }
{
    let mut made = FactMap::new(alloc);
    let mut left = parts.len();
    while left > 0 {
        left -= 1;
        let part = expression_seen(alloc, known, &parts[left])?;
        made = joined(part, made, all)?;
    }
    Ok(made)
}
