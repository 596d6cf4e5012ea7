//! The facts of one gate of a reference expression, without those of its other gates: for `inner_facts`.

ghost use Rattle.std.specs.Prelude.{◌≡◌, map, option_map};
ghost use Rattle.gate_tables.specs.FactViews.{facts_view, seen_view};
ghost use Rattle.gate_tables.specs.KeptMaps.{kept_of};
ghost use Rattle.gate_tables.specs.KnownFacts.{expression_known, parts_known};
ghost use Rattle.gate_tables.specs.Together.{in_loop_facts, together};
ghost use Rattle.msc_tree.specs.Expressions.{expressions};
ghost use Rattle.msc_tree.specs.Views.{expression_view};

use crate::facts::SeenFacts;
use crate::kept::KeptMaps;
use msc_tree::RefExpr;

/// The facts of the gate of the chart of that name.
fn chart_gate<'a>(known: &'a KeptMaps, name: &[u8], gate: &[u8]) -> Option<SeenFacts<'a>>
    ensures { option_map seen_view result ≡ kept_of known.now name.now gate.now }
{
    match known.at(name, gate) {
        Some(facts) => Some(facts.seen()),
        None => None,
    }
}

/// The facts of both, where one branch has both, or a branch has the one or the other.
fn both<'a>(
    first: Option<SeenFacts<'a>>,
    others: Option<SeenFacts<'a>>,
    all: bool,
) -> Option<SeenFacts<'a>>
    ensures { option_map seen_view result ≡ together all (option_map seen_view first.entry) (option_map seen_view others.entry) }
{
    match first {
        None => others,
        Some(first) => match others {
            None => Some(first),
            Some(others) => Some(first.with(others, all)),
        },
    }
}

/// The facts of the same events in a loop.
fn looped<'a>(facts: Option<SeenFacts<'a>>) -> Option<SeenFacts<'a>>
    ensures { option_map seen_view result ≡ in_loop_facts (option_map seen_view facts.entry) }
{
    match facts {
        Some(facts) => Some(facts.in_loop()),
        None => None,
    }
}

/// The facts of the gate of an expression, by those of the charts that it names.
#[cycle(gate_search)]
pub fn expression_gate<'a>(
    known: &'a KeptMaps,
    expression: &RefExpr,
    gate: &[u8],
) -> Option<SeenFacts<'a>>
    ensures { option_map seen_view result ≡ expression_known (kept_of known.now) (expression_view expression.now) gate.now }
{
    match expression {
        RefExpr::Empty => None,
        RefExpr::Chart(name) => chart_gate(known, name.bytes(), gate),
        RefExpr::Alt(parts) => parts_gate(known, parts.as_slice(), false, gate),
        RefExpr::Par(parts) => parts_gate(known, parts.as_slice(), true, gate),
        RefExpr::Seq(parts) => parts_gate(known, parts.as_slice(), true, gate),
        RefExpr::Opt(part) => expression_gate(known, part, gate),
        RefExpr::Loop(_, _, part) => looped(expression_gate(known, part, gate)),
    }
}

/// The facts of the gate of parts that all are done, or of which one is.
#[cycle(gate_search)]
fn parts_gate<'a>(
    known: &'a KeptMaps,
    parts: &[RefExpr],
    all: bool,
    gate: &[u8],
) -> Option<SeenFacts<'a>>
    ensures { option_map seen_view result ≡ parts_known (kept_of known.now) all (expressions (map expression_view parts.now)) gate.now }
{
    let mut facts = None;
    let mut left = parts.len();
    while left > 0 {
        left -= 1;
        let part = expression_gate(known, &parts[left], gate);
        facts = both(part, facts, all);
    }
    facts
}
