//! The inner events of the gates of a level's references and inline expressions.

ghost use Rattle.std.specs.Option.{option_copied};
ghost use Rattle.std.specs.Prelude.{◌≡◌, ℕ, IfOk, option_map};
ghost use Rattle.gate_ends.specs.FoundEnds.{expression_inner, inner_of, inner_to};
ghost use Rattle.gate_ends.specs.LevelGates.{items_in};
ghost use Rattle.gate_tables.specs.ChartGates.{AreFactsTo, AreGatesTo};
ghost use Rattle.gate_tables.specs.FactViews.{facts_view};
ghost use Rattle.gate_tables.specs.GateFacts.{facts_of};
ghost use Rattle.msc_meaning.specs.Bodies.{WovenItems};
ghost use Rattle.msc_meaning.specs.Tables.{Table};
ghost use Rattle.msc_meaning.specs.Views.{body_view};
ghost use Rattle.msc_tree.specs.Views.{expression_view};

use crate::facts::GateFacts;
use crate::gate_search::expression_gate;
use crate::kept::KeptMaps;
use crate::named::named_facts;
use crate::tables::GateTables;
use msc_base::NoMemory;
use msc_meaning::Body;
use msc_tree::RefExpr;
use std::alloc::Global;

/// What is known of the inner events of the gates of a level's references and inline expressions that have names.
#[derive(Drop)]
pub struct LevelFacts {
    named: KeptMaps,
}

impl LevelFacts {
    /// What is known of the gate's inner events, where there is one. It takes no memory.
    pub fn facts_at(&self, name: &[u8], gate: &[u8]) -> Option<&GateFacts>
        ensures { (table : Table) (depth : ℕ) (held : WovenItems) → AreFactsTo table depth held self.now → option_map facts_view (option_copied result) ≡ facts_of (inner_of (inner_to table depth) held name.now gate.now) }
    {
        self.named.at(name, gate)
    }
}

/// The facts of a level of a chart, by what the charts of its table say. It fails only for want of memory.
pub fn level_facts(alloc: Global, gates: &GateTables, body: &Body) -> Result<LevelFacts, NoMemory>
    ensures { IfOk result (λ facts. (table : Table) (depth : ℕ) → AreGatesTo table depth gates.now → AreFactsTo table depth (items_in (body_view body.now)) facts) }
{
    let facts = named_facts(alloc, &gates.charts, body.items.as_slice())?;
    let named = facts.kept(alloc)?;
    Ok(LevelFacts { named })
}

/// What is known of the inner events of a gate of a reference to charts of a table, by what they say, where there is one. It fails only for
/// want of memory.
pub fn expression_facts(
    alloc: Global,
    gates: &GateTables,
    expression: &RefExpr,
    gate: &[u8],
) -> Result<Option<GateFacts>, NoMemory>
    ensures { IfOk result (λ facts. (table : Table) (depth : ℕ) → AreGatesTo table depth gates.now → option_map facts_view facts ≡ facts_of (expression_inner (inner_to table depth) (expression_view expression.now) gate.now)) }
{
    match expression_gate(&gates.charts, expression, gate) {
        Some(facts) => Ok(Some(facts.copy(alloc)?)),
        None => Ok(None),
    }
}
