//! Which rules a caller breaks: for `faults`.

ghost use Rattle.std.specs.Prelude.{◌≡◌, ◌||◌, IfOk, option_map, option_copied};
ghost use Rattle.gate_rules.specs.Callers.{caller_view};
ghost use Rattle.gate_rules.specs.GateRules.{breaks, joins_nameless, lacks_own};
ghost use Rattle.gate_rules.specs.Judging.{is_broken};
ghost use Rattle.gate_rules.specs.KnownGates.{clashing, ends_view, ways_by, with_facts};
ghost use Rattle.gate_rules.specs.declared.faults.GateRule.{GateRule};
ghost use Rattle.gate_tables.specs.ChartGates.{AreFactsOf, AreGatesOf};
ghost use Rattle.msc_meaning.specs.Bodies.{WovenItems};
ghost use Rattle.msc_meaning.specs.Views.{table_view};

use crate::caller::Caller;
use crate::known::{Ends, ends_of};
use gate_tables::{GateTables, LevelFacts, expression_facts};
use msc_base::{Name, NoMemory};
use msc_meaning::ChartEntry;
use msc_tree::JoinEnd;
use std::alloc::Global;

/// The charts of a table, and what they say of their gates.
#[derive(Clone, Copy)]
pub(crate) struct ChartTable<'a> {
    pub(crate) charts: &'a [ChartEntry],
    pub(crate) gates: &'a GateTables,
}

/// The rules that are broken.
#[derive(Clone, Copy)]
pub(crate) struct Broken {
    pub(crate) no_gate: bool,
    pub(crate) twice: bool,
    pub(crate) ways: bool,
    pub(crate) split: bool,
    pub(crate) on_loop: bool,
}

/// Whether one of the two holds.
fn either(a: bool, b: bool) -> bool
    ensures { result ≡ (a || b) }
{
    a || b
}

/// Whether the join of a reference without a name calls a gate.
fn joins_nameless(name: &Option<Name>, to: &JoinEnd) -> bool
    ensures { result ≡ joins_nameless name.now to.now }
{
    match to {
        JoinEnd::Env(_) => false,
        JoinEnd::Reference(_, _) => match name {
            Some(_) => false,
            None => true,
        },
    }
}

/// Whether the gate of a join has no inner event, or its reference has no name by which it calls.
fn lacks_own(alloc: Global, table: ChartTable<'_>, caller: Caller<'_>) -> Result<bool, NoMemory>
    requires { AreGatesOf (table_view table.charts.now) table.gates.now }
    ensures { IfOk result (λ lacks. lacks ≡ lacks_own (table_view table.entry.charts.now) (caller_view caller.entry)) }
{
    match caller {
        Caller::Event(_, _) => Ok(false),
        Caller::Join(reference, join) => {
            let facts = expression_facts(alloc, table.gates, &reference.expr, join.gate.bytes())?;
            Ok(either(facts.is_none(), joins_nameless(&reference.name, &join.to)))
        }
    }
}

/// Whether inner events of a gate that the caller calls go along with it.
fn ways_differ(caller: Caller<'_>, ends: Ends<'_>) -> bool
    ensures { result ≡ ways_by (caller_view caller.entry) (ends_view ends.entry) }
{
    match caller {
        Caller::Event(node, _) => ends.far.goes_along(&node.event),
        Caller::Join(_, _) => ends.clash(),
    }
}

/// The rules that a caller of a level breaks.
pub(crate) fn broken_by(
    alloc: Global,
    table: ChartTable<'_>,
    facts: &LevelFacts,
    caller: Caller<'_>,
) -> Result<Broken, NoMemory>
    requires { AreGatesOf (table_view table.charts.now) table.gates.now }
    ensures { IfOk result (λ broken. (held : WovenItems) → AreFactsOf (table_view table.entry.charts.now) held facts.now → (r : GateRule) → is_broken broken r ≡ breaks (table_view table.entry.charts.now) held r (caller_view caller.entry)) }
{
    let ends = ends_of(facts, caller);
    let lacks = lacks_own(alloc, table, caller)?;
    Ok(Broken {
        no_gate: either(ends.lack(), lacks),
        twice: ends.are_several(),
        ways: ways_differ(caller, ends),
        split: ends.are_split(),
        on_loop: ends.are_looped(),
    })
}
