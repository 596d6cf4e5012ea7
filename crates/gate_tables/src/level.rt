//! The called gates of a level.

ghost use Rattle.std.specs.Option.{option_copied};
ghost use Rattle.std.specs.Prelude.{◌≡◌, ℕ, IfOk, None, Some, option_map};
ghost use Rattle.gate_ends.specs.CallViews.{caller_view};
ghost use Rattle.gate_ends.specs.FoundEnds.{ends_to};
ghost use Rattle.gate_ends.specs.LevelGates.{items_in};
ghost use Rattle.gate_tables.specs.CalledEnds.{end_of, ends_by};
ghost use Rattle.gate_tables.specs.ChartGates.{AreGatesTo};
ghost use Rattle.gate_tables.specs.FactViews.{seen_view};
ghost use Rattle.gate_tables.specs.KeptMaps.{kept_of};
ghost use Rattle.gate_tables.specs.KnownFacts.{known_of};
ghost use Rattle.gate_tables.specs.NamedMaps.{named_gate};
ghost use Rattle.msc_meaning.specs.Calls.{is_called};
ghost use Rattle.msc_meaning.specs.ChartUnfoldings.{gates_of};
ghost use Rattle.msc_meaning.specs.FarEnds.{caller_at, caller_of, end_at, instance_at};
ghost use Rattle.msc_meaning.specs.InnerEvents.{GateEnd};
ghost use Rattle.msc_meaning.specs.ItemViews.{items_view};
ghost use Rattle.msc_meaning.specs.Tables.{Table};
ghost use Rattle.msc_meaning.specs.Views.{body_view};

use crate::facts::SeenFacts;
use crate::kept::KeptMaps;
use crate::named::{NamedFacts, named_facts};
use crate::tables::GateTables;
use gate_ends::{Caller, LevelCalls};
use msc_base::{Kind, Name, NoMemory};
use msc_meaning::{Body, Item};
use std::alloc::Global;
use std::marker::Model;

/// What a level says of the gates of its references and inline expressions: which are called, from where, and where they lead to.
#[derive(Drop)]
pub struct LevelGates<'a> {
    calls: LevelCalls<'a>,
    facts: NamedFacts<'a>,
}

impl<'a> Model for LevelGates<'a> {
    ghost use Rattle.gate_tables.specs.CalledEnds.{ends_by};
    ghost use Rattle.gate_tables.specs.NamedMaps.{named_gate};
    ghost use Rattle.msc_meaning.specs.FarEnds.{Gates};

    ghost Value = { Gates };

    ghost view = { λ g. record { calls = g.calls; ends = ends_by (named_gate g.facts) g.calls } };
}

impl<'a> LevelGates<'a> {
    /// Whether the gate of the reference or inline expression of that name has a caller. It takes no memory.
    pub fn is_called(&self, name: Option<&Name>, gate: &[u8]) -> bool
        ensures { result ≡ is_called self.now.calls (option_copied name.entry) gate.now }
    {
        match name {
            Some(name) => self.calls.is_called(name.bytes(), gate),
            None => false,
        }
    }

    /// The facts of the inner events of a called gate.
    fn end(&self, name: &[u8], gate: &[u8]) -> Option<SeenFacts<'a>>
        ensures { option_map (λ f. end_of name.now gate.now (seen_view f)) result ≡ end_at self.now.ends name.now gate.now }
    {
        if !self.calls.is_called(name, gate) {
            return None;
        }
        self.facts.at(name, gate)
    }

    /// The instance of the inner events of a called gate. It takes no memory.
    pub fn instance_at(&self, name: &[u8], gate: &[u8]) -> Option<&'a Name>
        ensures { option_copied result ≡ instance_at (end_at self.now.ends name.now gate.now) }
    {
        match self.end(name, gate) {
            Some(facts) => Some(facts.at),
            None => None,
        }
    }

    /// The kind of the inner events of a called gate. It takes no memory.
    pub fn kind_at(&self, name: &[u8], gate: &[u8]) -> Option<Kind>
        ensures { result ≡ option_map (λ (e : GateEnd). e.kind) (end_at self.now.ends name.now gate.now) }
    {
        match self.end(name, gate) {
            Some(facts) => Some(facts.kind),
            None => None,
        }
    }

    /// The instance of a caller, where it is known.
    fn caller_at(&self, caller: Caller<'a>) -> Option<&'a Name>
        ensures { option_copied result ≡ caller_at self.now.ends (caller_view caller.entry) }
    {
        match caller {
            Caller::Event(node) => Some(&node.at),
            Caller::Gate(Some(name), gate) => self.instance_at(name, gate),
            Caller::Gate(None, _) => None,
        }
    }

    /// The instance of the gate's caller, where it has one. It takes no memory.
    pub fn caller_of(&self, name: Option<&Name>, gate: &[u8]) -> Option<&'a Name>
        ensures { option_copied result ≡ caller_of self.now (option_copied name.entry) gate.now }
    {
        let name = name?;
        let caller = self.calls.caller(name.bytes(), gate)?;
        self.caller_at(caller)
    }
}

/// The facts of a level's gates, where it has calls; else none are wanted.
fn facts_if_called<'a>(
    alloc: Global,
    known: &'a KeptMaps,
    calls: &LevelCalls<'_>,
    items: &'a [Item],
) -> Result<NamedFacts<'a>, NoMemory>
    ensures { IfOk result (λ facts. ends_by (named_gate facts) calls.now ≡ ends_by (known_of (kept_of known.now) (items_view items.now)) calls.now) }
{
    if calls.is_empty() {
        return Ok(NamedFacts::new(alloc));
    }
    named_facts(alloc, known, items)
}

/// What a level of a chart says of gates, by what the charts of its table say. It fails only for want of memory.
pub fn level_gates<'a>(
    alloc: Global,
    gates: &'a GateTables,
    body: &'a Body,
) -> Result<LevelGates<'a>, NoMemory>
    ensures { IfOk result (λ level. (table : Table) (depth : ℕ) → AreGatesTo table depth gates.now → level ≡ gates_of (items_in (body_view body.now)) (ends_to table depth (items_in (body_view body.now)))) }
{
    let items = body.items.as_slice();
    let calls = LevelCalls::of(alloc, items)?;
    let facts = facts_if_called(alloc, &gates.charts, &calls, items)?;
    Ok(LevelGates { calls, facts })
}
