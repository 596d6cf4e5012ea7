//! All places at which rules are broken, and the earliest of each: for `faults`.

ghost use Rattle.std.specs.Prelude.{◌≡◌, [], OnOk};
ghost use Rattle.chart_text.specs.Gathering.{place_if};
ghost use Rattle.gate_rules.specs.Judging.{is_broken};
ghost use Rattle.gate_rules.specs.Noted.{IsNoted, noted_by};
ghost use Rattle.gate_rules.specs.declared.faults.GateRule.{GateRule};
ghost use Rattle.msc_base.specs.Lists.{IsAmong};
ghost use Rattle.msc_base.specs.Places.{IsLeast};

use crate::GatePlaces;
use crate::judging::Broken;
use chart_text::{earliest_place, note_if};
use msc_base::{Items, NoMemory, Place};
use std::alloc::Global;

/// The places at which rules are broken.
#[derive(Drop)]
pub(crate) struct Noted {
    pub(crate) no_gate: Items<Place>,
    pub(crate) twice: Items<Place>,
    pub(crate) ways: Items<Place>,
    pub(crate) split: Items<Place>,
    pub(crate) on_loop: Items<Place>,
}

impl Noted {
    /// No place. It takes no memory.
    pub(crate) fn new(alloc: Global) -> Noted
        ensures { (r : GateRule) → noted_by result r ≡ [] }
    {
        Noted {
            no_gate: Items::new(alloc),
            twice: Items::new(alloc),
            ways: Items::new(alloc),
            split: Items::new(alloc),
            on_loop: Items::new(alloc),
        }
    }

    /// Notes the place for the rules that are broken there.
    pub(crate) fn note(&mut self, place: Place, broken: Broken) -> Result<(), NoMemory>
        ensures { OnOk result (IsNoted (λ r. place_if (is_broken broken r) place) self.old self.new) }
    {
        note_if(&mut self.no_gate, place, broken.no_gate)?;
        note_if(&mut self.twice, place, broken.twice)?;
        note_if(&mut self.ways, place, broken.ways)?;
        note_if(&mut self.split, place, broken.split)?;
        note_if(&mut self.on_loop, place, broken.on_loop)
    }

    /// The earliest place of each rule.
    pub(crate) fn earliest(&self) -> GatePlaces
        ensures no_gate { IsLeast (IsAmong self.now.no_gate) result.no_gate }
        ensures twice { IsLeast (IsAmong self.now.twice) result.twice }
        ensures ways { IsLeast (IsAmong self.now.ways) result.ways }
        ensures split { IsLeast (IsAmong self.now.split) result.split }
        ensures on_loop { IsLeast (IsAmong self.now.on_loop) result.on_loop }
    {
        GatePlaces {
            no_gate: earliest_place(self.no_gate.as_slice()),
            twice: earliest_place(self.twice.as_slice()),
            ways: earliest_place(self.ways.as_slice()),
            split: earliest_place(self.split.as_slice()),
            on_loop: earliest_place(self.on_loop.as_slice()),
        }
    }
}
