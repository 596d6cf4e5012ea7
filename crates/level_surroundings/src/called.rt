//! The called gates of a level: for `ways`, and for expanded_charts.

ghost use Rattle.std.specs.Option.{option_copied};
ghost use Rattle.std.specs.Prelude.{◌≡◌, true, IfOk, option_map};
ghost use Rattle.level_surroundings.specs.HeldGates.{uncalled};
ghost use Rattle.msc_meaning.specs.Calls.{is_called};
ghost use Rattle.msc_meaning.specs.FarEnds.{caller_of, end_at, instance_at};
ghost use Rattle.msc_meaning.specs.InnerEvents.{GateEnd};

use gate_tables::LevelGates;
use msc_base::{Kind, Name, NoMemory};
use std::alloc::Global;
use std::marker::Model;
use std::rc::Rc;

/// What a level says of the gates of its references and inline expressions. Most levels call no gate; then it takes no memory.
#[derive(Drop)]
pub struct CalledGates<'a> {
    held: Option<Rc<LevelGates<'a>>>,
}

impl<'a> Model for CalledGates<'a> {
    ghost use Rattle.msc_meaning.specs.FarEnds.{Gates};
    ghost use Rattle.level_surroundings.specs.HeldGates.{gates_held};

    ghost Value = { Gates };

    ghost view = { λ c. gates_held c.held };
}

impl<'a> CalledGates<'a> {
    /// No gate is called.
    pub fn none() -> CalledGates<'a>
        ensures { result ≡ uncalled }
    {
        CalledGates { held: None }
    }

    /// These gates.
    pub fn of(alloc: Global, gates: LevelGates<'a>) -> Result<CalledGates<'a>, NoMemory>
        ensures { IfOk result (λ called. called ≡ gates.entry) }
    {
        let held = Rc::new(alloc, gates)?;
        Ok(CalledGates { held: Some(held) })
    }

    /// Whether it is known that no gate is called.
    pub fn is_none(&self) -> bool
        ensures { result ≡ true → self.now ≡ uncalled }
    {
        match &self.held {
            None => true,
            Some(_) => false,
        }
    }

    /// The same once more. It takes no memory.
    pub fn share(&self) -> Result<CalledGates<'a>, NoMemory>
        ensures { IfOk result (λ called. called ≡ self.now) }
    {
        match &self.held {
            None => Ok(CalledGates::none()),
            Some(gates) => {
                let gates = gates.clone()?;
                Ok(CalledGates { held: Some(gates) })
            }
        }
    }

    /// Whether the gate of the reference or inline expression of that name has a caller.
    pub fn is_called(&self, name: Option<&Name>, gate: &[u8]) -> bool
        ensures { result ≡ is_called self.now.calls (option_copied name.entry) gate.now }
    {
        match &self.held {
            None => false,
            Some(gates) => gates.is_called(name, gate),
        }
    }

    /// The instance of the gate's caller, where it has one.
    pub fn caller_of(&self, name: Option<&Name>, gate: &[u8]) -> Option<&'a Name>
        ensures { option_copied result ≡ caller_of self.now (option_copied name.entry) gate.now }
    {
        match &self.held {
            None => None,
            Some(gates) => gates.caller_of(name, gate),
        }
    }

    /// The instance of the inner events of a called gate.
    pub fn instance_at(&self, name: &[u8], gate: &[u8]) -> Option<&'a Name>
        ensures { option_copied result ≡ instance_at (end_at self.now.ends name.now gate.now) }
    {
        match &self.held {
            None => None,
            Some(gates) => gates.instance_at(name, gate),
        }
    }

    /// The kind of the inner events of a called gate.
    pub fn kind_at(&self, name: &[u8], gate: &[u8]) -> Option<Kind>
        ensures { result ≡ option_map (λ (e : GateEnd). e.kind) (end_at self.now.ends name.now gate.now) }
    {
        match &self.held {
            None => None,
            Some(gates) => gates.kind_at(name, gate),
        }
    }
}
