//! Where callers first call gates, and first call them or hand them on: for `taking`.

ghost use Rattle.std.specs.Prelude.{◌≡◌, ◌||◌, [], None, Some, List, OnOk, option_map};
ghost use Rattle.gate_rules.specs.Callers.{caller_view, key_view};
ghost use Rattle.gate_rules.specs.Claims.{AreClaims, claims, first_use, is_used_by, with_both, with_use};
ghost use Rattle.gate_rules.specs.GateRules.{Caller as PlainCaller, GateName, called, has_gate, is_taken, place_of};
ghost use Rattle.msc_base.specs.Places.{earliest, earliest_if};

use crate::caller::{Caller, GateKey};
use indexmap::IndexMap;
use msc_base::{NoMemory, Place, comes_before};
use std::alloc::Global;

/// The earlier of the earliest place so far and one more.
fn earlier(so_far: Option<Place>, place: Place) -> Place
    ensures { Some result ≡ earliest so_far place }
{
    match so_far {
        Some(other) => {
            if comes_before(place, other) {
                place
            } else {
                other
            }
        }
        None => place,
    }
}

/// The earliest place of each gate that is used.
#[derive(Drop)]
struct Uses<'a> {
    held: IndexMap<GateKey<'a>, Place>,
}

impl<'a> Uses<'a> {
    /// No gate is used. It takes no memory.
    fn new(alloc: Global) -> Uses<'a>
        ensures { (x : GateName) → first_use result x ≡ None }
    {
        Uses {
            held: IndexMap::new(alloc),
        }
    }

    /// The earliest place at which the gate is used.
    fn first(&self, key: GateKey<'_>) -> Option<Place>
        ensures { result ≡ first_use self.now (key_view key.entry) }
    {
        self.held.get(&key).copied()
    }

    /// Adds a use of the gate.
    fn add(&mut self, key: GateKey<'a>, place: Place) -> Result<(), NoMemory>
        ensures { OnOk result ((x : GateName) → first_use self.new x ≡ with_use (key_view key.entry) place (first_use self.old) x) }
    {
        let earliest = earlier(self.first(key), place);
        self.held.insert(key, earliest)?;
        Ok(())
    }

    /// Adds a use of each of the two gates.
    fn add_both(
        &mut self,
        own: Option<GateKey<'a>>,
        far: Option<GateKey<'a>>,
        place: Place,
    ) -> Result<(), NoMemory>
        ensures { OnOk result ((x : GateName) → first_use self.new x ≡ with_both (option_map key_view own.entry) (option_map key_view far.entry) place (first_use self.old) x) }
    {
        if let Some(key) = own {
            self.add(key, place)?;
        }
        if let Some(key) = far {
            self.add(key, place)?;
        }
        Ok(())
    }

    /// Whether the gate is used, and not only behind that place.
    fn is_used_by(&self, key: Option<GateKey<'_>>, place: Place) -> bool
        ensures { result ≡ is_used_by (first_use self.now) (option_map key_view key.entry) place }
    {
        match key {
            Some(key) => match self.first(key) {
                Some(first) => !comes_before(place, first),
                None => false,
            },
            None => false,
        }
    }
}

/// Where some callers first use gates.
#[derive(Drop)]
pub(crate) struct Claims<'a> {
    /// Where they are called, or handed on.
    claimed: Uses<'a>,
    /// Where they are called.
    called: Uses<'a>,
}

impl<'a> Claims<'a> {
    /// No caller. It takes no memory.
    pub(crate) fn new(alloc: Global) -> Claims<'a>
        ensures { AreClaims [] result }
    {
        Claims {
            claimed: Uses::new(alloc),
            called: Uses::new(alloc),
        }
    }

    /// Adds a caller.
    pub(crate) fn add(&mut self, caller: Caller<'a>) -> Result<(), NoMemory>
        ensures claimed { OnOk result ((x : GateName) → first_use self.new.claimed x ≡ earliest_if (claims (caller_view caller.entry) x) (first_use self.old.claimed x) (place_of (caller_view caller.entry))) }
        ensures called { OnOk result ((x : GateName) → first_use self.new.called x ≡ earliest_if (has_gate (called (caller_view caller.entry)) x) (first_use self.old.called x) (place_of (caller_view caller.entry))) }
    {
        let place = caller.place();
        let own = caller.own();
        let far = caller.far();
        self.claimed.add_both(own, far, place)?;
        match far {
            Some(_) => self.called.add_both(own, far, place),
            None => Ok(()),
        }
    }

    /// Whether one of the callers doesn't stand behind another and calls or hands on a gate that it calls, or calls one that it hands on.
    pub(crate) fn is_taken(&self, caller: Caller<'_>) -> bool
        ensures { (others : List PlainCaller) → AreClaims others self.now → result ≡ is_taken others (caller_view caller.entry) }
    {
        let place = caller.place();
        let own = caller.own();
        let far = caller.far();
        match far {
            Some(_) => self.claimed.is_used_by(own, place) || self.claimed.is_used_by(far, place),
            None => self.called.is_used_by(own, place),
        }
    }
}
