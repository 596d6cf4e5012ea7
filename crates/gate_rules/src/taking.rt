//! Callers that use a gate of another caller: for `faults`.

ghost use Rattle.std.specs.Prelude.{◌≡◌, ◌++◌, ◌∷◌, [], List, OnOk, reverse};
ghost use Rattle.chart_text.specs.Gathering.{place_if};
ghost use Rattle.gate_rules.specs.Callers.{caller_view, callers_view};
ghost use Rattle.gate_rules.specs.Claims.{AreClaims};
ghost use Rattle.gate_rules.specs.GateRules.{Caller as PlainCaller, is_taken, place_of, taken_from, taken_places};

use crate::caller::Caller;
use crate::claims::Claims;
use chart_text::note_if;
use msc_base::{Items, NoMemory, Place};
use std::alloc::Global;

/// Notes a caller, where one that was seen takes it; from then on it was seen.
fn note_one<'a>(
    places: &mut Items<Place>,
    seen: &mut Claims<'a>,
    caller: Caller<'a>,
) -> Result<(), NoMemory>
    ensures places { OnOk result ((before : List PlainCaller) → AreClaims before seen.old → places.new ≡ places.old ++ place_if (is_taken before (caller_view caller.entry)) (place_of (caller_view caller.entry))) }
    ensures seen { OnOk result ((before : List PlainCaller) → AreClaims before seen.old → AreClaims (caller_view caller.entry ∷ before) seen.new) }
{
    note_if(places, caller.place(), seen.is_taken(caller))?;
    seen.add(caller)
}

/// Notes the callers that an earlier one of the list takes.
fn note_from<'a>(
    alloc: Global,
    places: &mut Items<Place>,
    callers: &[Caller<'a>],
) -> Result<(), NoMemory>
    ensures { OnOk result (places.new ≡ places.old ++ taken_from [] (callers_view callers.now)) }
{
    let mut seen = Claims::new(alloc);
    for caller in callers {
        note_one(places, &mut seen, *caller)?;
    }
    Ok(())
}

/// Notes the callers that another takes. It turns the list round.
pub(crate) fn note_taken(
    alloc: Global,
    places: &mut Items<Place>,
    callers: &mut Vec<Caller<'_>>,
) -> Result<(), NoMemory>
    ensures { OnOk result (places.new ≡ places.old ++ taken_places (callers_view callers.old.items)) }
{
    note_from(alloc, places, callers.as_slice())?;
    callers.reverse();
    note_from(alloc, places, callers.as_slice())
}
