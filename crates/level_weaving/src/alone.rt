//! The earliest output or input of a level without partner: for `levels` alone.

ghost use Rattle.std.specs.Prelude.{◌≡◌, ◌<◌, All, IfOk, false, length, map, not, ◌&&◌, true, ◌↔◌, ℕ};
ghost use Rattle.msc_base.specs.Places.{IsLeast};
ghost use Rattle.level_weaving.specs.Alone.{AreTold, IsAlone, is_message};
ghost use Rattle.level_weaving.specs.EventViews.{event_view};
ghost use Rattle.level_weaving.specs.Marks.{LeadsPairs};
ghost use Rattle.level_weaving.specs.Messages.{IsUnmatched, way};

use crate::PlacedEvent;
use column_order::Edge;
use msc_base::{NoMemory, Place, earlier_if};
use msc_tree::way_of;
use std::alloc::Global;

/// For each event whether a pair has it.
fn paired(alloc: Global, count: usize, pairs: &[Edge]) -> Result<Vec<bool>, NoMemory>
    requires { All (λ e. (e.from < count) × (e.to < count)) pairs.now }
    ensures { IfOk result (λ told. AreTold pairs.now count told.items) }
{
    let mut told = vec![in alloc; false; count]?;
    for pair in pairs {
        told[pair.from as usize] = true;
        told[pair.to as usize] = true;
    }
    Ok(told)
}

/// Whether an event is an output to an instance or an input from one, and no pair has it.
fn is_alone(placed: PlacedEvent<'_>, told: bool) -> bool
    ensures { result ≡ (is_message (way (event_view placed.entry)) && not told) }
{
    match way_of(placed.event) {
        None => false,
        Some(_) => !told,
    }
}

/// The earliest place of such an event.
fn first_alone(events: &[PlacedEvent<'_>], told: &[bool]) -> Option<Place>
    requires { length told.now ≡ length events.now }
    ensures { IsLeast (IsAlone (map event_view events.now) told.now) result }
{
    let mut best = None;
    let mut number = 0;
    for placed in events {
        let alone = is_alone(*placed, told[number]);
        best = earlier_if(best, placed.event.place.get(), alone);
        number += 1;
    }
    best
}

/// The earliest place of an output to an instance or an input from one that has no partner.
pub fn first_unmatched(
    alloc: Global,
    events: &[PlacedEvent<'_>],
    pairs: &[Edge],
) -> Result<Option<Place>, NoMemory>
    requires { LeadsPairs (map event_view events.now) pairs.now }
    ensures { IfOk result (IsLeast (IsUnmatched (map event_view events.now))) }
{
    let told = paired(alloc, events.len(), pairs)?;
    Ok(first_alone(events, told.as_slice()))
}
