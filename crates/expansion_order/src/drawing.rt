//! Draws an expansion: behind each part of a row the later ones at its instances. A loop or a walk is drawn as one event.

ghost use Rattle.std.specs.BTreeMap.{get};
ghost use Rattle.std.specs.Ordering.{nat_cmp};
ghost use Rattle.std.specs.Prelude.{◌≡◌, ◌<◌, ℕ, IfOk, OnOk, Some};
ghost use Rattle.expansion_tree.specs.Expansions.{is_exception as exception};
ghost use Rattle.expansion_tree.specs.Views.{expansion_view, expansions_view};
ghost use Rattle.expansion_order.specs.Precedence.{Precedes, PrecedesInOne, PrecedesInRow};
ghost use Rattle.expansion_order.specs.Stops.{all_counted, counted};
ghost use Rattle.expansion_order.specs.Webs.{AreDrawn, IsPut, IsTidy};

use crate::stops::{Stop, add_event, append, loop_stops, walk_stops};
use crate::web::{Web, draw_pairs, enter, leave};
use expansion_tree::Expansion;
use msc_base::{Items, NoMemory};
use std::alloc::Global;
use std::collections::BTreeMap;

/// Whether it is an exception.
fn is_exception(part: &Expansion) -> bool
    ensures { result ≡ exception (expansion_view part.now) }
{
    match part {
        Expansion::Exception(_) => true,
        _ => false,
    }
}

/// Draws the part of these stops behind what stands in front; where it isn't an exception, it stands in front from then on.
fn put(
    web: &mut Web,
    last: &mut BTreeMap<u32, u32>,
    stays: bool,
    stops: &[Stop],
) -> Result<(), NoMemory>
    requires tidy { IsTidy web.old }
    requires low { (k b : ℕ) → get nat_cmp last.old k ≡ Some b → b < web.old.bars }
    ensures { OnOk result (IsPut web.old web.new (get nat_cmp last.old) (get nat_cmp last.new) stays stops.now) }
{
    enter(web, last, stops)?;
    if !stays {
        leave(web, last, stops)?;
    }
    Ok(())
}

/// Draws an expansion, and hands out its stops.
#[cycle(drawing)]
pub(crate) fn draw(alloc: Global, web: &mut Web, part: &Expansion) -> Result<Items<Stop>, NoMemory>
    requires { IsTidy web.old }
    ensures stops { IfOk result (λ stops. stops ≡ counted (expansion_view part.now)) }
    ensures drawn { OnOk result (AreDrawn (Precedes (expansion_view part.now)) web.old web.new) }
{
    match part {
        Expansion::Event(event) => {
            let mut stops = Items::new(alloc);
            add_event(&mut stops, *event)?;
            Ok(stops)
        }
        Expansion::InRow(parts) => {
            let stops = draw_row(alloc, web, parts.as_slice())?;
            Ok(stops)
        }
        Expansion::Aside(parts) => {
            let stops = draw_each(alloc, web, parts.as_slice())?;
            Ok(stops)
        }
        Expansion::OneOf(parts) => {
            let stops = draw_each(alloc, web, parts.as_slice())?;
            Ok(stops)
        }
        Expansion::Exception(inner) => {
            let stops = draw(alloc, web, inner)?;
            Ok(stops)
        }
        Expansion::Turns(number, _, _, inner) => {
            let stops = loop_stops(alloc, *number, inner)?;
            Ok(stops)
        }
        Expansion::Tied(inner, pairs) => {
            draw_pairs(web, pairs.as_slice())?;
            let stops = draw(alloc, web, inner)?;
            Ok(stops)
        }
        Expansion::Walk(number, _, parts) => {
            let stops = walk_stops(alloc, *number, parts.as_slice())?;
            Ok(stops)
        }
    }
}

/// Draws the parts of a row.
#[cycle(drawing)]
fn draw_row(alloc: Global, web: &mut Web, parts: &[Expansion]) -> Result<Items<Stop>, NoMemory>
    requires { IsTidy web.old }
    ensures stops { IfOk result (λ stops. stops ≡ all_counted (expansions_view parts.now)) }
    ensures drawn { OnOk result (AreDrawn (PrecedesInRow (expansions_view parts.now)) web.old web.new) }
{
    let mut all = Items::new(alloc);
    let mut last = BTreeMap::new(alloc);
    for part in parts {
        let stops = draw(alloc, web, part)?;
        put(web, &mut last, is_exception(part), stops.as_slice())?;
        append(&mut all, stops.as_slice())?;
    }
    Ok(all)
}

/// Draws parts between which nothing is drawn.
#[cycle(drawing)]
fn draw_each(alloc: Global, web: &mut Web, parts: &[Expansion]) -> Result<Items<Stop>, NoMemory>
    requires { IsTidy web.old }
    ensures stops { IfOk result (λ stops. stops ≡ all_counted (expansions_view parts.now)) }
    ensures drawn { OnOk result (AreDrawn (PrecedesInOne (expansions_view parts.now)) web.old web.new) }
{
    let mut all = Items::new(alloc);
    for part in parts {
        let stops = draw(alloc, web, part)?;
        append(&mut all, stops.as_slice())?;
    }
    Ok(all)
}
