//! The earliest events of a body whose names, or whose general ordering, break the rules.

ghost use Rattle.std.specs.Prelude.{◌≡◌, ◌++◌, ◌∷◌, [], IfOk, OnOk, map};
ghost use Rattle.std.specs.List.{flat_map};
ghost use Rattle.msc_meaning.specs.BodyLevels.{level_events};
ghost use Rattle.msc_meaning.specs.LevelViews.{level_view, levels_view};
ghost use Rattle.general_ordering.specs.EventNames.{LevelsBreakNameRule, Twice, Unknown, breaks, level_faults, places_where};
ghost use Rattle.msc_meaning.specs.ItemViews.{items_view};
ghost use Rattle.general_ordering.specs.LevelNames.{IsWhole, is_named_twice, orders_unknown};
ghost use Rattle.msc_base.specs.Places.{IsLeast};
ghost use Rattle.msc_meaning.specs.Bodies as plain;
ghost use Rattle.msc_meaning.specs.Views.{body_view, item_view, node_view};

use crate::level_names::LevelNames;
use chart_text::earliest_place;
use msc_base::{Items, NoMemory, Place};
use msc_meaning::{BodyLevel, EventNode, Item};
use std::alloc::Global;

/// The earliest places at which names of events break the rules.
#[derive(Clone, Copy, Debug, PartialEq, Eq)]
pub struct NameFaults {
    /// Of an event that is ordered with a name that no event of its level has.
    pub unknown: Option<Place>,
    /// Of an event that has the name of an earlier one of its level.
    pub twice: Option<Place>,
}

/// All such places.
#[derive(Drop)]
pub(crate) struct NamePlaces {
    unknown: Items<Place>,
    twice: Items<Place>,
}

/// Notes the event, where it breaks a rule.
fn note(places: &mut NamePlaces, names: &LevelNames, node: &EventNode) -> Result<(), NoMemory>
    requires { IsWhole names.now }
    ensures unknown { OnOk result (places.new.unknown ≡ places.old.unknown ++ places_where (orders_unknown names.now) (node_view node.now ∷ [])) }
    ensures twice { OnOk result (places.new.twice ≡ places.old.twice ++ places_where (is_named_twice names.now) (node_view node.now ∷ [])) }
{
    let place = node.event.place.get();
    if names.orders_unknown(node) {
        places.unknown.push(place)?;
    }
    if names.is_named_twice(node) {
        places.twice.push(place)?;
    }
    Ok(())
}

/// Notes those of the events that break a rule.
fn note_events(
    places: &mut NamePlaces,
    names: &LevelNames,
    nodes: &[EventNode],
) -> Result<(), NoMemory>
    requires { IsWhole names.now }
    ensures unknown { OnOk result (places.new.unknown ≡ places.old.unknown ++ places_where (orders_unknown names.now) (map node_view nodes.now)) }
    ensures twice { OnOk result (places.new.twice ≡ places.old.twice ++ places_where (is_named_twice names.now) (map node_view nodes.now)) }
{
    for node in nodes {
        note(places, names, node)?;
    }
    Ok(())
}

/// Notes those of an item's own events that break a rule.
fn note_item(places: &mut NamePlaces, names: &LevelNames, item: &Item) -> Result<(), NoMemory>
    requires { IsWhole names.now }
    ensures unknown { OnOk result (places.new.unknown ≡ places.old.unknown ++ places_where (orders_unknown names.now) (plain.item_events (item_view item.now))) }
    ensures twice { OnOk result (places.new.twice ≡ places.old.twice ++ places_where (is_named_twice names.now) (plain.item_events (item_view item.now))) }
{
    match item {
        Item::Single(node) => note(places, names, node),
        Item::Coregion(nodes) => note_events(places, names, nodes.as_slice()),
        Item::Inline(_) => Ok(()),
        Item::Reference(_) => Ok(()),
    }
}

/// Notes those of a level's own events that break a rule by its names.
fn note_items(places: &mut NamePlaces, names: &LevelNames, items: &[Item]) -> Result<(), NoMemory>
    requires { IsWhole names.now }
    ensures unknown { OnOk result (places.new.unknown ≡ places.old.unknown ++ places_where (orders_unknown names.now) (plain.events (items_view items.now))) }
    ensures twice { OnOk result (places.new.twice ≡ places.old.twice ++ places_where (is_named_twice names.now) (plain.events (items_view items.now))) }
{
    for item in items {
        note_item(places, names, item)?;
    }
    Ok(())
}

/// Notes those of a level's own events that break a rule.
fn note_own(alloc: Global, places: &mut NamePlaces, items: &[Item]) -> Result<(), NoMemory>
    ensures unknown { OnOk result (places.new.unknown ≡ places.old.unknown ++ places_where (breaks Unknown (plain.events (items_view items.now))) (plain.events (items_view items.now))) }
    ensures twice { OnOk result (places.new.twice ≡ places.old.twice ++ places_where (breaks Twice (plain.events (items_view items.now))) (plain.events (items_view items.now))) }
{
    let names = LevelNames::of(alloc, items)?;
    note_items(places, &names, items)
}

/// Notes those of a level's own events that break a rule.
fn note_level(alloc: Global, places: &mut NamePlaces, level: BodyLevel<'_>) -> Result<(), NoMemory>
    ensures unknown { OnOk result (places.new.unknown ≡ places.old.unknown ++ level_faults Unknown (level_view level.entry)) }
    ensures twice { OnOk result (places.new.twice ≡ places.old.twice ++ level_faults Twice (level_view level.entry)) }
{
    note_own(alloc, places, level.body.items.as_slice())
}

/// Notes the events of the levels that break a rule.
fn note_levels(
    alloc: Global,
    places: &mut NamePlaces,
    levels: &[BodyLevel<'_>],
) -> Result<(), NoMemory>
    ensures unknown { OnOk result (places.new.unknown ≡ places.old.unknown ++ flat_map (level_faults Unknown) (levels_view levels.now)) }
    ensures twice { OnOk result (places.new.twice ≡ places.old.twice ++ flat_map (level_faults Twice) (levels_view levels.now)) }
{
    for level in levels {
        note_level(alloc, places, *level)?;
    }
    Ok(())
}

/// The earliest places of events of the levels that break the rules on names. It fails only for want of memory.
pub fn first_name_faults(alloc: Global, levels: &[BodyLevel<'_>]) -> Result<NameFaults, NoMemory>
    ensures unknown { IfOk result (λ faults. IsLeast (LevelsBreakNameRule Unknown (levels_view levels.now)) faults.unknown) }
    ensures twice { IfOk result (λ faults. IsLeast (LevelsBreakNameRule Twice (levels_view levels.now)) faults.twice) }
{
    let mut places = NamePlaces {
        unknown: Items::new(alloc),
        twice: Items::new(alloc),
    };
    note_levels(alloc, &mut places, levels)?;
    Ok(NameFaults {
        unknown: earliest_place(places.unknown.as_slice()),
        twice: earliest_place(places.twice.as_slice()),
    })
}
