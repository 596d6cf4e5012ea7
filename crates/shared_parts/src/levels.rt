//! Walks levels, and those inside them: for `faults`.

ghost use Rattle.std.specs.Prelude.{◌≡◌, OnOk, map};
ghost use Rattle.level_pieces.specs.ItemOperands.{pieces_view};
ghost use Rattle.level_pieces.specs.PieceViews.{parts_view, piece_view};
ghost use Rattle.shared_parts.specs.Noting.{AreAllJoined, AreJoined, AreNoted, ItemBreaks, OneHolds, noted};
ghost use Rattle.shared_parts.specs.PartRules.{BreaksPartRule};
ghost use Rattle.shared_parts.specs.declared.faults.PartRule.{PartRule};

use crate::noting::{PartPlaces, note_parts};
use level_pieces::{LevelItem, Piece, is_event, item_names, item_operands, level_items};
use msc_base::{Names, NoMemory};
use std::alloc::Global;

/// Notes the parts that break the rules on a level that covers these instances, and inside it.
#[cycle(levels)]
pub fn note_level(
    alloc: Global,
    places: &mut PartPlaces,
    cover: &Names,
    pieces: &[Piece<'_, '_>],
) -> Result<(), NoMemory>
    ensures { OnOk result ((rule : PartRule) → AreNoted (BreaksPartRule rule cover.now (map piece_view pieces.now)) (noted rule places.old) (noted rule places.new)) }
{
    let items = level_items(alloc, pieces)?;
    note_items(alloc, places, cover, items.items.as_slice())
}

/// The same of the items of a level.
#[cycle(levels)]
fn note_items(
    alloc: Global,
    places: &mut PartPlaces,
    level: &Names,
    items: &[LevelItem<'_, '_>],
) -> Result<(), NoMemory>
    requires { AreAllJoined (map parts_view items.now) }
    ensures { OnOk result ((rule : PartRule) → AreNoted (OneHolds (ItemBreaks rule level.now) (map parts_view items.now)) (noted rule places.old) (noted rule places.new)) }
{
    for item in items {
        note_item(alloc, places, level, item)?;
    }
    Ok(())
}

/// The same of an item.
#[cycle(levels)]
fn note_item(
    alloc: Global,
    places: &mut PartPlaces,
    level: &Names,
    item: &LevelItem<'_, '_>,
) -> Result<(), NoMemory>
    requires { AreJoined (parts_view item.now) }
    ensures { OnOk result ((rule : PartRule) → AreNoted (ItemBreaks rule level.now (parts_view item.now)) (noted rule places.old) (noted rule places.new)) }
{
    if is_event(item.first.form) {
        return Ok(());
    }
    let names = item_names(alloc, level, item.first)?;
    note_parts(alloc, places, level, &names.cover, item)?;
    let operands = item_operands(alloc, &names, item)?;
    note_levels(alloc, places, &names.cover, operands.as_slice())
}

/// The same of several levels that cover the same instances.
#[cycle(levels)]
fn note_levels(
    alloc: Global,
    places: &mut PartPlaces,
    cover: &Names,
    lists: &[Vec<Piece<'_, '_>>],
) -> Result<(), NoMemory>
    ensures { OnOk result ((rule : PartRule) → AreNoted (OneHolds (BreaksPartRule rule cover.now) (map pieces_view lists.now)) (noted rule places.old) (noted rule places.new)) }
{
    for pieces in lists {
        note_level(alloc, places, cover, pieces.as_slice())?;
    }
    Ok(())
}
