//! Notes the parts of an item that break the rules: for `levels`.

ghost use Rattle.std.specs.Prelude.{◌≡◌, OnOk, map};
ghost use Rattle.level_pieces.specs.PieceViews.{parts_view, piece_view};
ghost use Rattle.msc_meaning.specs.LevelItems.{cover_of};
ghost use Rattle.shared_parts.specs.Noting.{AreNoted, DiffersAt, OneHolds, PartsBreak, noted};
ghost use Rattle.shared_parts.specs.declared.faults.PartRule.{PartRule};
ghost use Rattle.shared_parts.specs.declared.faults.PartRule.TheVariants.{NotShared};

use crate::alike::are_alike;
use crate::sharing::{is_unshared, sharing_of};
use chart_text::note_if;
use level_pieces::LevelItem;
use msc_base::{Items, Names, NoMemory, Place};
use std::alloc::Global;

/// The places that a walk notes, for each of the rules.
#[derive(Drop)]
pub struct PartPlaces {
    /// Of parts that aren't shared.
    pub not_shared: Items<Place>,
    /// Of parts that differ from the first of their name.
    pub differing: Items<Place>,
}

/// Notes the parts that aren't shared, of an item whose first part covers these instances.
fn note_unshared(
    alloc: Global,
    places: &mut Items<Place>,
    level: &Names,
    cover: &Names,
    item: &LevelItem<'_, '_>,
) -> Result<(), NoMemory>
    requires { cover.now ≡ cover_of level.now (piece_view item.now.first) }
    ensures { OnOk result (AreNoted (PartsBreak NotShared level.now (parts_view item.now)) places.old places.new) }
{
    let sharing = sharing_of(alloc, level, cover, item)?;
    note_if(places, item.first.place, is_unshared(&sharing, item.first))?;
    for part in item.others.as_slice() {
        note_if(places, part.place, is_unshared(&sharing, *part))?;
    }
    Ok(())
}

/// Notes the parts that differ from the first.
fn note_differing(places: &mut Items<Place>, item: &LevelItem<'_, '_>) -> Result<(), NoMemory>
    ensures { OnOk result (AreNoted (OneHolds (DiffersAt (piece_view item.now.first)) (map piece_view item.now.others.items)) places.old places.new) }
{
    for part in item.others.as_slice() {
        note_if(places, part.place, !are_alike(item.first.form, part.form))?;
    }
    Ok(())
}

/// Notes the parts that break the rules, of an item whose first part covers these instances.
pub fn note_parts(
    alloc: Global,
    places: &mut PartPlaces,
    level: &Names,
    cover: &Names,
    item: &LevelItem<'_, '_>,
) -> Result<(), NoMemory>
    requires { cover.now ≡ cover_of level.now (piece_view item.now.first) }
    ensures { OnOk result ((rule : PartRule) → AreNoted (PartsBreak rule level.now (parts_view item.now)) (noted rule places.old) (noted rule places.new)) }
{
    note_unshared(alloc, &mut places.not_shared, level, cover, item)?;
    note_differing(&mut places.differing, item)
}
