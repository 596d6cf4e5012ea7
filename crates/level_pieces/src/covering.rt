//! Whether an item is one of events, and the instances that another covers, with those that its operands stand behind: for shared_parts
//! and level_weaving.

ghost use Rattle.std.specs.Prelude.{◌≡◌, IfOk};
ghost use Rattle.level_pieces.specs.ItemOperands.{IsWithin};
ghost use Rattle.level_pieces.specs.ItemParts.{has_events};
ghost use Rattle.level_pieces.specs.PieceViews.{piece_view};
ghost use Rattle.msc_meaning.specs.LevelItems.{cover_of};
ghost use Rattle.msc_tree.specs.Views.{form_view};

use crate::covers::covered;
use crate::operands::LevelNames;
use crate::pieces::{Piece, PieceSide};
use msc_base::{Items, Names, NoMemory, copy_names};
use msc_tree::RawForm;
use std::alloc::Global;

/// Whether a form is an event or a coregion.
pub fn is_event(form: &RawForm) -> bool
    ensures { result ≡ has_events (form_view form.now) }
{
    match form {
        RawForm::Single(_) => true,
        RawForm::Coregion(_) => true,
        _ => false,
    }
}

/// The instances that an item covers.
pub fn item_cover(alloc: Global, level: &Names, piece: Piece<'_, '_>) -> Result<Names, NoMemory>
    ensures { IfOk result (λ cover. cover ≡ cover_of level.now (piece_view piece.entry)) }
{
    match piece.form {
        RawForm::Inline(held) => covered(alloc, level, piece.setting, &held.shared),
        RawForm::Reference(held) => covered(alloc, level, piece.setting, &held.shared),
        _ => covered(alloc, level, piece.setting, &None),
    }
}

/// What the level behind whose `all` a piece stands covers, where it does.
fn outer_names(alloc: Global, setting: PieceSide<'_, '_>) -> Result<Names, NoMemory>
    ensures { IfOk result (λ outer. IsWithin outer setting.entry) }
{
    match setting {
        PieceSide::Inside(names) => copy_names(alloc, names.as_slice()),
        _ => Ok(Items::new(alloc)),
    }
}

/// The names of the levels of an item's operands.
pub fn item_names(
    alloc: Global,
    level: &Names,
    piece: Piece<'_, '_>,
) -> Result<LevelNames, NoMemory>
    ensures cover { IfOk result (λ names. names.cover ≡ cover_of level.now (piece_view piece.entry)) }
    ensures outer { IfOk result (λ names. IsWithin names.outer piece.entry.setting) }
{
    let cover = item_cover(alloc, level, piece)?;
    let outer = outer_names(alloc, piece.setting)?;
    Ok(LevelNames { cover, outer })
}
