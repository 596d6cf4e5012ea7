//! Gathers levels from their pieces, with the operands of their inline expressions: for `charts`.

ghost use Rattle.std.specs.Prelude.{◌≡◌, [], IfOk, map};
ghost use Rattle.level_gathering.specs.Gathered.{AreGatheredItems, IsGatheredItem, IsGatheredLevel};
ghost use Rattle.level_gathering.specs.Noting.{AreGatheredLevels, IsNoted};
ghost use Rattle.level_gathering.specs.ReferenceViews.{lists_view};
ghost use Rattle.level_pieces.specs.FormedPieces.{AreFormed};
ghost use Rattle.level_pieces.specs.ItemOperands.{pieces_view};
ghost use Rattle.level_pieces.specs.ItemParts.{AreItems, AreParts};
ghost use Rattle.level_pieces.specs.PieceNumbers.{AreNumbered};
ghost use Rattle.level_pieces.specs.PieceViews.{parts_view, piece_view};
ghost use Rattle.level_weaving.specs.Answers.{AreLevels};
ghost use Rattle.msc_meaning.specs.Bodies.{items as item_list, level as plain_level};
ghost use Rattle.msc_meaning.specs.Views.{body_view, item_view};

use crate::references::{ReferenceLists, note_level};
use level_pieces::{
    LevelItem, Piece, copied_events_of, is_event, item_names, item_operands, level_items,
    operands_of_form,
};
use level_weaving::joint_item;
use msc_base::{Items, Names, NoMemory, copy_names};
use msc_meaning::{Body, Item};
use std::alloc::Global;

/// The body of these items, of which nothing says how messages pair.
pub fn unpaired(alloc: Global, cover: Names, items: Vec<Item>) -> Body
    ensures { body_view result ≡ plain_level cover (item_list (map item_view items.items)) [] }
{
    Body {
        cover,
        items,
        pairs: Items::new(alloc),
    }
}

/// What a level is gathered to, by the instances that it covers and its pieces.
///
/// The references of the level are noted behind those that stand in the list, and then those of each level inside it.
#[cycle(levels)]
pub fn gathered_level<'a>(
    alloc: Global,
    cover: &Names,
    pieces: &[Piece<'a, '_>],
    references: &mut ReferenceLists<'a>,
) -> Result<Body, NoMemory>
    requires numbered { AreNumbered 0 (map piece_view pieces.now) }
    requires formed { AreFormed (map piece_view pieces.now) }
    ensures { IfOk result (λ body. IsNoted (IsGatheredLevel cover.now (map piece_view pieces.now) (body_view body)) (lists_view references.old) (lists_view references.new)) }
{
    note_level(alloc, references, &*pieces)?;
    let items = level_items(alloc, &*pieces)?;
    let held = gathered_items(alloc, cover, items.items.as_slice(), references)?;
    let names = copy_names(alloc, cover.as_slice())?;
    Ok(unpaired(alloc, names, held))
}

/// What items are gathered to.
#[cycle(levels)]
fn gathered_items<'a>(
    alloc: Global,
    level: &Names,
    items: &[LevelItem<'a, '_>],
    references: &mut ReferenceLists<'a>,
) -> Result<Vec<Item>, NoMemory>
    requires { AreItems (map parts_view items.now) }
    ensures { IfOk result (λ held. IsNoted (AreGatheredItems level.now (map parts_view items.now) (item_list (map item_view held.items))) (lists_view references.old) (lists_view references.new)) }
{
    let mut held = Vec::with_capacity(alloc, items.len())?;
    for item in items {
        let made = gathered_item(alloc, level, item, references)?;
        held.push(made)?;
    }
    Ok(held)
}

/// What an item is gathered to.
#[cycle(levels)]
fn gathered_item<'a>(
    alloc: Global,
    level: &Names,
    item: &LevelItem<'a, '_>,
    references: &mut ReferenceLists<'a>,
) -> Result<Item, NoMemory>
    requires { AreParts (parts_view item.now) }
    ensures { IfOk result (λ made. IsNoted (IsGatheredItem level.now (parts_view item.now) (item_view made)) (lists_view references.old) (lists_view references.new)) }
{
    if is_event(item.first.form) {
        return copied_events_of(alloc, item.first);
    }
    let names = item_names(alloc, level, item.first)?;
    let operands = item_operands(alloc, &names, item)?;
    let (own, _) = operands
        .as_slice()
        .split_at(operands_of_form(item.first.form).len());
    let held = gathered_levels(alloc, &names.cover, own, references)?;
    joint_item(alloc, &names.cover, item.first, held)
}

/// What several levels that cover the same instances are gathered to, each by its pieces.
#[cycle(levels)]
fn gathered_levels<'a>(
    alloc: Global,
    cover: &Names,
    lists: &[Vec<Piece<'a, '_>>],
    references: &mut ReferenceLists<'a>,
) -> Result<Vec<Body>, NoMemory>
    requires { AreLevels (map pieces_view lists.now) }
    ensures { IfOk result (λ bodies. IsNoted (AreGatheredLevels cover.now (map pieces_view lists.now) (map body_view bodies.items)) (lists_view references.old) (lists_view references.new)) }
{
    let mut bodies = Vec::with_capacity(alloc, lists.len())?;
    for pieces in lists {
        let made = gathered_level(alloc, cover, pieces.as_slice(), references)?;
        bodies.push(made)?;
    }
    Ok(bodies)
}
