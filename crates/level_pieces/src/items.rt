//! The items of a level with their parts, and copies of events and references: for level_weaving.

ghost use Rattle.std.specs.Prelude.{◌≡◌, ◌++◌, ◌∷◌, [], IfOk, List, OnOk, Some, map, slice_get, true, ℕ};
ghost use Rattle.level_pieces.specs.ItemNumbers.{HasNumbering, IsNumbering, next_entries, with_next};
ghost use Rattle.level_pieces.specs.ItemParts.{has_events, refer_item};
ghost use Rattle.level_pieces.specs.PieceViews.{part_view, parts_view, piece_view, setting_leads};
ghost use Rattle.chart_text.specs.Texts.{behind};
ghost use Rattle.chart_text.specs.WellFormed.{is_at_one};
ghost use Rattle.msc_meaning.specs.LevelItems.{entries, is_item, level_items as items_of_level, number_in, with_piece};
ghost use Rattle.msc_meaning.specs.Pieces as plain;
ghost use Rattle.msc_meaning.specs.Levels.{IsWovenItem, nodes_from};
ghost use Rattle.msc_meaning.specs.Views.{item_view, node_view, reference_view as reference_item};
ghost use Rattle.msc_tree.specs.Views.{form_view, reference_view};

use crate::counting::sum_of;
use crate::numbering::{Numbering, item_number, no_items};
use crate::pieces::{LevelItem, Part, Piece, lead_of};
use crate::references::{copied_expression, copied_joins};
use msc_base::{Items, Name, Names, NoMemory, Place, copy_name};
use msc_meaning::{EventNode, EventNodeList, Item, ReferenceItem};
use msc_tree::{RawEvent, RawForm, RawReference, copy_event};
use std::alloc::Global;

/// Whether a form is an item: conditions and stops are none.
fn counts(form: &RawForm) -> bool
    ensures { result ≡ is_item (form_view form.now) }
{
    match form {
        RawForm::Condition(_, _) => false,
        RawForm::Stop => false,
        _ => true,
    }
}

/// The items of a level in the order of their places, and all their parts in the order of the text.
#[derive(Drop)]
pub struct LevelItems<'a, 'n> {
    /// The items, each with its parts.
    pub items: Vec<LevelItem<'a, 'n>>,
    /// The parts of all items.
    pub parts: Vec<Part<'a, 'n>>,
}

/// Appends the part of an item.
fn push_part<'a, 'n>(
    alloc: Global,
    numbering: &mut Numbering<'a, 'n>,
    parts: &mut Vec<Part<'a, 'n>>,
    piece: Piece<'a, 'n>,
) -> Result<(), NoMemory>
    requires { HasNumbering numbering.old }
    ensures parts { (xs : List (List plain.Piece)) → IsNumbering xs numbering.old → OnOk result (map part_view parts.new.items ≡ map part_view parts.old.items ++ (record { item = number_in xs (piece_view piece.entry); piece = piece_view piece.entry }) ∷ []) }
    ensures numbering { (xs : List (List plain.Piece)) → IsNumbering xs numbering.old → OnOk result (IsNumbering (with_piece xs (piece_view piece.entry)) numbering.new) }
{
    let item = item_number(alloc, numbering, piece)?;
    parts.push(Part { item, piece })?;
    Ok(())
}

/// Appends the piece, where it is a part of an item.
fn add_piece<'a, 'n>(
    alloc: Global,
    numbering: &mut Numbering<'a, 'n>,
    parts: &mut Vec<Part<'a, 'n>>,
    piece: Piece<'a, 'n>,
) -> Result<(), NoMemory>
    requires { HasNumbering numbering.old }
    ensures parts { (xs : List (List plain.Piece)) → IsNumbering xs numbering.old → OnOk result (map part_view parts.new.items ≡ map part_view parts.old.items ++ next_entries xs (piece_view piece.entry)) }
    ensures numbering { (xs : List (List plain.Piece)) → IsNumbering xs numbering.old → OnOk result (IsNumbering (with_next xs (piece_view piece.entry)) numbering.new) }
{
    if counts(piece.form) {
        push_part(alloc, numbering, parts, piece)
    } else {
        Ok(())
    }
}

/// The items of a level.
pub fn level_items<'a, 'n>(
    alloc: Global,
    pieces: &[Piece<'a, 'n>],
) -> Result<LevelItems<'a, 'n>, NoMemory>
    ensures parts { IfOk result (λ items. map part_view items.parts.items ≡ entries (map piece_view pieces.now)) }
    ensures items { IfOk result (λ items. map parts_view items.items.items ≡ items_of_level (map piece_view pieces.now)) }
{
    let mut numbering = no_items(alloc, pieces.len())?;
    let mut parts = Vec::with_capacity(alloc, pieces.len())?;
    for piece in pieces {
        add_piece(alloc, &mut numbering, &mut parts, *piece)?;
    }
    Ok(LevelItems {
        items: numbering.items,
        parts,
    })
}

/// A copy of an event, with its number and its instance.
fn copied_event(
    alloc: Global,
    number: u32,
    at: &Name,
    event: &RawEvent,
) -> Result<EventNode, NoMemory>
    ensures { IfOk result (λ node. node_view node ≡ record { number = number; at = at.now; event = event.now }) }
{
    let at = at.copy(alloc)?;
    let event = copy_event(alloc, event)?;
    Ok(EventNode { number, at, event })
}

/// Copies of the events of a coregion, numbered from `first` on.
fn copied_events(
    alloc: Global,
    first: u32,
    at: &Name,
    list: &[RawEvent],
) -> Result<EventNodeList, NoMemory>
    ensures { IfOk result (λ nodes. map node_view nodes ≡ nodes_from first at.now list.now) }
{
    let mut nodes = Items::new(alloc);
    let mut number = first;
    for event in list {
        nodes.push(copied_event(alloc, number, at, event)?)?;
        number = sum_of(number, 1)?;
    }
    Ok(nodes)
}

/// The instance of an event or a coregion.
fn at_of<'a>(piece: Piece<'a, 'a>) -> &'a Name
    requires { is_at_one (behind (setting_leads piece.setting)) ≡ true }
    ensures { slice_get (piece_view piece.entry).leads 0 ≡ Some result.now }
{
    match lead_of(piece) {
        Some(at) => at,
        None => unreachable!(),
    }
}

/// A copy of a reference that covers these instances.
pub fn copied_reference(
    alloc: Global,
    cover: Names,
    place: Place,
    reference: &RawReference,
) -> Result<ReferenceItem, NoMemory>
    ensures { IfOk result (λ item. reference_item item ≡ refer_item cover place (reference_view reference.now)) }
{
    let name = copy_name(alloc, &reference.name)?;
    let expr = copied_expression(alloc, &reference.expr)?;
    let joins = copied_joins(alloc, reference.joins.as_slice())?;
    Ok(ReferenceItem {
        name,
        expr,
        joins,
        cover,
        place,
    })
}

/// A copy of an event or a coregion with its events.
pub fn copied_events_of(alloc: Global, piece: Piece<'_, '_>) -> Result<Item, NoMemory>
    requires form { has_events (form_view piece.form.now) ≡ true }
    requires at_one { is_at_one (behind (setting_leads piece.setting)) ≡ true }
    ensures { (level : List (List ℕ)) → IfOk result (λ item. IsWovenItem level (piece_view piece.entry ∷ []) (item_view item)) }
{
    match piece.form {
        RawForm::Single(event) => {
            let node = copied_event(alloc, piece.first, at_of(piece), event)?;
            Ok(Item::Single(node))
        }
        RawForm::Coregion(list) => {
            let nodes = copied_events(alloc, piece.first, at_of(piece), list.as_slice())?;
            Ok(Item::Coregion(nodes))
        }
        _ => unreachable!(),
    }
}
