//! Weaves levels, with the operands of their inline expressions: for `weaving`.

ghost use Rattle.std.specs.Prelude.{◌≡◌, ◌<◌, All, IfOk, List, Some, drop, false, length, map, take, true, ℕ};
ghost use Rattle.column_order.specs.Weaving.{IsCrossedAt, IsWoven};
ghost use Rattle.level_pieces.specs.ItemOperands.{AreOperands, operands_in, pieces_view};
ghost use Rattle.level_pieces.specs.ItemParts.{AreItems, AreParts, has_events};
ghost use Rattle.level_pieces.specs.PieceNumbers.{AreNumbered};
ghost use Rattle.level_pieces.specs.PieceViews.{parts_view, piece_view};
ghost use Rattle.level_pieces.specs.FormedPieces.{AreFormed};
ghost use Rattle.level_weaving.specs.Answers.{AreItemsAnswer, AreLevels, AreLevelsAnswer, IsItemAnswer, IsLevelAnswer};
ghost use Rattle.level_weaving.specs.JointItems.{joint_item_of};
ghost use Rattle.level_weaving.specs.LevelNumbers.{numbers_to};
ghost use Rattle.msc_base.specs.Lists.{AreDifferent};
ghost use Rattle.msc_meaning.specs.Bodies.{bodies as body_list, items as item_list, level as plain_level};
ghost use Rattle.msc_meaning.specs.LevelItems.{columns_of, cover_of, entries, is_item, level_items as items_of_level};
ghost use Rattle.msc_meaning.specs.Levels.{operand_number};
ghost use Rattle.msc_meaning.specs.Pieces as plain;
ghost use Rattle.msc_meaning.specs.Views.{body_view, item_view};

use crate::alone::first_unmatched;
use crate::answers::{Answer, Gathered, crossed_place, earlier_than};
use crate::events::ordered_events;
use crate::matching::pairs_of;
use crate::pairing::level_pairs;
use column_order::{Sorted, text_order};
use level_pieces::{
    LevelItem, Piece, copied_events_of, copied_reference, earlier_of, is_event, item_names,
    item_operands, level_items, operands_of_form, woven_order,
};
use msc_base::{Names, NoMemory, PairList, copy_name, copy_names, number_of};
use msc_meaning::{Body, InlineItem, Item};
use msc_tree::RawForm;
use std::alloc::Global;

/// What an event or a coregion is woven to.
fn event_answer(
    alloc: Global,
    level: &Names,
    item: &LevelItem<'_, '_>,
) -> Result<Answer<Item>, NoMemory>
    requires parts { AreParts (parts_view item.now) }
    requires events { has_events (piece_view item.now.first).form ≡ true }
    ensures { IfOk result (IsItemAnswer level.now (parts_view item.now)) }
{
    let copied = copied_events_of(alloc, item.first)?;
    Ok(Answer::Woven(copied, None))
}

/// The item that begins with the piece and covers these instances: an inline expression of these operands, or a reference, which has
/// none.
pub fn joint_item(
    alloc: Global,
    cover: &Names,
    piece: Piece<'_, '_>,
    operands: Vec<Body>,
) -> Result<Item, NoMemory>
    requires events { has_events (piece_view piece).form ≡ false }
    requires item { is_item (piece_view piece).form ≡ true }
    ensures { IfOk result (λ item. item_view item ≡ joint_item_of cover.now piece.entry.place (piece_view piece.entry).form (body_list (map body_view operands.items))) }
{
    let names = copy_names(alloc, cover.as_slice())?;
    match piece.form {
        RawForm::Inline(held) => {
            let name = copy_name(alloc, &held.name)?;
            Ok(Item::Inline(InlineItem {
                form: held.form,
                lower: held.lower,
                upper: held.upper,
                name,
                cover: names,
                place: piece.place,
                operands,
            }))
        }
        RawForm::Reference(held) => {
            let reference = copied_reference(alloc, names, piece.place, held)?;
            Ok(Item::Reference(reference))
        }
        _ => unreachable!(),
    }
}

/// What an inline expression or a reference is woven to, whose own operands, and those that its other parts have beyond, are woven.
fn joint_answer(
    alloc: Global,
    cover: &Names,
    item: &LevelItem<'_, '_>,
    own: Answer<Vec<Body>>,
    beyond: &Answer<Vec<Body>>,
) -> Result<Answer<Item>, NoMemory>
    requires events { has_events (piece_view item.now.first).form ≡ false }
    requires item { is_item (piece_view item.now.first).form ≡ true }
    ensures { (level : List (List ℕ)) (lists : List (List plain.Piece)) → AreOperands cover.now (parts_view item.now) lists → cover.now ≡ cover_of level (piece_view item.now.first) → AreLevelsAnswer cover.now (take (operand_number (operands_in (piece_view item.now.first).form)) lists) own → AreLevelsAnswer cover.now (drop (operand_number (operands_in (piece_view item.now.first).form)) lists) beyond.now → IfOk result (IsItemAnswer level (parts_view item.now)) }
{
    match own {
        Answer::Crossed(place) => Ok(Answer::Crossed(earlier_than(crossed_place(beyond), place))),
        Answer::Woven(operands, alone) => match crossed_place(beyond) {
            Some(place) => Ok(Answer::Crossed(place)),
            None => {
                let made = joint_item(alloc, cover, item.first, operands)?;
                Ok(Answer::Woven(made, alone))
            }
        },
    }
}

/// The numbers below that one.
fn all_numbers(alloc: Global, count: usize) -> Result<Vec<u32>, NoMemory>
    ensures { IfOk result (λ numbers. numbers.items ≡ numbers_to count) }
{
    let count = number_of(count)?;
    text_order(alloc, count)
}

/// The body of these parts.
fn made_body(cover: Names, items: Vec<Item>, pairs: PairList) -> Body
    ensures { body_view result ≡ plain_level cover (item_list (map item_view items.items)) pairs }
{
    Body {
        cover,
        items,
        pairs,
    }
}

/// The body of a level, whose items are woven, in the order that they have.
fn whole_level<'a>(
    alloc: Global,
    cover: &Names,
    pieces: &[Piece<'_, '_>],
    items: &[LevelItem<'a, 'a>],
    order: &[u32],
    answer: Answer<Vec<Item>>,
) -> Result<Answer<Body>, NoMemory>
    requires numbered { AreNumbered 0 (map piece_view pieces.now) }
    requires formed { AreFormed (map piece_view pieces.now) }
    requires items { map parts_view items.now ≡ items_of_level (map piece_view pieces.now) }
    requires order { IsWoven (length (items_of_level (map piece_view pieces.now))) (columns_of (entries (map piece_view pieces.now)) cover.now) order.now }
    requires answer { AreItemsAnswer cover.now (map parts_view items.now) order.now answer }
    ensures { IfOk result (IsLevelAnswer cover.now (map piece_view pieces.now)) }
{
    match answer {
        Answer::Crossed(place) => Ok(Answer::Crossed(place)),
        Answer::Woven(list, inner) => {
            let events = ordered_events(alloc, items, order)?;
            let pairs = pairs_of(alloc, events.as_slice())?;
            let by_number = level_pairs(alloc, events.as_slice(), pairs.as_slice())?;
            let own = first_unmatched(alloc, events.as_slice(), pairs.as_slice())?;
            let names = copy_names(alloc, cover.as_slice())?;
            let body = made_body(names, list, by_number);
            Ok(Answer::Woven(body, earlier_of(own, inner)))
        }
    }
}

/// Where columns of a level cross, of whose items that one remains first.
fn stuck_level(
    cover: &Names,
    pieces: &[Piece<'_, '_>],
    items: &[LevelItem<'_, '_>],
    number: u32,
    answer: &Answer<Vec<Item>>,
) -> Answer<Body>
    requires items { map parts_view items.now ≡ items_of_level (map piece_view pieces.now) }
    requires low { number < length items.now }
    requires stuck { IsCrossedAt (length (items_of_level (map piece_view pieces.now))) (columns_of (entries (map piece_view pieces.now)) cover.now) number }
    requires answer { AreItemsAnswer cover.now (map parts_view items.now) (numbers_to (length items.now)) answer.now }
    ensures { IsLevelAnswer cover.now (map piece_view pieces.now) result }
{
    let place = items[number as usize].first.place;
    Answer::Crossed(earlier_than(crossed_place(answer), place))
}

/// What a level is woven to, by the instances that it covers and its pieces.
#[cycle(levels)]
pub fn woven_level(
    alloc: Global,
    cover: &Names,
    pieces: &[Piece<'_, '_>],
) -> Result<Answer<Body>, NoMemory>
    requires different { AreDifferent cover.now }
    requires numbered { AreNumbered 0 (map piece_view pieces.now) }
    requires formed { AreFormed (map piece_view pieces.now) }
    ensures { IfOk result (IsLevelAnswer cover.now (map piece_view pieces.now)) }
{
    let items = level_items(alloc, &*pieces)?;
    let list = items.items.as_slice();
    match woven_order(alloc, cover.as_slice(), list.len(), items.parts.as_slice())? {
        Sorted::Whole(order) => {
            let answer = woven_items(alloc, cover, list, order.as_slice())?;
            whole_level(alloc, cover, pieces, list, order.as_slice(), answer)
        }
        Sorted::Stuck(number) => {
            let order = all_numbers(alloc, list.len())?;
            let answer = woven_items(alloc, cover, list, order.as_slice())?;
            Ok(stuck_level(cover, pieces, list, number, &answer))
        }
    }
}

/// What the items of these numbers are woven to.
#[cycle(levels)]
fn woven_items(
    alloc: Global,
    level: &Names,
    items: &[LevelItem<'_, '_>],
    order: &[u32],
) -> Result<Answer<Vec<Item>>, NoMemory>
    requires different { AreDifferent level.now }
    requires items { AreItems (map parts_view items.now) }
    requires low { All (λ x. x < length items.now) order.now }
    ensures { IfOk result (AreItemsAnswer level.now (map parts_view items.now) order.now) }
{
    let mut gathered = Gathered::with_room(alloc, order.len())?;
    for number in order {
        let answer = woven_item(alloc, level, &items[*number as usize])?;
        gathered.add(answer)?;
    }
    Ok(gathered.answer())
}

/// What an item is woven to.
#[cycle(levels)]
fn woven_item(
    alloc: Global,
    level: &Names,
    item: &LevelItem<'_, '_>,
) -> Result<Answer<Item>, NoMemory>
    requires different { AreDifferent level.now }
    requires parts { AreParts (parts_view item.now) }
    ensures { IfOk result (IsItemAnswer level.now (parts_view item.now)) }
{
    if is_event(item.first.form) {
        return event_answer(alloc, level, item);
    }
    let names = item_names(alloc, level, item.first)?;
    let operands = item_operands(alloc, &names, item)?;
    let (own, others) = operands
        .as_slice()
        .split_at(operands_of_form(item.first.form).len());
    let answer = woven_levels(alloc, &names.cover, own)?;
    let beyond = woven_levels(alloc, &names.cover, others)?;
    joint_answer(alloc, &names.cover, item, answer, &beyond)
}

/// What several levels that cover the same instances are woven to, each by its pieces.
#[cycle(levels)]
fn woven_levels(
    alloc: Global,
    cover: &Names,
    lists: &[Vec<Piece<'_, '_>>],
) -> Result<Answer<Vec<Body>>, NoMemory>
    requires different { AreDifferent cover.now }
    requires levels { AreLevels (map pieces_view lists.now) }
    ensures { IfOk result (AreLevelsAnswer cover.now (map pieces_view lists.now)) }
{
    let mut gathered = Gathered::new(alloc);
    for pieces in lists {
        let answer = woven_level(alloc, cover, pieces.as_slice())?;
        gathered.add(answer)?;
    }
    Ok(gathered.answer())
}
