//! The operands of an item, each with the pieces of all its parts: for level_weaving, which weaves them.

ghost use Rattle.std.specs.Prelude.{◌≡◌, ◌≤◌, ◌++◌, IfOk, List, OnOk, map, suc, ℕ};
ghost use Rattle.level_pieces.specs.ItemOperands.{AreOperands, AreWithin, HaveAtMost, IsWithin, operands_in, pieces_view, rest_operand, rests_operand};
ghost use Rattle.level_pieces.specs.PieceViews.{parts_view, piece_view, setting_column, setting_leads};
ghost use Rattle.msc_meaning.specs.Pieces.{operand_of, operands_of};
ghost use Rattle.msc_tree.specs.Statements.{operands as operand_tree};
ghost use Rattle.msc_tree.specs.Views.{form_view, operand_view};

use crate::pieces::{LevelItem, Piece, PieceSide, push_operand};
use msc_base::{Names, NoMemory};
use msc_tree::{RawForm, RawOperand};
use std::alloc::Global;

/// What of the operands of a part is still to be read.
#[derive(Clone, Copy)]
struct PartRest<'a, 'n> {
    /// The part.
    piece: Piece<'a, 'n>,
    /// The operands that are left.
    operands: &'a [RawOperand],
    /// The number of their first event.
    next: u32,
}

/// The pieces of an operand, and what of the parts is left behind it.
#[derive(Drop)]
struct OperandRead<'a, 'n> {
    pieces: Vec<Piece<'a, 'n>>,
    rests: Vec<PartRest<'a, 'n>>,
}

/// The operands of an inline expression; other forms have none.
pub fn operands_of_form(form: &RawForm) -> &[RawOperand]
    ensures { operand_tree (map operand_view result.now) ≡ operands_in (form_view form.now) }
{
    match form {
        RawForm::Inline(held) => held.operands.as_slice(),
        _ => &[],
    }
}

/// The instances that the levels of an item's operands cover, and those that the level covers behind whose `all` the item stands, where
/// it does.
#[derive(Drop)]
pub struct LevelNames {
    /// What the item covers.
    pub cover: Names,
    /// What the level behind whose `all` it stands covers.
    pub outer: Names,
}

/// The same place, by these names.
fn setting_within<'a, 'n>(setting: PieceSide<'a, '_>, names: &'n LevelNames) -> PieceSide<'a, 'n>
    requires { IsWithin names.now.outer setting }
    ensures column { setting_column result ≡ setting_column setting.entry }
    ensures leads { setting_leads result ≡ setting_leads setting.entry }
{
    match setting {
        PieceSide::InColumn(name) => PieceSide::InColumn(name),
        PieceSide::Behind(listed) => PieceSide::Behind(listed),
        PieceSide::Inside(_) => PieceSide::Inside(&names.outer),
    }
}

/// All operands of a part.
fn whole<'a, 'n>(piece: Piece<'a, '_>, names: &'n LevelNames) -> PartRest<'a, 'n>
    requires { IsWithin names.now.outer piece.setting }
    ensures { (level : List (List ℕ)) (k : ℕ) → rest_operand level k result ≡ operand_of level k (piece_view piece.entry) (piece_view piece.entry).form }
{
    let piece = Piece {
        setting: setting_within(piece.setting, names),
        place: piece.place,
        form: piece.form,
        first: piece.first,
    };
    PartRest {
        piece,
        operands: operands_of_form(piece.form),
        next: piece.first,
    }
}

/// All operands of the parts of an item.
fn all_rests<'a, 'n>(
    alloc: Global,
    item: &LevelItem<'a, '_>,
    names: &'n LevelNames,
) -> Result<Vec<PartRest<'a, 'n>>, NoMemory>
    requires { AreWithin names.now.outer item.now }
    ensures { (level : List (List ℕ)) (k : ℕ) → IfOk result (λ rests. rests_operand level k rests.items ≡ operands_of level k (parts_view item.now)) }
{
    let mut rests = Vec::new(alloc);
    rests.push(whole(item.first, names))?;
    for part in item.others.as_slice() {
        rests.push(whole(*part, names))?;
    }
    Ok(rests)
}

/// Adds the pieces of the next operand of a part, and gives what is left behind it.
fn next_operand<'a, 'n>(
    pieces: &mut Vec<Piece<'a, 'n>>,
    level: &'n Names,
    rest: PartRest<'a, 'n>,
) -> Result<PartRest<'a, 'n>, NoMemory>
    ensures pieces { OnOk result (map piece_view pieces.new.items ≡ map piece_view pieces.old.items ++ rest_operand level.now 0 rest.entry) }
    ensures rest { (cover : List (List ℕ)) (k : ℕ) → IfOk result (λ left. rest_operand cover k left ≡ rest_operand cover (suc k) rest.entry) }
{
    match rest.operands.split_first() {
        None => Ok(rest),
        Some((operand, others)) => {
            let next = push_operand(pieces, level, rest.piece, rest.next, operand)?;
            Ok(PartRest {
                piece: rest.piece,
                operands: others,
                next,
            })
        }
    }
}

/// The pieces of the next operand, of all parts.
fn next_operands<'a, 'n>(
    alloc: Global,
    level: &'n Names,
    rests: &[PartRest<'a, 'n>],
) -> Result<OperandRead<'a, 'n>, NoMemory>
    ensures pieces { IfOk result (λ read. map piece_view read.pieces.items ≡ rests_operand level.now 0 rests.now) }
    ensures rests { (cover : List (List ℕ)) (k : ℕ) → IfOk result (λ read. rests_operand cover k read.rests.items ≡ rests_operand cover (suc k) rests.now) }
{
    let mut pieces = Vec::new(alloc);
    let mut left = Vec::new(alloc);
    for rest in rests {
        left.push(next_operand(&mut pieces, level, *rest)?)?;
    }
    Ok(OperandRead {
        pieces,
        rests: left,
    })
}

/// The larger of the two.
fn larger(a: usize, b: usize) -> usize
    ensures a { a ≤ result }
    ensures b { b ≤ result }
{
    if a < b { b } else { a }
}

/// How many operands a part of the item has at most.
fn most_operands(item: &LevelItem<'_, '_>) -> usize
    ensures { HaveAtMost result (parts_view item.now) }
{
    let mut most = operands_of_form(item.first.form).len();
    for part in item.others.as_slice() {
        most = larger(most, operands_of_form(part.form).len());
    }
    most
}

/// The operands of an item, by the names of their levels, each by its pieces.
pub fn item_operands<'a, 'n>(
    alloc: Global,
    names: &'n LevelNames,
    item: &LevelItem<'a, '_>,
) -> Result<Vec<Vec<Piece<'a, 'n>>>, NoMemory>
    requires { AreWithin names.now.outer item.now }
    ensures { IfOk result (λ lists. AreOperands names.now.cover (parts_view item.now) (map pieces_view lists.items)) }
{
    let most = most_operands(item);
    let mut rests = all_rests(alloc, item, names)?;
    let mut lists = Vec::new(alloc);
    for _number in 0..most {
        let read = next_operands(alloc, &names.cover, rests.as_slice())?;
        lists.push(read.pieces)?;
        rests = read.rests;
    }
    Ok(lists)
}
