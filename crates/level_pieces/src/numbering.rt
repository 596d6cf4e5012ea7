//! Numbers the items of a level: parts of one name in its columns are one item. `items` gathers them.

ghost use Rattle.std.specs.Prelude.{◌≡◌, ◌<◌, ◌++◌, ◌∷◌, [], IfOk, List, OnOk, Some, length, map, option_copied};
ghost use Rattle.level_pieces.specs.ItemNumbers.{HasNumbering, IsNumbering, joint_name, with_part};
ghost use Rattle.level_pieces.specs.PieceViews.{parts_view, piece_view};
ghost use Rattle.msc_base.specs.NameTables.{with_name};
ghost use Rattle.msc_meaning.specs.LevelItems.{name_of, number_in, with_piece};
ghost use Rattle.msc_meaning.specs.Pieces as plain;
ghost use Rattle.msc_tree.specs.Views.{form_view};

use crate::pieces::{LevelItem, Piece, PieceSide};
use msc_base::{Name, NameTable, NoMemory, number_of};
use msc_tree::RawForm;
use std::alloc::Global;

/// The items of a level so far, with their parts, and the numbers of those that have names in columns, by the names' places in a
/// table.
#[derive(Drop)]
pub struct Numbering<'a, 'n> {
    names: NameTable,
    numbers: Vec<u32>,
    /// The items, in the order of their numbers.
    pub items: Vec<LevelItem<'a, 'n>>,
}

/// No items, with room for so many.
pub fn no_items<'a, 'n>(alloc: Global, room: usize) -> Result<Numbering<'a, 'n>, NoMemory>
    ensures { IfOk result (IsNumbering []) }
{
    let items = Vec::with_capacity(alloc, room)?;
    Ok(Numbering {
        names: NameTable::new(alloc),
        numbers: Vec::new(alloc),
        items,
    })
}

/// The name of an inline expression or a reference.
fn name_of(form: &RawForm) -> Option<&Name>
    ensures { option_copied result ≡ name_of (form_view form.now) }
{
    match form {
        RawForm::Inline(held) => held.name.as_ref(),
        RawForm::Reference(held) => held.name.as_ref(),
        _ => None,
    }
}

/// The name by which parts in columns are one item.
fn joint_name<'a, 'n>(piece: Piece<'a, 'n>) -> Option<&'a Name>
    ensures { option_copied result ≡ joint_name (piece_view piece.entry) }
{
    match piece.setting {
        PieceSide::InColumn(_) => name_of(piece.form),
        PieceSide::Behind(_) => None,
        PieceSide::Inside(_) => None,
    }
}

/// An item that begins with the piece; its number.
fn new_item<'a, 'n>(
    alloc: Global,
    numbering: &mut Numbering<'a, 'n>,
    piece: Piece<'a, 'n>,
) -> Result<u32, NoMemory>
    ensures number { IfOk result (λ number. number ≡ length numbering.old.items.items) }
    ensures items { OnOk result (map parts_view numbering.new.items.items ≡ map parts_view numbering.old.items.items ++ (piece_view piece.entry ∷ []) ∷ []) }
    ensures names { numbering.new.names ≡ numbering.old.names }
    ensures numbers { numbering.new.numbers ≡ numbering.old.numbers }
{
    let number = number_of(numbering.items.len())?;
    let others = Vec::new(alloc);
    numbering.items.push(LevelItem {
        first: piece,
        others,
    })?;
    Ok(number)
}

/// An item that begins with the piece, which has a name that no item has; its number.
fn new_named<'a, 'n>(
    alloc: Global,
    numbering: &mut Numbering<'a, 'n>,
    name: &Name,
    piece: Piece<'a, 'n>,
) -> Result<u32, NoMemory>
    ensures number { IfOk result (λ number. number ≡ length numbering.old.items.items) }
    ensures items { OnOk result (map parts_view numbering.new.items.items ≡ map parts_view numbering.old.items.items ++ (piece_view piece.entry ∷ []) ∷ []) }
    ensures names { OnOk result (numbering.new.names ≡ with_name numbering.old.names name.now) }
    ensures numbers { OnOk result (numbering.new.numbers.items ≡ numbering.old.numbers.items ++ length numbering.old.items.items ∷ []) }
{
    let number = new_item(alloc, numbering, piece)?;
    numbering.names.add(alloc, name.bytes())?;
    numbering.numbers.push(number)?;
    Ok(number)
}

/// Adds the piece to the parts of the item of that number.
fn add_part<'a, 'n>(
    numbering: &mut Numbering<'a, 'n>,
    number: u32,
    piece: Piece<'a, 'n>,
) -> Result<(), NoMemory>
    requires { number < length numbering.old.items.items }
    ensures items { OnOk result (map parts_view numbering.new.items.items ≡ with_part (map parts_view numbering.old.items.items) number (piece_view piece.entry)) }
    ensures names { numbering.new.names ≡ numbering.old.names }
    ensures numbers { numbering.new.numbers ≡ numbering.old.numbers }
{
    numbering.items[number as usize].others.push(piece)?;
    Ok(())
}

/// The number of the item whose part the piece is, which has that name in a column.
fn named_item<'a, 'n>(
    alloc: Global,
    numbering: &mut Numbering<'a, 'n>,
    name: &Name,
    piece: Piece<'a, 'n>,
) -> Result<u32, NoMemory>
    requires { HasNumbering numbering.old }
    ensures number { (xs : List (List plain.Piece)) → IsNumbering xs numbering.old → joint_name (piece_view piece.entry) ≡ Some name.now → IfOk result (λ number. number ≡ number_in xs (piece_view piece.entry)) }
    ensures numbering { (xs : List (List plain.Piece)) → IsNumbering xs numbering.old → joint_name (piece_view piece.entry) ≡ Some name.now → OnOk result (IsNumbering (with_piece xs (piece_view piece.entry)) numbering.new) }
{
    match numbering.names.number_of(name.bytes()) {
        Some(index) => {
            let number = numbering.numbers[index];
            add_part(numbering, number, piece)?;
            Ok(number)
        }
        None => new_named(alloc, numbering, name, piece),
    }
}

/// The number of the item whose part the piece is.
pub fn item_number<'a, 'n>(
    alloc: Global,
    numbering: &mut Numbering<'a, 'n>,
    piece: Piece<'a, 'n>,
) -> Result<u32, NoMemory>
    requires { HasNumbering numbering.old }
    ensures number { (xs : List (List plain.Piece)) → IsNumbering xs numbering.old → IfOk result (λ number. number ≡ number_in xs (piece_view piece.entry)) }
    ensures numbering { (xs : List (List plain.Piece)) → IsNumbering xs numbering.old → OnOk result (IsNumbering (with_piece xs (piece_view piece.entry)) numbering.new) }
{
    match joint_name(piece) {
        Some(name) => named_item(alloc, numbering, name, piece),
        None => new_item(alloc, numbering, piece),
    }
}
