//! What stands on a level, piece by piece, with its events numbered: for `weaving`, which weaves a level of its pieces.

ghost use Rattle.std.specs.Prelude.{◌≡◌, ◌+◌, ◌++◌, ◌∷◌, [], IfOk, None, OnOk, map, option_copied, slice_get};
ghost use Rattle.level_pieces.specs.PieceViews.{piece_view, setting_column, setting_leads};
ghost use Rattle.msc_meaning.specs.Pieces.{covered, items_count as count_of_items, items_pieces, operand_count as count_of_operand, operand_pieces, statement_count as count_of_statement, statement_pieces, statements_count as count_of_statements, statements_pieces};
ghost use Rattle.msc_tree.specs.Statements.{items as item_tree, statements as statement_tree};
ghost use Rattle.msc_tree.specs.Views.{item_view, operand_view, statement_view};

use crate::counting::{form_count, sum_of};
use msc_base::{Name, Names, NoMemory, Place};
use msc_tree::{Cover, FewNames, RawForm, RawItem, RawOperand, Statement};
use std::alloc::Global;
use std::slice;

/// Where a piece stands on its level.
#[derive(Clone, Copy)]
pub enum PieceSide<'a, 'n> {
    /// In the column of that instance.
    InColumn(&'a Name),
    /// Behind a colon, with these instances left of it.
    Behind(&'a FewNames),
    /// Behind a colon with `all` left of it, or in a column inside such: these instances are what that level covers.
    Inside(&'n Names),
}

/// What stands in a column or behind a colon, on one level.
#[derive(Clone, Copy)]
pub struct Piece<'a, 'n> {
    /// Where it stands on the level.
    pub setting: PieceSide<'a, 'n>,
    /// Where it stands in the text.
    pub place: Place,
    /// What it is.
    pub form: &'a RawForm,
    /// The number of its first event.
    pub first: u32,
}

/// An item of a level: all its parts.
#[derive(Drop)]
pub struct LevelItem<'a, 'n> {
    /// The first part.
    pub first: Piece<'a, 'n>,
    /// The other parts, in the order of the text.
    pub others: Vec<Piece<'a, 'n>>,
}

/// A part of an item.
#[derive(Clone, Copy)]
pub struct Part<'a, 'n> {
    /// The number of the item.
    pub item: u32,
    /// The piece.
    pub piece: Piece<'a, 'n>,
}

/// Appends a piece.
fn push_piece<'a, 'n>(pieces: &mut Vec<Piece<'a, 'n>>, piece: Piece<'a, 'n>) -> Result<(), NoMemory>
    ensures { OnOk result (map piece_view pieces.new.items ≡ map piece_view pieces.old.items ++ piece_view piece.entry ∷ []) }
{
    pieces.push(piece)?;
    Ok(())
}

/// The first of the instances in whose columns a piece stands, where there is one.
pub fn lead_of<'a>(piece: Piece<'a, 'a>) -> Option<&'a Name>
    ensures { option_copied result ≡ slice_get (piece_view piece.entry).leads 0 }
{
    match piece.setting {
        PieceSide::InColumn(name) => Some(name),
        PieceSide::Behind(names) => names.as_slice().first(),
        PieceSide::Inside(names) => names.as_slice().first(),
    }
}

/// Where a piece behind a colon stands; `all` is what the level covers.
fn behind<'a, 'n>(level: &'n Names, cover: &'a Cover) -> PieceSide<'a, 'n>
    ensures column { setting_column result ≡ None }
    ensures leads { setting_leads result ≡ covered level.now cover.now }
{
    match cover {
        Cover::All => PieceSide::Inside(level),
        Cover::Listed(names) => PieceSide::Behind(names),
    }
}

/// Adds the pieces of items, whose events are numbered from `first` on, and gives the number behind them.
fn items<'a, 'n>(
    pieces: &mut Vec<Piece<'a, 'n>>,
    setting: PieceSide<'a, 'n>,
    first: u32,
    list: &'a [RawItem],
) -> Result<u32, NoMemory>
    ensures pieces { OnOk result (map piece_view pieces.new.items ≡ map piece_view pieces.old.items ++ items_pieces (setting_column setting.entry) (setting_leads setting.entry) first (item_tree (map item_view list.now))) }
    ensures next { IfOk result (λ next. next ≡ first + count_of_items (item_tree (map item_view list.now))) }
{
    let mut next = first;
    for held in list {
        let piece = Piece {
            setting,
            place: held.place.get(),
            form: &held.form,
            first: next,
        };
        push_piece(pieces, piece)?;
        let more = form_count(&held.form)?;
        next = sum_of(next, more)?;
    }
    Ok(next)
}

/// The same of a statement.
fn statement<'a, 'n>(
    pieces: &mut Vec<Piece<'a, 'n>>,
    level: &'n Names,
    first: u32,
    statement: &'a Statement,
) -> Result<u32, NoMemory>
    ensures pieces { OnOk result (map piece_view pieces.new.items ≡ map piece_view pieces.old.items ++ statement_pieces level.now first (statement_view statement.now)) }
    ensures next { IfOk result (λ next. next ≡ first + count_of_statement (statement_view statement.now)) }
{
    match statement {
        Statement::Column(decl, list) => {
            items(
                pieces,
                PieceSide::InColumn(&decl.decl().name),
                first,
                list.as_slice(),
            )
        }
        Statement::One(cover, held) => {
            items(pieces, behind(level, cover), first, slice::from_ref(held))
        }
        Statement::Covered(cover, list) => {
            items(pieces, behind(level, cover), first, list.as_slice())
        }
        Statement::Heading(_) => Ok(first),
        Statement::Ended(_) => Ok(first),
    }
}

/// The same of statements.
fn statements<'a, 'n>(
    pieces: &mut Vec<Piece<'a, 'n>>,
    level: &'n Names,
    first: u32,
    list: &'a [Statement],
) -> Result<u32, NoMemory>
    ensures pieces { OnOk result (map piece_view pieces.new.items ≡ map piece_view pieces.old.items ++ statements_pieces level.now first (statement_tree (map statement_view list.now))) }
    ensures next { IfOk result (λ next. next ≡ first + count_of_statements (statement_tree (map statement_view list.now))) }
{
    let mut next = first;
    for held in list {
        next = statement(pieces, level, next, held)?;
    }
    Ok(next)
}

/// Adds the pieces of an operand of a piece that covers these instances, whose events are numbered from `first` on, and gives the
/// number behind them.
pub fn push_operand<'a, 'n>(
    pieces: &mut Vec<Piece<'a, 'n>>,
    level: &'n Names,
    piece: Piece<'a, 'n>,
    first: u32,
    operand: &'a RawOperand,
) -> Result<u32, NoMemory>
    ensures pieces { OnOk result (map piece_view pieces.new.items ≡ map piece_view pieces.old.items ++ operand_pieces level.now (piece_view piece.entry) first (operand_view operand.now)) }
    ensures next { IfOk result (λ next. next ≡ first + count_of_operand (operand_view operand.now)) }
{
    match operand {
        RawOperand::Column(list) => items(pieces, piece.setting, first, list.as_slice()),
        RawOperand::Covered(list) => statements(pieces, level, first, list.as_slice()),
    }
}

/// The pieces of the outermost level of a chart of these instances.
pub fn chart_pieces<'a, 'n>(
    alloc: Global,
    names: &'n Names,
    list: &'a [Statement],
) -> Result<Vec<Piece<'a, 'n>>, NoMemory>
    ensures { IfOk result (λ pieces. map piece_view pieces.items ≡ statements_pieces names.now 0 (statement_tree (map statement_view list.now))) }
{
    let mut pieces = Vec::with_capacity(alloc, list.len())?;
    statements(&mut pieces, names, 0, list)?;
    Ok(pieces)
}
