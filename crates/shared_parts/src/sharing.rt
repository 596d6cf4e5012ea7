//! Which parts of an item aren't shared: for `noting`.

ghost use Rattle.std.specs.Prelude.{◌≡◌, ◌↔◌, ◌⊎◌, ◌&&◌, IfOk, IsTrue, List, OnOk, Some, map, not, option_copied, true, ℕ};
ghost use Rattle.std.specs.List.{list_any};
ghost use Rattle.std.specs.Str.{bytes_eq};
ghost use Rattle.level_pieces.specs.PieceViews.{parts_view, piece_view, setting_column};
ghost use Rattle.msc_base.specs.Lists.{IsAmong};
ghost use Rattle.msc_meaning.specs.LevelItems.{cover_by, cover_of, name_of, shared_of};
ghost use Rattle.msc_tree.specs.Views.{form_view};
ghost use Rattle.shared_parts.specs.Sharing.{AllAmong, AllCover, HaveSame, IsKnown, IsSharing, OneCoversOthers, OneIsMissing, StandsOne, Tells, has_several, is_unshared_in, lacks_name};

use level_pieces::{LevelItem, Piece, PieceSide, covered, item_cover};
use msc_base::{Name, NameTable, Names, NoMemory};
use msc_tree::{Cover, RawForm};
use std::alloc::Global;

/// What the parts of an item have in common.
#[derive(Drop)]
pub struct Sharing {
    /// Whether every part in a column isn't shared: their lists differ, or one of the names has no part in its column.
    all_break: bool,
    /// Whether the first part covers several instances.
    several: bool,
    /// The instances that the first part covers.
    names: NameTable,
}

/// Whether the lists have the same names in the same order.
fn same_names(a: &[Name], b: &[Name]) -> bool
    ensures { IsTrue result ↔ (a.now ≡ b.now) }
{
    if a.len() != b.len() {
        return false;
    }
    for index in 0..a.len() {
        if !a[index].same(&b[index]) {
            return false;
        }
    }
    true
}

/// The shared list of a form.
fn list_of(form: &RawForm) -> Option<&Cover>
    ensures { option_copied result ≡ shared_of (form_view form.now) }
{
    match form {
        RawForm::Inline(held) => held.shared.as_ref(),
        RawForm::Reference(held) => held.shared.as_ref(),
        _ => None,
    }
}

/// What the first part of an item covers, for comparing lists with it.
#[derive(Clone, Copy)]
struct Known<'a> {
    /// The instances.
    names: &'a NameTable,
    /// Whether they are all of the level.
    is_all: bool,
    /// Whether they are instances of the level, in its order.
    is_kept: bool,
}

/// What the first part of an item covers: these instances, of which that is the table.
fn known_of<'a>(
    alloc: Global,
    level: &Names,
    cover: &Names,
    names: &'a NameTable,
) -> Result<Known<'a>, NoMemory>
    requires { (i : List ℕ) → list_any (bytes_eq i) names.now ≡ list_any (bytes_eq i) cover.now }
    ensures { IfOk result (IsKnown level.now cover.now) }
{
    let kept = covered(alloc, level, PieceSide::Inside(cover), &None)?;
    Ok(Known {
        names,
        is_all: same_names(level.as_slice(), cover.as_slice()),
        is_kept: same_names(kept.as_slice(), cover.as_slice()),
    })
}

/// Whether the lists have the same names, in whatever order; the table is that of the second.
fn same_sets(
    alloc: Global,
    names: &[Name],
    cover: &[Name],
    table: &NameTable,
) -> Result<bool, NoMemory>
    requires { (i : List ℕ) → list_any (bytes_eq i) table.now ≡ list_any (bytes_eq i) cover.now }
    ensures { IfOk result (λ same. IsTrue same → HaveSame names.now cover.now) }
{
    if !all_among(table, names) {
        return Ok(false);
    }
    let own = NameTable::of(alloc, names)?;
    Ok(all_among(&own, cover))
}

/// Whether a shared list is seen to cover these instances, in any column, without a look at the level. What isn't seen may still be so.
fn covers_these(
    alloc: Global,
    cover: &Names,
    known: &Known<'_>,
    shared: Option<&Cover>,
) -> Result<bool, NoMemory>
    requires { (i : List ℕ) → list_any (bytes_eq i) known.now.names.now ≡ list_any (bytes_eq i) cover.now }
    ensures { (level leads : List (List ℕ)) (i : List ℕ) → IsKnown level cover.now known.now → IfOk result (λ same. IsTrue same → cover_by level leads (Some i) (option_copied shared.entry) ≡ cover.now) }
{
    match shared {
        None => Ok(false),
        Some(Cover::All) => Ok(known.is_all),
        Some(Cover::Listed(names)) => {
            if names.len() == 0 || !known.is_kept {
                return Ok(false);
            }
            same_sets(alloc, names.as_slice(), cover.as_slice(), known.names)
        }
    }
}

/// Whether a part in a column is seen to cover these instances.
fn is_seen_same(
    alloc: Global,
    cover: &Names,
    known: &Known<'_>,
    piece: Piece<'_, '_>,
) -> Result<bool, NoMemory>
    requires { (i : List ℕ) → list_any (bytes_eq i) known.now.names.now ≡ list_any (bytes_eq i) cover.now }
    ensures { (level : List (List ℕ)) → IsKnown level cover.now known.now → IfOk result (λ same. IsTrue same → cover_of level (piece_view piece.entry) ≡ cover.now) }
{
    match piece.setting {
        PieceSide::InColumn(_) => covers_these(alloc, cover, known, list_of(piece.form)),
        _ => Ok(false),
    }
}

/// Whether a part covers these instances.
fn covers_same(
    alloc: Global,
    level: &Names,
    cover: &Names,
    known: &Known<'_>,
    piece: Piece<'_, '_>,
) -> Result<bool, NoMemory>
    requires { IsKnown level.now cover.now known.now }
    ensures { IfOk result (λ same. IsTrue same ↔ (cover_of level.now (piece_view piece.entry) ≡ cover.now)) }
{
    if is_seen_same(alloc, cover, known, piece)? {
        return Ok(true);
    }
    let own = item_cover(alloc, level, piece)?;
    Ok(same_names(own.as_slice(), cover.as_slice()))
}

/// Whether the parts behind the first cover these instances, of which that is the table.
fn all_cover(
    alloc: Global,
    level: &Names,
    cover: &Names,
    names: &NameTable,
    others: &[Piece<'_, '_>],
) -> Result<bool, NoMemory>
    requires { (i : List ℕ) → list_any (bytes_eq i) names.now ≡ list_any (bytes_eq i) cover.now }
    ensures { IfOk result (λ same. Tells same (AllCover level.now cover.now (map piece_view others.now)) (OneCoversOthers level.now cover.now (map piece_view others.now))) }
{
    if others.len() == 0 {
        return Ok(true);
    }
    let known = known_of(alloc, level, cover, names)?;
    for part in others {
        if !covers_same(alloc, level, cover, &known, *part)? {
            return Ok(false);
        }
    }
    Ok(true)
}

/// Adds the column in which the piece stands.
fn add_column(alloc: Global, columns: &mut NameTable, piece: Piece<'_, '_>) -> Result<(), NoMemory>
    ensures { OnOk result ((i : List ℕ) → IsAmong columns.new i ↔ (IsAmong columns.old i ⊎ (setting_column piece.entry.setting ≡ Some i))) }
{
    match piece.setting {
        PieceSide::InColumn(name) => columns.add(alloc, name.bytes()),
        _ => Ok(()),
    }
}

/// The columns in which the parts of the item stand.
fn columns_of(alloc: Global, item: &LevelItem<'_, '_>) -> Result<NameTable, NoMemory>
    ensures { IfOk result (λ columns. (i : List ℕ) → IsAmong columns i ↔ StandsOne (parts_view item.now) i) }
{
    let mut columns = NameTable::new(alloc);
    add_column(alloc, &mut columns, item.first)?;
    for part in item.others.as_slice() {
        add_column(alloc, &mut columns, *part)?;
    }
    Ok(columns)
}

/// Whether each of the names is one of the columns.
fn all_among(columns: &NameTable, names: &[Name]) -> bool
    ensures { Tells result (AllAmong columns.now names.now) (OneIsMissing columns.now names.now) }
{
    for name in names {
        if !columns.has(name.bytes()) {
            return false;
        }
    }
    true
}

/// Whether there are several.
fn are_several(names: &[Name]) -> bool
    ensures { result ≡ has_several names.now }
{
    names.len() > 1
}

/// Whether one of the two fails.
fn one_fails(a: bool, b: bool) -> bool
    ensures { result ≡ not (a && b) }
{
    !(a && b)
}

/// What the parts of an item have in common, of which the first covers these instances.
pub fn sharing_of(
    alloc: Global,
    level: &Names,
    cover: &Names,
    item: &LevelItem<'_, '_>,
) -> Result<Sharing, NoMemory>
    requires { cover.now ≡ cover_of level.now (piece_view item.now.first) }
    ensures { IfOk result (IsSharing level.now cover.now (parts_view item.now)) }
{
    let names = NameTable::of(alloc, cover.as_slice())?;
    let same = all_cover(alloc, level, cover, &names, item.others.as_slice())?;
    let columns = columns_of(alloc, item)?;
    let stand = all_among(&columns, cover.as_slice());
    Ok(Sharing {
        all_break: one_fails(same, stand),
        several: are_several(cover.as_slice()),
        names,
    })
}

/// Whether an item has no name.
fn is_unnamed(form: &RawForm) -> bool
    ensures { result ≡ lacks_name (name_of (form_view form.now)) }
{
    match form {
        RawForm::Inline(held) => held.name.is_none(),
        RawForm::Reference(held) => held.name.is_none(),
        _ => true,
    }
}

/// Whether a part isn't shared.
pub fn is_unshared(sharing: &Sharing, piece: Piece<'_, '_>) -> bool
    ensures { result ≡ is_unshared_in sharing.now.all_break sharing.now.several sharing.now.names (piece_view piece.entry).column (name_of (piece_view piece.entry).form) }
{
    match piece.setting {
        PieceSide::InColumn(name) => {
            sharing.all_break
                || !sharing.names.has(name.bytes())
                || (sharing.several && is_unnamed(piece.form))
        }
        _ => false,
    }
}
