//! The instances that an item covers: for `items`.

ghost use Rattle.std.specs.Prelude.{◌≡◌, ◌++◌, ◌∷◌, [], IfOk, OnOk, if◌then◌else◌};
ghost use Rattle.level_pieces.specs.PieceViews.{setting_column, setting_leads};
ghost use Rattle.msc_meaning.specs.LevelItems.{cover_by, within};

use crate::pieces::PieceSide;
use msc_base::{Items, Name, NameTable, Names, NoMemory, copy_names};
use msc_tree::Cover;
use std::alloc::Global;

/// The name alone.
fn only(alloc: Global, name: &Name) -> Result<Names, NoMemory>
    ensures { IfOk result (λ names. names ≡ name.now ∷ []) }
{
    let mut names = Items::new(alloc);
    names.push(name.copy(alloc)?)?;
    Ok(names)
}

/// Appends the name where it was found.
fn push_found(alloc: Global, found: &mut Names, name: &Name, is_found: bool) -> Result<(), NoMemory>
    ensures { OnOk result (found.new ≡ found.old ++ (if is_found then name.now ∷ [] else [])) }
{
    if is_found {
        found.push(name.copy(alloc)?)?;
    }
    Ok(())
}

/// Those of the level's instances that are among the names.
fn those_within(alloc: Global, level: &[Name], names: &[Name]) -> Result<Names, NoMemory>
    ensures { IfOk result (λ found. found ≡ within level.now names.now) }
{
    let table = NameTable::of(alloc, names)?;
    let mut found = Items::new(alloc);
    for name in level {
        push_found(alloc, &mut found, name, table.has(name.bytes()))?;
    }
    Ok(found)
}

/// The instances that an inline expression or a reference covers, by where it stands and its shared list.
pub fn covered(
    alloc: Global,
    level: &Names,
    setting: PieceSide<'_, '_>,
    shared: &Option<Cover>,
) -> Result<Names, NoMemory>
    ensures { IfOk result (λ cover. cover ≡ cover_by level.now (setting_leads setting.entry) (setting_column setting.entry) shared.now) }
{
    let own = match setting {
        PieceSide::Behind(names) => return those_within(alloc, level.as_slice(), names.as_slice()),
        PieceSide::Inside(names) => return those_within(alloc, level.as_slice(), names.as_slice()),
        PieceSide::InColumn(name) => name,
    };
    match shared {
        None => only(alloc, own),
        Some(Cover::All) => copy_names(alloc, level.as_slice()),
        Some(Cover::Listed(names)) => {
            if names.len() == 0 {
                only(alloc, own)
            } else {
                those_within(alloc, level.as_slice(), names.as_slice())
            }
        }
    }
}
