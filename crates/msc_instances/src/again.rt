//! Names that stand a second time on one level, where that may not be: for `naming` alone.

ghost use Rattle.std.specs.Prelude.{◌≡◌, ◌⊎◌, ◌∷◌, ◌↔◌, [], IsTrue, IfOk, OnOk, List, map, None, Some};
ghost use Rattle.msc_base.specs.Places.{IsLeast};
ghost use Rattle.msc_instances.specs.Meetings.{Knows, HasName, HasPart};
ghost use Rattle.msc_instances.specs.Parts as plain;
ghost use Rattle.msc_instances.specs.PartViews.{part_view};

use crate::{NamedPart, PartColumn, PartList};
use indexmap::IndexSet;
use msc_base::{Name, NameTable, NoMemory, Place, earlier_if};
use std::alloc::Global;

/// A name, and the column in which a part has it.
#[derive(Drop, PartialEq, Eq, Hash)]
struct PartKey {
    name: Vec<u8>,
    column: Vec<u8>,
}

/// The names of the parts of a level that were met: of all, of those outside columns, and of those in columns with the column.
#[derive(Drop)]
struct Met {
    names: NameTable,
    outside: NameTable,
    inside: IndexSet<PartKey>,
}

/// No parts were met.
fn none_met(alloc: Global) -> Met
    ensures { Knows result [] }
{
    Met {
        names: NameTable::new(alloc),
        outside: NameTable::new(alloc),
        inside: IndexSet::new(alloc),
    }
}

/// Notes a name outside columns, and says whether a part was met that has it.
fn note_outside(alloc: Global, met: &mut Met, name: &Name) -> Result<bool, NoMemory>
    ensures told { (before : List plain.NamedPart) → Knows met.old before → IfOk result (λ again. IsTrue again ↔ HasName before name.now) }
    ensures kept { (before : List plain.NamedPart) (part : plain.NamedPart) → Knows met.old before → part.name ≡ name.now → part.column ≡ None → OnOk result (Knows met.new (part ∷ before)) }
{
    let again = met.names.has(name.bytes());
    met.names.add(alloc, name.bytes())?;
    met.outside.add(alloc, name.bytes())?;
    Ok(again)
}

/// Notes a name in a column, and says whether a part was met that has it there, or outside columns.
fn note_inside(alloc: Global, met: &mut Met, name: &Name, column: &Name) -> Result<bool, NoMemory>
    ensures told { (before : List plain.NamedPart) → Knows met.old before → IfOk result (λ again. IsTrue again ↔ (HasPart before name.now None ⊎ HasPart before name.now (Some column.now))) }
    ensures kept { (before : List plain.NamedPart) (part : plain.NamedPart) → Knows met.old before → part.name ≡ name.now → part.column ≡ Some column.now → OnOk result (Knows met.new (part ∷ before)) }
{
    let outside = met.outside.has(name.bytes());
    met.names.add(alloc, name.bytes())?;
    let key = PartKey {
        name: Vec::from_slice(alloc, name.bytes())?,
        column: Vec::from_slice(alloc, column.bytes())?,
    };
    let (_, new) = met.inside.insert_full(key)?;
    Ok(outside || !new)
}

/// Notes a part, and says whether one was met that excludes its name.
fn note(alloc: Global, met: &mut Met, part: NamedPart<'_>) -> Result<bool, NoMemory>
    ensures told { (before : List plain.NamedPart) → Knows met.old before → IfOk result (λ again. IsTrue again ↔ plain.Clashes before (part_view part.entry)) }
    ensures kept { (before : List plain.NamedPart) → Knows met.old before → OnOk result (Knows met.new (part_view part.entry ∷ before)) }
{
    match part.setting {
        PartColumn::Outside => note_outside(alloc, met, part.name),
        PartColumn::InColumn(column) => note_inside(alloc, met, part.name, column),
    }
}

/// The earliest of the place so far and the places in a level at which a name stands again.
fn again_in_level(
    alloc: Global,
    parts: &[NamedPart<'_>],
    so_far: Option<Place>,
) -> Result<Option<Place>, NoMemory>
    ensures { IfOk result (IsLeast (λ p. (so_far ≡ Some p) ⊎ plain.NamesAgain [] (map part_view parts.now) p)) }
{
    let mut best = so_far;
    let mut met = none_met(alloc);
    for part in parts {
        let again = note(alloc, &mut met, *part)?;
        best = earlier_if(best, part.place, again);
    }
    Ok(best)
}

/// The earliest place at which a part of a level has the name of one before it, where that may not be.
pub fn named_again(alloc: Global, levels: &[PartList<'_>]) -> Result<Option<Place>, NoMemory>
    ensures { IfOk result (IsLeast (plain.SomeNamesAgain levels.now)) }
{
    let mut best = None;
    for level in levels {
        best = again_in_level(alloc, level.as_slice(), best)?;
    }
    Ok(best)
}
