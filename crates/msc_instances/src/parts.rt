//! Inline expressions and references with names, and where they stand: `levels` gathers them, `again` judges them.

ghost use Rattle.std.specs.Prelude.{◌≡◌, ◌++◌, ◌∷◌, [], List, map, OnOk, OnErr};
ghost use Rattle.msc_instances.specs.PartViews.{part_view};
ghost use Rattle.msc_instances.specs.Parts as plain;

use msc_base::{Name, NoMemory, Place};
use std::alloc::Global;
use std::marker::Model;

/// Where a part of a level stands.
#[derive(Clone, Copy)]
pub enum PartColumn<'a> {
    /// In the column of that instance.
    InColumn(&'a Name),
    /// Outside columns.
    Outside,
}

/// An inline expression or reference that has a name.
#[derive(Clone, Copy)]
pub struct NamedPart<'a> {
    /// Its name.
    pub name: &'a Name,
    /// Where it stands in its level.
    pub setting: PartColumn<'a>,
    /// Its place.
    pub place: Place,
}

/// The parts of a level that have names, in the order of the text.
#[derive(Drop)]
pub struct PartList<'a> {
    held: Vec<NamedPart<'a>>,
}

impl<'a> Model for PartList<'a> {
    ghost Value = { List plain.NamedPart };

    ghost view = { λ l. map part_view l.held.items };
}

impl<'a> PartList<'a> {
    /// No parts. It takes no memory.
    pub fn new(alloc: Global) -> PartList<'a>
        ensures { result ≡ [] }
    {
        PartList {
            held: Vec::new(alloc),
        }
    }

    /// Appends a part. After want of memory the list is as it was.
    pub fn push(&mut self, part: NamedPart<'a>) -> Result<(), NoMemory>
        ensures ok { OnOk result (self.new ≡ self.old ++ part_view part.entry ∷ []) }
        ensures err { OnErr result (self.new ≡ self.old) }
    {
        self.held.push(part)?;
        Ok(())
    }

    /// The parts as a slice.
    pub fn as_slice(&self) -> &[NamedPart<'a>]
        ensures { map part_view result.now ≡ self.now }
    {
        self.held.as_slice()
    }
}
