//! What a chart writes of its instances, note by note: `walk` makes them, `naming` judges them.

ghost use Rattle.std.specs.Prelude.{◌≡◌, ◌++◌, ◌∷◌, [], List, map, OnOk, OnErr};
ghost use Rattle.msc_instances.specs.NoteViews.{note_view};
ghost use Rattle.msc_instances.specs.Notes as plain;

use chart_text::Scope;
use msc_base::{Name, NoMemory, Place};
use std::alloc::Global;
use std::marker::Model;

/// What a chart writes of an instance.
#[derive(Clone, Copy)]
pub enum Note<'a> {
    /// It is an instance of the chart.
    Declared(&'a Name),
    /// Another chart refines it, as is said at that place.
    Decomposed(&'a Name, Place),
    /// It is named at that place, where only instances of the scope may be.
    Named(&'a Name, Place, Scope<'a>),
}

/// Notes, in the order of the text.
#[derive(Drop)]
pub struct NoteList<'a> {
    held: Vec<Note<'a>>,
}

impl<'a> Model for NoteList<'a> {
    ghost Value = { List plain.Note };

    ghost view = { λ l. map note_view l.held.items };
}

impl<'a> NoteList<'a> {
    /// No notes. It takes no memory.
    pub fn new(alloc: Global) -> NoteList<'a>
        ensures { result ≡ [] }
    {
        NoteList {
            held: Vec::new(alloc),
        }
    }

    /// Appends a note. After want of memory the list is as it was.
    pub fn push(&mut self, note: Note<'a>) -> Result<(), NoMemory>
        ensures ok { OnOk result (self.new ≡ self.old ++ note_view note.entry ∷ []) }
        ensures err { OnErr result (self.new ≡ self.old) }
    {
        self.held.push(note)?;
        Ok(())
    }

    /// The notes as a slice.
    pub fn as_slice(&self) -> &[Note<'a>]
        ensures { map note_view result.now ≡ self.now }
    {
        self.held.as_slice()
    }
}
