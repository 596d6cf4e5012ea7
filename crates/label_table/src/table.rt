//! The table of labels by number. term_tables holds one, and terms name labels by its numbers.

ghost use Rattle.std.specs.Prelude.{◌≡◌, ◌<◌, ◌↔◌, ◌++◌, ◌∷◌, [], Contains, length, slice_get, Some, IfSome, IfNone, IfOk, OnOk, OnErr, IsTrue};
ghost use Rattle.msc_base.specs.Stored.{most_numbered};
ghost use Rattle.label_table.specs.Labels.{label_number};

use crate::code::code_of;
use crate::key::{LabelKey, key_of, number_label};
use crate::texts::TextNumbers;
use code_slots::CodeSlots;
use msc_base::{Label, NoMemory};
use std::alloc::Global;
use std::collections::BTreeMap;
use std::marker::Model;

/// Labels, each once, numbered from 0 in the order in which they were added.
#[derive(Drop)]
pub struct LabelTable {
    alloc: Global,
    labels: Vec<Label>,
    /// Numbers of labels by their codes: right for most labels, but not for all.
    shortcut: CodeSlots,
    /// The names and texts of the labels.
    texts: TextNumbers,
    /// The labels' numbers by their keys. After want of memory a key may have the number of another label.
    keys: BTreeMap<LabelKey, u32>,
}

impl Model for LabelTable {
    ghost use Rattle.std.specs.Prelude.{List};
    ghost use Rattle.msc_base.specs.declared.label.Label.{Label};
    ghost use Rattle.label_table.specs.Stores.{AreStored};

    ghost Value = { List Label };

    ghost view = { λ t. t.labels.items };

    ghost invariant = { λ t. AreStored t.texts t.keys t.labels.items };
}

impl LabelTable {
    /// The empty table. It takes no memory.
    pub fn new(alloc: Global) -> LabelTable
        ensures { result ≡ [] }
    {
        LabelTable {
            alloc,
            labels: Vec::new(alloc),
            shortcut: CodeSlots::new(alloc),
            texts: BTreeMap::new(alloc),
            keys: BTreeMap::new(alloc),
        }
    }

    /// How many labels the table has. It takes no memory.
    pub fn len(&self) -> u32
        ensures { result ≡ length self.now }
    {
        self.labels.len() as u32
    }

    /// The label of that number. It takes no memory.
    pub fn at(&self, number: u32) -> &Label
        requires { number < length self.now }
        ensures label { slice_get self.now number ≡ Some result.now }
        ensures number { label_number self.now result.now ≡ Some number }
    {
        &self.labels[number as usize]
    }

    /// The number of a label, if the table has it. It takes no memory.
    #[tactic(auto, using(crate::proofs::Numbering::numbered))]
    pub fn number_of(&self, label: &Label) -> Option<u32>
        ensures number { result ≡ label_number self.now label.now }
        ensures present { IfSome result (λ number. slice_get self.now number ≡ Some label.now) }
        ensures absent { IfNone result (Contains self.now label.now → ⊥) }
    {
        self.find(label)
    }

    /// The number of a label: the one guessed, if that is right.
    fn find(&self, label: &Label) -> Option<u32>
        ensures { result ≡ label_number self.now label.now }
    {
        match self.shortcut.guess(code_of(label)) {
            Some(number) if self.has_at(number, label) => Some(number),
            _ => self.find_by_key(label),
        }
    }

    /// The number of a label, which is looked up by its key.
    fn find_by_key(&self, label: &Label) -> Option<u32>
        ensures { result ≡ label_number self.now label.now }
    {
        let key = key_of(&self.texts, label)?;
        let number = *self.keys.get(&key)?;
        if self.has_at(number, label) {
            Some(number)
        } else {
            None
        }
    }

    /// Whether the label has this number.
    fn has_at(&self, number: u32, label: &Label) -> bool
        ensures { IsTrue result ↔ (slice_get self.now number ≡ Some label.now) }
    {
        match self.labels.get(number as usize) {
            Some(stored) => stored.same(label),
            None => false,
        }
    }

    /// Appends a label, and gives its number. After want of memory the table is as it was, and the
    /// label is dropped.
    pub fn add(&mut self, label: Label) -> Result<u32, NoMemory>
        requires few { length self.old < most_numbered }
        requires new { Contains self.old label → ⊥ }
        ensures number { IfOk result (λ number. number ≡ length self.old) }
        ensures ok { OnOk result (self.new ≡ self.old ++ label ∷ []) }
        ensures err { OnErr result (self.new ≡ self.old) }
    {
        let number = self.len();
        self.shortcut.make_room(self.alloc, number as usize)?;
        let key = number_label(self.alloc, &mut self.texts, &label)?;
        self.keys.insert(key, number)?;
        let code = code_of(&label);
        self.labels.push(label)?;
        self.shortcut.put(code, number);
        Ok(number)
    }
}
