//! Names numbered as they are first seen: for the labels of graphs and events, and for the instances of charts.

ghost use Rattle.std.specs.Prelude.{◌≡◌, ◌↔◌, ℕ, [], List, fold, map, IfOk, IsTrue, OnOk, OnErr, position, length};
ghost use Rattle.std.specs.List.{list_any};
ghost use Rattle.std.specs.Str.{bytes_eq};
ghost use Rattle.msc_base.specs.Lists.{AreDifferent, IsAmong};
ghost use Rattle.msc_base.specs.NameTables.{with_name};

use crate::{Name, NoMemory};
use indexmap::IndexSet;
use std::alloc::Global;
use std::marker::Model;

/// Names, each once, numbered from 0 in the order in which they were first seen.
#[derive(Drop)]
pub struct NameTable {
    names: IndexSet<Vec<u8>>,
}

impl Model for NameTable {
    ghost Value = { List (List ℕ) };

    ghost view = { λ t. map (λ v. v.items) t.names.keys };
}

impl NameTable {
    /// The empty table. It takes no memory.
    pub fn new(alloc: Global) -> NameTable
        ensures { result ≡ [] }
    {
        NameTable {
            names: IndexSet::new(alloc),
        }
    }

    /// The table of these names: where they differ it has them as they stand, and in any case those alone.
    pub fn of(alloc: Global, names: &[Name]) -> Result<NameTable, NoMemory>
        ensures made { IfOk result (λ table. table ≡ fold with_name [] names.now) }
        ensures different { IfOk result (λ table. AreDifferent names.now → table ≡ names.now) }
        ensures has { IfOk result (λ table. (name : List ℕ) → list_any (bytes_eq name) table ≡ list_any (bytes_eq name) names.now) }
    {
        let mut table = NameTable::new(alloc);
        for name in names {
            table.add(alloc, name.bytes())?;
        }
        Ok(table)
    }

    /// How many names the table has.
    pub fn len(&self) -> usize
        ensures { result ≡ length self.now }
    {
        self.names.len()
    }

    /// The number of a name, if the table has it.
    pub fn number_of(&self, name: &[u8]) -> Option<usize>
        ensures { result ≡ position (bytes_eq name.now) self.now }
    {
        self.names.get_index_of(name)
    }

    /// Whether the table has the name.
    pub fn has(&self, name: &[u8]) -> bool
        ensures is { IsTrue result ↔ IsAmong self.now name.now }
        ensures test { result ≡ list_any (bytes_eq name.now) self.now }
    {
        self.number_of(name).is_some()
    }

    /// Adds a name where it is new.
    pub fn add(&mut self, alloc: Global, name: &[u8]) -> Result<(), NoMemory>
        ensures ok { OnOk result (self.new ≡ with_name self.old name.now) }
        ensures err { OnErr result (self.new ≡ self.old) }
    {
        let name = Vec::from_slice(alloc, name)?;
        self.names.insert(name)?;
        Ok(())
    }
}
