//! The instances of a level by their numbers: for `columns`.

ghost use Rattle.std.specs.Prelude.{◌≡◌, IfOk, position};
ghost use Rattle.std.specs.Str.{bytes_eq};
ghost use Rattle.msc_base.specs.Lists.{AreDifferent};

use msc_base::{Name, NameTable, NoMemory};
use msc_tree::{FEW, number_in};
use std::alloc::Global;
use std::marker::Model;

/// The instances of a level, as a list, which is looked through where it is short, and as a table.
#[derive(Drop)]
pub(crate) struct ColumnTable<'a> {
    names: &'a [Name],
    table: NameTable,
}

impl<'a> Model for ColumnTable<'a> {
    ghost use Rattle.std.specs.Prelude.{◌≡◌, ℕ, List};

    ghost Value = { List (List ℕ) };

    ghost view = { λ t. t.table };

    ghost invariant = { λ t. t.names.now ≡ t.table };
}

impl<'a> ColumnTable<'a> {
    /// The table of these names.
    pub(crate) fn of(alloc: Global, names: &'a [Name]) -> Result<ColumnTable<'a>, NoMemory>
        requires { AreDifferent names.now }
        ensures { IfOk result (λ table. table ≡ names.now) }
    {
        let table = NameTable::of(alloc, names)?;
        Ok(ColumnTable { names, table })
    }

    /// The number of a name, if the table has it.
    pub(crate) fn number_of(&self, name: &Name) -> Option<usize>
        ensures { result ≡ position (bytes_eq name.now) self.now }
    {
        if self.names.len() <= FEW {
            number_in(self.names, name)
        } else {
            self.table.number_of(name.bytes())
        }
    }
}
