//! Lists of names of which most have one, which takes no block of its own; a long one has a table. For what covers a statement.

ghost use Rattle.std.specs.Prelude.{◌≡◌, ◌↔◌, ◌∷◌, [], IsTrue, IfOk, length};
ghost use Rattle.msc_base.specs.Lists.{IsAmong};

use crate::finding::{FEW, is_listed};
use msc_base::{Name, NameTable, Names, NoMemory};
use std::alloc::Global;
use std::marker::Model;
use std::slice;

/// A long list of names.
#[derive(Drop)]
struct ManyNames {
    names: Names,
    /// The same names, each once.
    table: NameTable,
}

impl Model for ManyNames {
    ghost use Rattle.std.specs.List.{list_any};
    ghost use Rattle.std.specs.Prelude.{List, ℕ, ◌≡◌};
    ghost use Rattle.std.specs.Str.{bytes_eq};

    ghost Value = { List (List ℕ) };

    ghost view = { λ m. m.names };

    ghost invariant = { λ m. (name : List ℕ) → list_any (bytes_eq name) m.table ≡ list_any (bytes_eq name) m.names };
}

/// How the names are held.
#[derive(Drop)]
enum Held {
    /// One name.
    One(Name),
    /// A few of them, or none.
    Few(Names),
    /// More.
    Many(Box<ManyNames>),
}

/// Some names.
#[derive(Drop)]
pub struct FewNames {
    held: Held,
}

impl Model for FewNames {
    ghost use Rattle.std.specs.Prelude.{List, ℕ};
    ghost use Rattle.msc_tree.specs.Few.{names_of};

    ghost Value = { List (List ℕ) };

    ghost view = { λ n. names_of n.held };
}

impl ManyNames {
    /// The list of these names, with its table.
    fn of(alloc: Global, names: Names) -> Result<ManyNames, NoMemory>
        ensures { IfOk result (λ made. made ≡ names) }
    {
        let table = NameTable::of(alloc, names.as_slice())?;
        Ok(ManyNames { names, table })
    }

    /// The names as a slice.
    fn as_slice(&self) -> &[Name]
        ensures { result.now ≡ self.now }
    {
        self.names.as_slice()
    }

    /// Whether a name is one of the list.
    fn has(&self, name: &Name) -> bool
        ensures { IsTrue result ↔ IsAmong self.now name.now }
    {
        self.table.has(name.bytes())
    }
}

impl FewNames {
    /// The list of this name alone. It takes no memory.
    pub fn one(name: Name) -> FewNames
        ensures { result ≡ name ∷ [] }
    {
        FewNames {
            held: Held::One(name),
        }
    }

    /// The list of these names.
    pub fn several(alloc: Global, names: Names) -> Result<FewNames, NoMemory>
        ensures { IfOk result (λ list. list ≡ names) }
    {
        if names.len() <= FEW {
            return Ok(FewNames {
                held: Held::Few(names),
            });
        }
        let many = ManyNames::of(alloc, names)?;
        Ok(FewNames {
            held: Held::Many(Box::new(alloc, many)?),
        })
    }

    /// The names as a slice.
    pub fn as_slice(&self) -> &[Name]
        ensures { result.now ≡ self.now }
    {
        match &self.held {
            Held::One(name) => slice::from_ref(name),
            Held::Few(names) => names.as_slice(),
            Held::Many(many) => many.as_slice(),
        }
    }

    /// How many names there are.
    pub fn len(&self) -> usize
        ensures { result ≡ length self.now }
    {
        self.as_slice().len()
    }

    /// Whether a name is one of the list.
    pub fn has(&self, name: &Name) -> bool
        ensures { IsTrue result ↔ IsAmong self.now name.now }
    {
        match &self.held {
            Held::One(_) | Held::Few(_) => is_listed(self.as_slice(), name),
            Held::Many(many) => many.has(name),
        }
    }
}
