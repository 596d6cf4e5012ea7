//! Lists of terms, as charts are built from them and sets of terms kept in them.

ghost use Rattle.std.specs.Prelude.{◌≡◌, ◌++◌, ◌∷◌, ◌<◌, [], length, slice_get, OnOk, OnErr, Some};

use crate::Term;
use msc_base::NoMemory;
use std::alloc::Global;
use std::marker::Model;

/// A list of terms.
#[derive(Drop)]
pub struct TermList {
    items: Vec<Term>,
}

impl Model for TermList {
    ghost use Rattle.std.specs.Prelude.{List};
    ghost use Rattle.std.specs.Coded.{coded_list};
    ghost use Rattle.chart_term.specs.Terms.{Tree};
    ghost use Rattle.chart_term.specs.Codes.{coded_tree};

    ghost Value = { List Tree };

    ghost coded = { coded_list coded_tree };

    ghost view = { λ a. a.items.items };
}

impl TermList {
    /// The empty list. It takes no memory.
    pub fn new(alloc: Global) -> TermList
        ensures { result ≡ [] }
    {
        TermList {
            items: Vec::new(alloc),
        }
    }

    /// Appends the item. After want of memory the list is as it was, and the item is dropped.
    pub fn push(&mut self, item: Term) -> Result<(), NoMemory>
        ensures ok { OnOk result (self.new ≡ self.old ++ item ∷ []) }
        ensures err { OnErr result (self.new ≡ self.old) }
    {
        self.items.push(item)?;
        Ok(())
    }

    /// How many items the list has.
    pub fn len(&self) -> usize
        ensures { result ≡ length self.now }
    {
        self.items.len()
    }

    /// The item at that index, from 0.
    pub fn at(&self, index: usize) -> &Term
        requires { index < length self.now }
        ensures { slice_get self.now index ≡ Some result.now }
    {
        &self.items[index]
    }

    /// The items as a slice.
    pub fn as_slice(&self) -> &[Term]
        ensures { result.now ≡ self.now }
    {
        self.items.as_slice()
    }
}
