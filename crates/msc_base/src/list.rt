//! `Items`, a vector that a contract sees as the list. The trees of documents and the lists of charts are made of it.

ghost use Rattle.std.specs.Prelude.{◌≡◌, ◌<◌, ◌++◌, ◌∷◌, [], List, length, slice_get, IfOk, OnOk, OnErr, Some};

use crate::NoMemory;
use std::alloc::Global;
use std::marker::Model;

/// A list of items, which a contract sees as the list.
#[derive(Drop)]
pub struct Items<T> {
    held: Vec<T>,
}

impl<T> Model for Items<T> {
    ghost Value = { List T };

    ghost view = { λ a. a.held.items };
}

impl<T: Drop> Items<T> {
    /// The empty list. It takes no memory.
    pub fn new(alloc: Global) -> Items<T>
        ensures { result ≡ [] }
    {
        Items {
            held: Vec::new(alloc),
        }
    }

    /// The list of this item alone. It has room for no other.
    pub fn one(alloc: Global, item: T) -> Result<Items<T>, NoMemory>
        ensures { IfOk result (λ list. list ≡ item ∷ []) }
    {
        let mut held = Vec::with_capacity(alloc, 1)?;
        held.push(item)?;
        Ok(Items { held })
    }

    /// Appends the item. After want of memory the list is as it was, and the item is dropped.
    pub fn push(&mut self, item: T) -> Result<(), NoMemory>
        ensures ok { OnOk result (self.new ≡ self.old ++ item ∷ []) }
        ensures err { OnErr result (self.new ≡ self.old) }
    {
        self.held.push(item)?;
        Ok(())
    }

    /// How many items the list has.
    pub fn len(&self) -> usize
        ensures { result ≡ length self.now }
    {
        self.held.len()
    }

    /// The items as a slice.
    pub fn as_slice(&self) -> &[T]
        ensures { result.now ≡ self.now }
    {
        self.held.as_slice()
    }

    /// The item at that index, from 0.
    pub fn at(&self, index: usize) -> &T
        requires { index < length self.now }
        ensures { slice_get self.now index ≡ Some result.now }
    {
        &self.held[index]
    }
}
