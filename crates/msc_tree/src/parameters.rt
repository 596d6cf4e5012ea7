//! The list in parentheses behind a message or timer. Most have one item, and that takes no block of its own.

ghost use Rattle.std.specs.Prelude.{◌≡◌, IfOk, None, option_copied};

use crate::copying::copy_words;
use msc_base::{NoMemory, Text, Words};
use std::alloc::Global;
use std::marker::Model;
use std::slice;

/// How the items are held.
#[derive(Drop)]
enum Listed {
    /// There is no list.
    Nothing,
    /// One item.
    One(Text),
    /// Any number of them.
    Several(Words),
}

/// The list in parentheses behind the name of a message or timer, where there is one.
#[derive(Drop)]
pub struct Parameters {
    held: Listed,
}

impl Model for Parameters {
    ghost use Rattle.std.specs.Prelude.{List, ℕ, Option};
    ghost use Rattle.msc_tree.specs.Few.{items_of};

    ghost Value = { Option (List (List ℕ)) };

    ghost view = { λ p. items_of p.held };
}

impl Parameters {
    /// The list of these items, where there is one.
    pub fn of(alloc: Global, items: Option<Words>) -> Result<Parameters, NoMemory>
        ensures { IfOk result (λ made. made ≡ items) }
    {
        let Some(items) = items else {
            return Ok(Parameters {
                held: Listed::Nothing,
            });
        };
        let held = match items.as_slice() {
            [item] => Listed::One(item.copy(alloc)?),
            _ => Listed::Several(items),
        };
        Ok(Parameters { held })
    }

    /// The items, where there is a list.
    pub fn items(&self) -> Option<&[Text]>
        ensures { option_copied result ≡ self.now }
    {
        match &self.held {
            Listed::Nothing => None,
            Listed::One(item) => Some(slice::from_ref(item)),
            Listed::Several(items) => Some(items.as_slice()),
        }
    }

    /// The same list once more. It fails only for want of memory.
    pub fn copy(&self, alloc: Global) -> Result<Parameters, NoMemory>
        ensures { IfOk result (λ copied. copied ≡ self.now) }
    {
        let held = match &self.held {
            Listed::Nothing => Listed::Nothing,
            Listed::One(item) => Listed::One(item.copy(alloc)?),
            Listed::Several(items) => Listed::Several(copy_words(alloc, items.as_slice())?),
        };
        Ok(Parameters { held })
    }
}
