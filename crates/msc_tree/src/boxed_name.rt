//! Names in boxes, which take less room where there is none: for what few events have.

ghost use Rattle.std.specs.Prelude.{◌≡◌, IfOk};

use msc_base::{Name, NoMemory};
use std::alloc::Global;
use std::marker::Model;

/// A name in a block of its own.
#[derive(Drop)]
pub struct BoxedName {
    held: Box<Name>,
}

impl Model for BoxedName {
    ghost use Rattle.std.specs.Prelude.{List, ℕ};
    ghost use Rattle.std.specs.Box.{box_value};

    ghost Value = { List ℕ };

    ghost view = { λ b. box_value b.held };
}

impl BoxedName {
    /// The name in a box.
    pub fn of(alloc: Global, name: Name) -> Result<BoxedName, NoMemory>
        ensures { IfOk result (λ boxed. boxed ≡ name) }
    {
        Ok(BoxedName {
            held: Box::new(alloc, name)?,
        })
    }

    /// The name in a box, where there is one.
    pub fn of_some(alloc: Global, name: Option<Name>) -> Result<Option<BoxedName>, NoMemory>
        ensures { IfOk result (λ boxed. boxed ≡ name) }
    {
        match name {
            Some(name) => Ok(Some(BoxedName::of(alloc, name)?)),
            None => Ok(None),
        }
    }

    /// The name.
    pub fn name(&self) -> &Name
        ensures { result.now ≡ self.now }
    {
        &self.held
    }

    /// The same name once more. It fails only for want of memory.
    pub fn copy(&self, alloc: Global) -> Result<BoxedName, NoMemory>
        ensures { IfOk result (λ copied. copied ≡ self.now) }
    {
        let name = self.name().copy(alloc)?;
        BoxedName::of(alloc, name)
    }
}
