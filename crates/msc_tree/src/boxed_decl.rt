//! Declarations in boxes, which take less room in a statement: few statements declare an instance.

ghost use Rattle.std.specs.Prelude.{◌≡◌, IfOk};

use crate::Decl;
use msc_base::NoMemory;
use std::alloc::Global;
use std::marker::Model;

/// A declaration in a block of its own.
#[derive(Drop)]
pub struct BoxedDecl {
    held: Box<Decl>,
}

impl Model for BoxedDecl {
    ghost use Rattle.std.specs.Box.{box_value};
    ghost use Rattle.msc_tree.specs.declared.chart.Decl.{Decl};

    ghost Value = { Decl };

    ghost view = { λ b. box_value b.held };
}

impl BoxedDecl {
    /// The declaration in a box.
    pub fn of(alloc: Global, decl: Decl) -> Result<BoxedDecl, NoMemory>
        ensures { IfOk result (λ boxed. boxed ≡ decl) }
    {
        Ok(BoxedDecl {
            held: Box::new(alloc, decl)?,
        })
    }

    /// The declaration.
    pub fn decl(&self) -> &Decl
        ensures { result.now ≡ self.now }
    {
        &self.held
    }
}
