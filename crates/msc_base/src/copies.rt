//! Copies of names and of lists of them, and an index in 32 bits: for who reads charts (msc_instances, level_weaving).

ghost use Rattle.std.specs.Prelude.{◌≡◌, IfOk};

use crate::{Items, Name, Names, NoMemory};
use std::alloc::Global;

/// A copy of the names, in their order.
pub fn copy_names(alloc: Global, names: &[Name]) -> Result<Names, NoMemory>
    ensures { IfOk result (λ copied. copied ≡ names.now) }
{
    let mut copied = Items::new(alloc);
    for name in names {
        copied.push(name.copy(alloc)?)?;
    }
    Ok(copied)
}

/// A copy of the name, where there is one.
pub fn copy_name(alloc: Global, name: &Option<Name>) -> Result<Option<Name>, NoMemory>
    ensures { IfOk result (λ copied. copied ≡ name.now) }
{
    match name {
        Some(name) => Ok(Some(name.copy(alloc)?)),
        None => Ok(None),
    }
}

/// The index as a number of 32 bits; a larger one would want more memory than there is.
pub fn number_of(index: usize) -> Result<u32, NoMemory>
    ensures { IfOk result (λ number. number ≡ index) }
{
    match u32::try_from(index) {
        Ok(number) => Ok(number),
        Err(_) => Err(NoMemory),
    }
}
