//! Places in half the room: trees hold one for each item and each event.

ghost use Rattle.std.specs.Prelude.{◌≡◌, IfOk};

use msc_base::{NoMemory, Place};
use std::marker::Model;

/// A place, as a tree holds it.
#[derive(Drop)]
pub struct TreePlace {
    byte: u32,
    line: u32,
    column: u32,
}

impl Model for TreePlace {
    ghost use Rattle.msc_base.specs.declared.place.Place.{Place};

    ghost Value = { Place };

    ghost view = { λ p. record { byte = p.byte; line = p.line; column = p.column } };
}

/// The number in 32 bits. Want of memory is the answer to a larger one: trees have no room for it, and a document has far fewer bytes.
fn short(number: u64) -> Result<u32, NoMemory>
    ensures { IfOk result (λ short. short ≡ number) }
{
    match u32::try_from(number) {
        Ok(short) => Ok(short),
        Err(_) => Err(NoMemory),
    }
}

impl TreePlace {
    /// The place, as a tree holds it.
    pub fn of(place: Place) -> Result<TreePlace, NoMemory>
        ensures { IfOk result (λ held. held ≡ place) }
    {
        Ok(TreePlace {
            byte: short(place.byte)?,
            line: short(place.line)?,
            column: short(place.column)?,
        })
    }

    /// The same once more. It takes no memory.
    pub fn copy(&self) -> TreePlace
        ensures { result ≡ self.now }
    {
        TreePlace {
            byte: self.byte,
            line: self.line,
            column: self.column,
        }
    }

    /// The place.
    pub fn get(&self) -> Place
        ensures { result ≡ self.now }
    {
        Place {
            byte: self.byte as u64,
            line: self.line as u64,
            column: self.column as u64,
        }
    }
}
