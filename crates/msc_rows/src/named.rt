//! Texts with names, for those that stand in many rows.

use crate::unread::Unread;
use std::alloc::Global;

/// A text and its name.
#[derive(Drop)]
struct Named {
    name: String,
    bytes: Vec<u8>,
}

/// Texts with names. A later text of a name takes the place of an earlier one.
#[derive(Drop)]
pub struct NamedTexts {
    held: Vec<Named>,
}

impl NamedTexts {
    /// No texts.
    pub fn new(alloc: Global) -> NamedTexts {
        NamedTexts {
            held: Vec::new(alloc),
        }
    }

    /// Adds a text.
    pub fn add(&mut self, alloc: Global, name: &str, bytes: Vec<u8>) -> Result<(), Unread> {
        let name = String::from_str(alloc, name)?;
        self.held.push(Named { name, bytes })?;
        Ok(())
    }

    /// The last text of this name.
    pub fn find(&self, name: &str) -> Result<&[u8], Unread> {
        for named in self.held.iter().rev() {
            if named.name.as_str() == name {
                return Ok(&named.bytes);
            }
        }
        Err(Unread::Name)
    }
}
