//! Texts as bytes. What they mean is none of this module's business: names, labels and what is printed hold them.

ghost use Rattle.std.specs.Prelude.{◌≡◌, IfOk, IsTrue, ◌↔◌, List, ℕ};
ghost use Rattle.std.specs.Str.{bytes_eq};

use crate::NoMemory;
use smallvec::SmallVec;
use std::alloc::Global;
use std::marker::Model;

/// How many bytes a text holds in itself. Names, marks and reserved words are seldom longer, and so take no block of memory.
const INLINE: usize = 16;

/// A list of bytes.
#[derive(Drop)]
pub struct Text {
    held: SmallVec<u8, INLINE>,
}

/// A document has a text for each of its tokens.
const _: () = prove!(size_of::<Text>() == 32);

impl Model for Text {
    ghost Value = { List ℕ };

    ghost view = { λ t. t.held.items };
}

impl Text {
    /// The text of a copy of these bytes. It fails only for want of memory.
    pub fn from_bytes(alloc: Global, bytes: &[u8]) -> Result<Text, NoMemory>
        ensures { IfOk result (λ t. t ≡ bytes.now) }
    {
        let held = SmallVec::from_slice(alloc, bytes)?;
        Ok(Text { held })
    }

    /// The text of these bytes. It takes no memory.
    pub fn from_vec(held: Vec<u8>) -> Text
        ensures { result ≡ held.items }
    {
        Text {
            held: SmallVec::from(held),
        }
    }

    /// The bytes of the text.
    pub fn bytes(&self) -> &[u8]
        ensures { result.now ≡ self.now }
    {
        self.held.as_slice()
    }

    /// The same text once more. It fails only for want of memory.
    pub fn copy(&self, alloc: Global) -> Result<Text, NoMemory>
        ensures { IfOk result (λ t. t ≡ self.now) }
    {
        Text::from_bytes(alloc, self.bytes())
    }

    /// Whether two texts have the same bytes.
    pub fn same(&self, other: &Text) -> bool
        ensures same { IsTrue result ↔ (self.now ≡ other.now) }
        ensures test { result ≡ bytes_eq self.now other.now }
    {
        self.bytes() == other.bytes()
    }
}
