//! A name with its bytes, and the first of that name: what the shelf in memory holds.

ghost use Rattle.std.specs.Prelude.{◌≡◌};
ghost use Rattle.std.specs.Option.{option_copied};
ghost use Rattle.outside.specs.Entries.{file_at};

use msc_base::Text;

/// A name and the bytes that it holds.
#[derive(Drop)]
pub struct Entry {
    /// The name.
    pub name: Text,
    /// All bytes of the entry.
    pub bytes: Text,
}

/// The bytes of the first entry of that name.
pub fn find<'a>(entries: &'a [Entry], name: &Text) -> Option<&'a Text>
    ensures { option_copied result ≡ file_at entries.now name.now }
{
    for entry in entries {
        if entry.name.same(name) {
            return Some(&entry.bytes);
        }
    }
    None
}
