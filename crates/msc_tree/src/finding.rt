//! Where a name stands in a short list, by a look at each: for `few_names`, msc_instances and level_pieces.

ghost use Rattle.std.specs.Prelude.{◌≡◌, ◌↔◌, IsTrue, position};
ghost use Rattle.std.specs.Str.{bytes_eq};
ghost use Rattle.msc_base.specs.Lists.{IsAmong};

use msc_base::Name;

/// Up to so many names a list is looked through: that takes less time than a hash.
pub const FEW: usize = 8;

/// Whether the bytes are the same. For the few of a name this takes less time than what compares slices of any length.
fn same_bytes(a: &[u8], b: &[u8]) -> bool
    ensures { result ≡ bytes_eq a.now b.now }
{
    if a.len() != b.len() {
        return false;
    }
    for index in 0..a.len() {
        if a[index] != b[index] {
            return false;
        }
    }
    true
}

/// The number of a name in the list, from 0.
pub fn number_in(names: &[Name], name: &Name) -> Option<usize>
    ensures { result ≡ position (bytes_eq name.now) names.now }
{
    let mut number = 0;
    for other in names {
        if same_bytes(name.bytes(), other.bytes()) {
            return Some(number);
        }
        number += 1;
    }
    None
}

/// Whether a name is one of the list.
pub fn is_listed(names: &[Name], name: &Name) -> bool
    ensures { IsTrue result ↔ IsAmong names.now name.now }
{
    number_in(names, name).is_some()
}
