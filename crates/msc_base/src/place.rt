//! Places in a text, their order, and the earliest of several: tokens carry them, faults are told by them.

ghost use Rattle.std.specs.Prelude.{◌≡◌};
ghost use Rattle.msc_base.specs.Places.{earliest, earliest_if, is_before};

/// Where something stands in a text.
#[derive(Clone, Copy, Debug, PartialEq, Eq)]
pub struct Place {
    /// How many bytes stand before it.
    pub byte: u64,
    /// Its line, from 1.
    pub line: u64,
    /// Its byte within the line, from 1.
    pub column: u64,
}

/// Whether a place stands before another.
pub fn comes_before(a: Place, b: Place) -> bool
    ensures { result ≡ is_before a b }
{
    a.byte < b.byte
        || (a.byte == b.byte && (a.line < b.line || (a.line == b.line && a.column < b.column)))
}

/// The earlier of the earliest place so far and one place more.
pub fn earlier_place(so_far: Option<Place>, place: Place) -> Option<Place>
    ensures { result ≡ earliest so_far place }
{
    match so_far {
        None => Some(place),
        Some(other) => {
            if comes_before(place, other) {
                Some(place)
            } else {
                Some(other)
            }
        }
    }
}

/// The earliest place so far, or one more where that is earlier and something holds there.
pub fn earlier_if(so_far: Option<Place>, place: Place, holds: bool) -> Option<Place>
    ensures { result ≡ earliest_if holds so_far place }
{
    if holds {
        earlier_place(so_far, place)
    } else {
        so_far
    }
}
