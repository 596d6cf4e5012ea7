//! The earlier of two places: for level_weaving.

ghost use Rattle.std.specs.Prelude.{◌≡◌};
ghost use Rattle.level_pieces.specs.Earliest.{earliest_of};

use msc_base::{Place, earlier_place};

/// The earlier of the two, where there are any.
pub fn earlier_of(so_far: Option<Place>, more: Option<Place>) -> Option<Place>
    ensures { result ≡ earliest_of so_far more }
{
    match more {
        None => so_far,
        Some(place) => earlier_place(so_far, place),
    }
}
