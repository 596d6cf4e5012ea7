//! The earlier of two places, where there are any: for walks over charts.

ghost use Rattle.std.specs.Prelude.{◌≡◌};
ghost use Rattle.msc_acceptance.specs.Deciding.{earlier_of};

use msc_base::{Place, earlier_place};

/// The earlier of two places.
pub fn earlier(a: Option<Place>, b: Option<Place>) -> Option<Place>
    ensures { result ≡ earlier_of a b }
{
    match b {
        None => a,
        Some(place) => earlier_place(a, place),
    }
}
