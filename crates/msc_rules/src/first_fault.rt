//! The earlier of two faults, for any rules with numbers: msc_acceptance decides by it which rule a document breaks first.

ghost use Rattle.std.specs.Prelude.{◌≡◌, ℕ};
ghost use Rattle.msc_rules.specs.FirstFaults.{earlier_of, fault_of, is_ahead};

use msc_base::{Place, comes_before};

/// Rules that have numbers: at one place the lowest number decides.
pub trait Numbered {
    ghost number_of: { Self → ℕ };

    /// The rule's number.
    fn number(&self) -> u32
        ensures { result ≡ number_of self.now };
}

/// A rule that is broken, and where.
#[derive(Clone, Copy, Debug, PartialEq, Eq)]
pub struct Broken<R> {
    /// The rule.
    pub rule: R,
    /// Where it is broken.
    pub place: Place,
}

/// The fault of a rule that is broken at that place, if it is broken.
pub fn broken_at<R: Copy>(rule: R, place: Option<Place>) -> Option<Broken<R>>
    ensures { result ≡ fault_of rule place }
{
    match place {
        None => None,
        Some(place) => Some(Broken { rule, place }),
    }
}

/// Whether a fault stands before another, or at its place with a lower number.
fn stands_ahead<R: Numbered + Copy>(f: Broken<R>, g: Broken<R>) -> bool
    ensures { result ≡ is_ahead R.number_of f g }
{
    comes_before(f.place, g.place)
        || (!comes_before(g.place, f.place) && f.rule.number() < g.rule.number())
}

/// The earlier of two faults, and of two at one place the one of the lower number.
pub fn earlier_fault<R: Numbered + Copy>(
    a: Option<Broken<R>>,
    b: Option<Broken<R>>,
) -> Option<Broken<R>>
    ensures { result ≡ earlier_of R.number_of a b }
{
    match (a, b) {
        (None, b) => b,
        (Some(f), None) => Some(f),
        (Some(f), Some(g)) => { if stands_ahead(g, f) { Some(g) } else { Some(f) } }
    }
}
