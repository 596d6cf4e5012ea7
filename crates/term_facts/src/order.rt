//! The order of what terms are made of: counts.

ghost use Rattle.std.specs.Prelude.{◌≡◌};
ghost use Rattle.term_facts.specs.PlainOrder.{maybe_cmp};

use std::cmp::Ordering;

/// None first.
pub fn compare_maybe(number: Option<u32>, other: Option<u32>) -> Ordering
    ensures { result ≡ maybe_cmp number other }
{
    match (number, other) {
        (None, None) => Ordering::Equal,
        (None, Some(_)) => Ordering::Less,
        (Some(_), None) => Ordering::Greater,
        (Some(first), Some(second)) => first.cmp(&second),
    }
}

/// None first.
pub fn compare_counts(count: Option<u64>, other: Option<u64>) -> Ordering
    ensures { result ≡ maybe_cmp count other }
{
    match (count, other) {
        (None, None) => Ordering::Equal,
        (None, Some(_)) => Ordering::Less,
        (Some(_), None) => Ordering::Greater,
        (Some(first), Some(second)) => first.cmp(&second),
    }
}
