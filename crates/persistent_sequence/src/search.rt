//! The first item that meets a test, found by the stored facts.

ghost use Rattle.std.specs.Prelude.{◌≡◌, ℕ, ◌+◌, ◌^◌, ◌<◌, ◌≤◌, Bool, true, false, List, length, drop};
ghost use Rattle.std.specs.List.{list_any, position_from};

use crate::nodes::Look;
use crate::{Sequence, Summed};

/// A test of items, which facts of items may rule out.
pub trait Search<T: Summed> {
    /// Whether an item meets the test.
    ghost passes: { Self → T → Bool };

    /// Whether the item meets the test.
    fn meets(&self, item: &T) -> bool
        ensures { result ≡ passes self.now item.now };

    /// Whether an item of those with these facts may meet the test.
    fn may(&self, facts: &T::Facts) -> bool
        ensures { (xs : List T) → T.describes xs facts.now → result ≡ false → list_any (passes self.now) xs ≡ false };
}

impl<T: Summed> Sequence<T> {
    /// Whether the facts rule out that an item meets the test.
    fn lacks<S: Search<T>>(&self, test: &S) -> bool
        ensures { result ≡ true → list_any (S.passes test.now) self.now ≡ false }
    {
        !test.may(self.facts())
    }

    /// The first index at or behind the given one whose item meets the test.
    pub fn find_from<S: Search<T>>(&self, index: usize, test: &S) -> Option<usize>
        ensures { result ≡ position_from (S.passes test.now) index (drop index self.now) }
    {
        let _ = self.len();
        self.find_behind(0, index, test)
    }

    /// The same, counted from a number on.
    #[tactic(auto, using(crate::proofs::Finding::finding))]
    fn find_behind<S: Search<T>>(&self, base: usize, index: usize, test: &S) -> Option<usize>
        requires { base + length self.now < 2 ^ 64 }
        ensures { result ≡ position_from (S.passes test.now) (base + index) (drop index self.now) }
    {
        if self.lacks(test) {
            return None;
        }
        match self.look() {
            Look::Leaf(items) => first_of(items, base, index, test),
            Look::Fork(first, second) => {
                let count = first.len();
                if index >= count {
                    second.find_behind(base + count, index - count, test)
                } else {
                    match first.find_behind(base, index, test) {
                        Some(at) => Some(at),
                        None => second.find_behind(base + count, 0, test),
                    }
                }
            }
        }
    }
}

/// The first index at or behind the given one whose item meets the test, counted from a number on.
#[tactic(auto, using(crate::proofs::Finding::finding))]
fn first_of<T: Summed, S: Search<T>>(
    items: &[T],
    base: usize,
    index: usize,
    test: &S,
) -> Option<usize>
    requires { base + length items.now < 2 ^ 64 }
    ensures { result ≡ position_from (S.passes test.now) (base + index) (drop index items.now) }
{
    for at in index..items.len() {
        if test.meets(&items[at]) {
            return Some(base + at);
        }
    }
    None
}
