//! Tests of pairs by the numbers of their ends, which bounds may rule out.

ghost use Rattle.std.specs.Prelude.{◌≡◌, ◌==◌, false, List};
ghost use Rattle.std.specs.List.{list_any};
ghost use Rattle.tie_list.specs.Names.{has_end_in, has_second, lies_in, overlap};

use crate::Tie;
use crate::facts::Bounds;
use persistent_sequence::Search;

/// Whether the number lies from the least to the greatest.
fn lies_in(least: u32, greatest: u32, number: u32) -> bool
    ensures { result ≡ lies_in least greatest number }
{
    least <= number && number <= greatest
}

/// Whether an end of a pair lies between two numbers.
#[derive(Clone, Copy)]
pub(crate) struct HasEndIn {
    /// The least of the numbers.
    pub(crate) least: u32,
    /// The greatest of the numbers.
    pub(crate) greatest: u32,
}

impl HasEndIn {
    /// Whether one of the numbers lies from the least to the greatest.
    fn overlaps(&self, least: u32, greatest: u32) -> bool
        ensures { result ≡ overlap self.now.least self.now.greatest least greatest }
    {
        self.least <= greatest && least <= self.greatest
    }
}

impl Search<Tie> for HasEndIn {
    ghost use Rattle.tie_list.specs.Names.{has_end_in};

    ghost passes = { λ test pair. has_end_in test.least test.greatest pair };

    fn meets(&self, item: &Tie) -> bool {
        let pair = item.pair();
        lies_in(self.least, self.greatest, pair.first)
            || lies_in(self.least, self.greatest, pair.second)
    }

    fn may(&self, facts: &Bounds) -> bool {
        let first = self.overlaps(facts.least_first, facts.greatest_first);
        let second = self.overlaps(facts.least_second, facts.greatest_second);
        first | second
    }
}

/// Whether the second end of a pair is a number.
#[derive(Clone, Copy)]
pub(crate) struct HasSecond {
    /// The number.
    pub(crate) number: u32,
}

impl Search<Tie> for HasSecond {
    ghost use Rattle.tie_list.specs.Names.{has_second};

    ghost passes = { λ test pair. has_second test.number pair };

    fn meets(&self, item: &Tie) -> bool {
        item.pair().second == self.number
    }

    fn may(&self, facts: &Bounds) -> bool {
        lies_in(facts.least_second, facts.greatest_second, self.number)
    }
}
