//! What a node of a list stores of its pairs: from where to where their ends go.

ghost use Rattle.std.specs.Prelude.{◌≡◌, ◌++◌, ◌∷◌, [], List, IfOk, OnOk, min, max};
ghost use Rattle.tie_list.specs.Facts.{AreWithin};

use crate::Tie;
use msc_base::NoMemory;
use persistent_sequence::Summed;
use std::alloc::Global;

/// Bounds of the ends of some pairs. Of no pairs each least bound is above the greatest.
#[derive(Drop)]
pub struct Bounds {
    /// No first end is below.
    pub(crate) least_first: u32,
    /// No first end is above.
    pub(crate) greatest_first: u32,
    /// No second end is below.
    pub(crate) least_second: u32,
    /// No second end is above.
    pub(crate) greatest_second: u32,
}

impl Summed for Tie {
    type Facts = Bounds;

    ghost use Rattle.tie_list.specs.Facts.{AreWithin};

    ghost describes = { AreWithin };

    fn copy(&self, alloc: Global) -> Result<Tie, NoMemory> {
        let _ = alloc;
        Ok(Tie::new(self.pair()))
    }

    fn none(alloc: Global) -> Bounds {
        let _ = alloc;
        Bounds {
            least_first: u32::MAX,
            greatest_first: 0,
            least_second: u32::MAX,
            greatest_second: 0,
        }
    }

    #[tactic(auto, using(crate::proofs::Within::within))]
    fn add(&self, facts: &mut Bounds) -> Result<(), NoMemory> {
        let pair = self.pair();
        facts.least_first = facts.least_first.min(pair.first);
        facts.greatest_first = facts.greatest_first.max(pair.first);
        facts.least_second = facts.least_second.min(pair.second);
        facts.greatest_second = facts.greatest_second.max(pair.second);
        Ok(())
    }

    #[tactic(auto, using(crate::proofs::Within::within))]
    fn join(alloc: Global, first: &Bounds, second: &Bounds) -> Result<Bounds, NoMemory> {
        let _ = alloc;
        Ok(Bounds {
            least_first: first.least_first.min(second.least_first),
            greatest_first: first.greatest_first.max(second.greatest_first),
            least_second: first.least_second.min(second.least_second),
            greatest_second: first.greatest_second.max(second.greatest_second),
        })
    }
}
