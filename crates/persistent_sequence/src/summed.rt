//! What items have to offer: a copy, and facts that can be joined.

ghost use Rattle.std.specs.Prelude.{◌≡◌, ◌++◌, ◌∷◌, [], List, IfOk, OnOk};

use msc_base::NoMemory;
use std::alloc::Global;

/// Items that can be shared, and facts of which can be stored.
pub trait Summed: Drop {
    /// The facts of some items in a row.
    type Facts: Drop;

    /// The facts are those of the items.
    ghost describes: { List Self → Self.Facts → Type 0 };

    /// The same item once more.
    fn copy(&self, alloc: Global) -> Result<Self, NoMemory>
        ensures { IfOk result (λ item. item ≡ self.now) };

    /// The facts of no items.
    fn none(alloc: Global) -> Self::Facts
        ensures { describes [] result };

    /// Adds the item behind the others.
    fn add(&self, facts: &mut Self::Facts) -> Result<(), NoMemory>
        ensures { OnOk result ((xs : List Self) → describes xs facts.old → describes (xs ++ self.now ∷ []) facts.new) };

    /// The facts of items and of those behind them.
    fn join(
        alloc: Global,
        first: &Self::Facts,
        second: &Self::Facts,
    ) -> Result<Self::Facts, NoMemory>
        ensures { IfOk result (λ facts. (xs ys : List Self) → describes xs first.now → describes ys second.now → describes (xs ++ ys) facts) };
}
