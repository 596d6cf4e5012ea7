//! The items of a sequence by index, and stretch by stretch.

ghost use Rattle.std.specs.Prelude.{◌≡◌, ◌<◌, length, IfOk, Some, slice_get};
ghost use Rattle.persistent_sequence.specs.Walks.{IsAhead};

use crate::joining::push_copies;
use crate::nodes::Look;
use crate::{Sequence, Summed};
use msc_base::NoMemory;
use std::alloc::Global;

impl<T: Summed> Sequence<T> {
    /// The item at that index, from 0.
    #[tactic(auto, using(crate::proofs::Parts::parts))]
    pub fn at(&self, index: usize) -> &T
        requires { index < length self.now }
        ensures { slice_get self.now index ≡ Some result.now }
    {
        match self.look() {
            Look::Leaf(items) => &items[index],
            Look::Fork(first, second) => {
                let count = first.len();
                if index < count {
                    first.at(index)
                } else {
                    second.at(index - count)
                }
            }
        }
    }

    /// Items from the index on: one at least, and as many as lie side by side in memory.
    #[tactic(auto, using(crate::proofs::Stretches::stretches))]
    pub fn ahead(&self, index: usize) -> &[T]
        requires { index < length self.now }
        ensures { IsAhead self.now index result.now }
    {
        match self.look() {
            Look::Leaf(items) => &items[index..],
            Look::Fork(first, second) => {
                let count = first.len();
                if index < count {
                    first.ahead(index)
                } else {
                    second.ahead(index - count)
                }
            }
        }
    }

    /// The items, copied, from the front.
    pub fn to_vec(&self, alloc: Global) -> Result<Vec<T>, NoMemory>
        ensures { IfOk result (λ items. items.items ≡ self.now) }
    {
        let count = self.len();
        let mut items = Vec::with_capacity(alloc, count)?;
        let mut index = 0;
        while index < count {
            let some = self.ahead(index);
            push_copies(alloc, some, &mut items)?;
            index += some.len();
        }
        Ok(items)
    }
}
