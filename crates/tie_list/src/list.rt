//! The list of pairs: read by index and by stretches, searched by numbers, and changed.

ghost use Rattle.std.specs.Prelude.{◌≡◌, ◌+◌, ◌++◌, ◌<◌, ◌==◌, length, take, drop, slice_get, IfOk, Some};
ghost use Rattle.std.specs.List.{position_from};
ghost use Rattle.persistent_sequence.specs.Walks.{IsAhead};
ghost use Rattle.tie_list.specs.Names.{has_end_in, has_second};

use crate::Tie;
use crate::search::{HasEndIn, HasSecond};
use msc_base::{NoMemory, Pair, PairList};
use persistent_sequence::Sequence;
use std::alloc::Global;
use std::marker::Model;

/// A list of pairs of event numbers, whose nodes are shared between the lists that are made of one another.
#[derive(Drop)]
pub struct TieList {
    ties: Sequence<Tie>,
}

impl Model for TieList {
    ghost use Rattle.std.specs.Prelude.{List};
    ghost use Rattle.msc_base.specs.declared.label.Pair.{Pair};

    ghost Value = { List Pair };

    ghost view = { λ l. l.ties };
}

impl TieList {
    /// The list of these pairs. It fails only for want of memory.
    pub fn from_pairs(alloc: Global, pairs: &PairList) -> Result<TieList, NoMemory>
        ensures { IfOk result (λ list. list ≡ pairs.now) }
    {
        let mut ties = Vec::with_capacity(alloc, pairs.len())?;
        for pair in pairs.as_slice() {
            ties.push(Tie::new(*pair))?;
        }
        Ok(TieList {
            ties: Sequence::from_vec(alloc, ties)?,
        })
    }

    /// How many pairs there are. It takes no memory.
    pub fn len(&self) -> usize
        ensures { result ≡ length self.now }
    {
        self.ties.len()
    }

    /// Whether there is no pair. It takes no memory.
    pub fn is_empty(&self) -> bool
        ensures { result ≡ (length self.now == 0) }
    {
        self.ties.is_empty()
    }

    /// The pair at that index, from 0. It takes no memory, and the time of the logarithm of the length.
    pub fn at(&self, index: usize) -> Pair
        requires { index < length self.now }
        ensures { slice_get self.now index ≡ Some result }
    {
        self.ties.at(index).pair()
    }

    /// Pairs from the index on: one at least, and as many as lie side by side in memory. It takes no memory.
    pub fn ahead(&self, index: usize) -> &[Tie]
        requires { index < length self.now }
        ensures { IsAhead self.now index result.now }
    {
        self.ties.ahead(index)
    }

    /// The same list once more: its nodes are shared. It fails only where there are too many copies.
    pub fn copy(&self, alloc: Global) -> Result<TieList, NoMemory>
        ensures { IfOk result (λ list. list ≡ self.now) }
    {
        let _ = alloc;
        Ok(TieList {
            ties: self.ties.copy()?,
        })
    }

    /// The list without the pair at that index. It fails only for want of memory.
    pub fn remove(&self, alloc: Global, index: usize) -> Result<TieList, NoMemory>
        requires { index < length self.now }
        ensures { IfOk result (λ list. list ≡ take index self.now ++ drop (index + 1) self.now) }
    {
        Ok(TieList {
            ties: self.ties.remove(alloc, index)?,
        })
    }

    /// The first index at or behind the given one whose pair has an end from the least to the greatest number. It takes
    /// no memory, and looks only at stretches that may have such an end.
    pub fn next_naming(&self, from: usize, least: u32, greatest: u32) -> Option<usize>
        ensures { result ≡ position_from (has_end_in least greatest) from (drop from self.now) }
    {
        self.ties.find_from(from, &HasEndIn { least, greatest })
    }

    /// The first index at or behind the given one whose pair has this number as its second end. It takes no memory, and
    /// looks only at stretches that may have such an end.
    pub fn next_second(&self, from: usize, number: u32) -> Option<usize>
        ensures { result ≡ position_from (has_second number) from (drop from self.now) }
    {
        self.ties.find_from(from, &HasSecond { number })
    }
}
