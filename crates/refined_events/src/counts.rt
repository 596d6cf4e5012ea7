//! How many events of each direction and text there are: for `matching` and `placed`.

ghost use Rattle.std.specs.Prelude.{◌≡◌, ◌+◌, ◌++◌, ◌∷◌, [], List, IfOk, OnOk, if◌then◌else◌};
ghost use Rattle.msc_meaning.specs.Bodies.{EventNode as PlainNode};
ghost use Rattle.msc_meaning.specs.Views.{node_view};
ghost use Rattle.refined_events.specs.Keys.{Key, is_same_key, key_view};
ghost use Rattle.refined_events.specs.MatchViews.{nodes_view};
ghost use Rattle.refined_events.specs.Sorted.{AreCounts, count_of};

use crate::keys::EventKey;
use indexmap::IndexMap;
use msc_base::NoMemory;
use msc_meaning::EventNode;
use std::alloc::Global;

/// The number of events of each direction and text.
#[derive(Drop)]
pub(crate) struct Counts {
    held: IndexMap<EventKey, usize>,
}

impl Counts {
    /// No events. It takes no memory.
    pub(crate) fn new(alloc: Global) -> Counts
        ensures { (k : Key) → count_of result k ≡ 0 }
    {
        Counts {
            held: IndexMap::new(alloc),
        }
    }

    /// How many events of that direction and text there are.
    pub(crate) fn at(&self, key: &EventKey) -> usize
        ensures { result ≡ count_of self.now (key_view key.now) }
    {
        match self.held.get(key) {
            None => 0,
            Some(count) => *count,
        }
    }

    /// Adds one event of that direction and text. It fails only for want of memory, for which it takes 2^64 events too.
    pub(crate) fn add(&mut self, key: EventKey) -> Result<(), NoMemory>
        ensures { OnOk result ((k : Key) → count_of self.new k ≡ (if is_same_key k (key_view key) then 1 else 0) + count_of self.old k) }
    {
        let count = self.at(&key);
        if count == usize::MAX {
            return Err(NoMemory);
        }
        self.held.insert(key, count + 1)?;
        Ok(())
    }

    /// Adds one event. It fails only for want of memory.
    fn add_node(&mut self, alloc: Global, node: &EventNode) -> Result<(), NoMemory>
        ensures { OnOk result ((es : List PlainNode) → AreCounts es self.old → AreCounts (es ++ node_view node.now ∷ []) self.new) }
    {
        match EventKey::of(alloc, node)? {
            None => Ok(()),
            Some(key) => self.add(key),
        }
    }

    /// Of these events.
    pub(crate) fn of(alloc: Global, nodes: &[&EventNode]) -> Result<Counts, NoMemory>
        ensures { IfOk result (AreCounts (nodes_view nodes.now)) }
    {
        let mut counts = Counts::new(alloc);
        for node in nodes {
            counts.add_node(alloc, node)?;
        }
        Ok(counts)
    }
}
