//! Events by their direction, their text and how many like them stand before them: for `matching`.

ghost use Rattle.std.specs.Option.{option_copied};
ghost use Rattle.std.specs.Prelude.{◌≡◌, ◌++◌, ◌∷◌, [], List, IfOk, OnOk, option_map};
ghost use Rattle.msc_meaning.specs.Bodies.{EventNode as PlainNode};
ghost use Rattle.msc_meaning.specs.Views.{node_view};
ghost use Rattle.refined_events.specs.Keys.{key_view};
ghost use Rattle.refined_events.specs.MatchViews.{nodes_view};
ghost use Rattle.refined_events.specs.Sorted.{AreSorted, IsPlaced, placed_at};

use crate::counts::Counts;
use crate::keys::EventKey;
use indexmap::IndexMap;
use msc_base::NoMemory;
use msc_meaning::EventNode;
use std::alloc::Global;

/// A direction and a text, and how many events of these stand before.
#[derive(Drop, PartialEq, Eq, Hash)]
pub(crate) struct PlaceKey {
    key: EventKey,
    before: usize,
}

/// Events by their places.
#[derive(Drop)]
pub(crate) struct PlacedEvents<'a> {
    held: IndexMap<PlaceKey, &'a EventNode>,
    counts: Counts,
}

impl<'a> PlacedEvents<'a> {
    /// No events. It takes no memory.
    fn new(alloc: Global) -> PlacedEvents<'a>
        ensures { AreSorted [] result }
    {
        PlacedEvents {
            held: IndexMap::new(alloc),
            counts: Counts::new(alloc),
        }
    }

    /// The event of that key, before which so many of it stand.
    pub(crate) fn at(&self, key: EventKey, before: usize) -> Option<&'a EventNode>
        ensures { option_map node_view (option_copied result) ≡ placed_at self.now (key_view key) before }
    {
        let place = PlaceKey { key, before };
        self.held.get(&place).copied()
    }

    /// Adds an event behind the others, which has that key.
    fn add_key(&mut self, alloc: Global, key: EventKey, node: &'a EventNode) -> Result<(), NoMemory>
        ensures { OnOk result (IsPlaced self.old (key_view key) (node_view node.now) self.new) }
    {
        let before = self.counts.at(&key);
        let place = PlaceKey {
            key: key.copy(alloc)?,
            before,
        };
        self.counts.add(key)?;
        self.held.insert(place, node)?;
        Ok(())
    }

    /// Adds an event behind the others.
    fn add(&mut self, alloc: Global, node: &'a EventNode) -> Result<(), NoMemory>
        ensures { OnOk result ((ds : List PlainNode) → AreSorted ds self.old → AreSorted (ds ++ node_view node.now ∷ []) self.new) }
    {
        match EventKey::of(alloc, node)? {
            None => Ok(()),
            Some(key) => {
                self.add_key(alloc, key, node)?;
                Ok(())
            }
        }
    }

    /// These events, in their order.
    pub(crate) fn of(alloc: Global, nodes: &[&'a EventNode]) -> Result<PlacedEvents<'a>, NoMemory>
        ensures { IfOk result (λ placed. AreSorted (nodes_view nodes.now) placed) }
    {
        let mut placed = PlacedEvents::new(alloc);
        for node in nodes {
            placed.add(alloc, node)?;
        }
        Ok(placed)
    }
}
