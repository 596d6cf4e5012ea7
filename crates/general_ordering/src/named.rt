//! The events of a level by their names: for `level_names` and `ordering`.

ghost use Rattle.std.specs.Prelude.{◌≡◌, ◌++◌, ◌∷◌, ℕ, [], List, IfOk, OnOk, length, map};
ghost use Rattle.general_ordering.specs.NamedEvents.{IsEven, group_of, own_group};
ghost use Rattle.msc_meaning.specs.ItemViews.{items_view};
ghost use Rattle.msc_meaning.specs.Bodies.{events, item_events};
ghost use Rattle.msc_meaning.specs.Ties.{labelled};
ghost use Rattle.msc_meaning.specs.Views.{item_view, node_view};

use msc_base::{Name, NameTable, NoMemory, NumberList};
use msc_meaning::{EventNode, Item};
use std::alloc::Global;

/// The numbers of events by the names of the events.
#[derive(Drop)]
pub(crate) struct NamedEvents {
    /// The names, each once.
    pub(crate) names: NameTable,
    /// The numbers of the events of each name, in the order of the names.
    pub(crate) groups: Vec<NumberList>,
}

/// The list of one number.
fn alone(alloc: Global, number: u32) -> Result<NumberList, NoMemory>
    ensures { IfOk result (λ list. list ≡ number ∷ []) }
{
    let mut list = NumberList::new(alloc);
    list.push(number)?;
    Ok(list)
}

impl NamedEvents {
    /// No event. It takes no memory.
    fn new(alloc: Global) -> NamedEvents
        ensures even { IsEven result }
        ensures none { (name : List ℕ) → group_of result name ≡ [] }
    {
        NamedEvents {
            names: NameTable::new(alloc),
            groups: Vec::new(alloc),
        }
    }

    /// Adds the number of an event of the name.
    fn add(&mut self, alloc: Global, name: &Name, number: u32) -> Result<(), NoMemory>
        requires { IsEven self.old }
        ensures even { OnOk result (IsEven self.new) }
        ensures added { OnOk result ((other : List ℕ) → group_of self.new other ≡ group_of self.old other ++ own_group name.now number other) }
    {
        match self.names.number_of(name.bytes()) {
            Some(index) => self.groups[index].push(number),
            None => {
                let list = alone(alloc, number)?;
                self.groups.push(list)?;
                self.names.add(alloc, name.bytes())
            }
        }
    }

    /// Adds an event, where it has a name.
    fn add_event(&mut self, alloc: Global, node: &EventNode) -> Result<(), NoMemory>
        requires { IsEven self.old }
        ensures even { OnOk result (IsEven self.new) }
        ensures added { OnOk result ((name : List ℕ) → group_of self.new name ≡ group_of self.old name ++ labelled (node_view node.now ∷ []) name) }
    {
        match node.event.order.event_name() {
            Some(name) => self.add(alloc, name, node.number),
            None => Ok(()),
        }
    }

    /// Adds events, those that have a name.
    fn add_events(&mut self, alloc: Global, nodes: &[EventNode]) -> Result<(), NoMemory>
        requires { IsEven self.old }
        ensures even { OnOk result (IsEven self.new) }
        ensures added { OnOk result ((name : List ℕ) → group_of self.new name ≡ group_of self.old name ++ labelled (map node_view nodes.now) name) }
    {
        for node in nodes {
            self.add_event(alloc, node)?;
        }
        Ok(())
    }

    /// Adds the own events of an item.
    fn add_item(&mut self, alloc: Global, item: &Item) -> Result<(), NoMemory>
        requires { IsEven self.old }
        ensures even { OnOk result (IsEven self.new) }
        ensures added { OnOk result ((name : List ℕ) → group_of self.new name ≡ group_of self.old name ++ labelled (item_events (item_view item.now)) name) }
    {
        match item {
            Item::Single(node) => self.add_event(alloc, node),
            Item::Coregion(nodes) => self.add_events(alloc, nodes.as_slice()),
            Item::Inline(_) => Ok(()),
            Item::Reference(_) => Ok(()),
        }
    }

    /// The own events of these items.
    pub(crate) fn of(alloc: Global, items: &[Item]) -> Result<NamedEvents, NoMemory>
        ensures even { IfOk result (λ named. IsEven named) }
        ensures all { IfOk result (λ named. (name : List ℕ) → group_of named name ≡ labelled (events (items_view items.now)) name) }
    {
        let mut named = NamedEvents::new(alloc);
        for item in items {
            named.add_item(alloc, item)?;
        }
        Ok(named)
    }

    /// The numbers of the events of the name.
    pub(crate) fn numbers(&self, name: &Name) -> &[u32]
        requires { IsEven self.now }
        ensures { result.now ≡ group_of self.now name.now }
    {
        match self.names.number_of(name.bytes()) {
            Some(index) => self.groups[index].as_slice(),
            None => &[],
        }
    }
}
