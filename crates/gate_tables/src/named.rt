//! The facts of the gates of a level's references and inline expressions, by their names: for `level` and `inner_facts`.

ghost use Rattle.std.specs.Prelude.{◌≡◌, ◌+◌, List, ℕ, IfNone, IfOk, IfSome, None, OnOk, Some, if◌then◌else◌, option_map, true};
ghost use Rattle.std.specs.Str.{bytes_eq};
ghost use Rattle.gate_tables.specs.FactMaps.{at_gate};
ghost use Rattle.gate_tables.specs.FactViews.{seen_view};
ghost use Rattle.gate_tables.specs.KeptMaps.{kept_of};
ghost use Rattle.gate_tables.specs.KnownFacts.{item_of_known, known_of};
ghost use Rattle.gate_tables.specs.NamedMaps.{IsNamePopped, map_named, named_count, named_gate};
ghost use Rattle.gate_tables.specs.Together.{together};
ghost use Rattle.msc_meaning.specs.ItemViews.{inline_view, items_view};
ghost use Rattle.msc_meaning.specs.Views.{item_view, reference_view};

use crate::expressions::expression_seen;
use crate::fact_map::{FactMap, joined};
use crate::facts::SeenFacts;
use crate::kept::{KeptMap, KeptMaps};
use crate::levels::inline_seen;
use indexmap::IndexMap;
use msc_base::NoMemory;
use msc_meaning::{InlineItem, Item, ReferenceItem};
use std::alloc::Global;

/// The facts of the gates of each name.
#[derive(Drop)]
pub struct NamedFacts<'a> {
    held: IndexMap<&'a [u8], FactMap<'a>>,
}

/// A name with the facts of its gates.
#[derive(Drop)]
struct NamedMap<'a> {
    name: &'a [u8],
    map: FactMap<'a>,
}

impl<'a> NamedFacts<'a> {
    /// No names. It takes no memory.
    pub fn new(alloc: Global) -> NamedFacts<'a>
        ensures { (n g : List ℕ) → named_gate result n g ≡ None }
    {
        NamedFacts {
            held: IndexMap::new(alloc),
        }
    }

    /// The facts of the name's gate, where there are some. It takes no memory.
    pub fn at(&self, name: &[u8], gate: &[u8]) -> Option<SeenFacts<'a>>
        ensures { option_map seen_view result ≡ named_gate self.now name.now gate.now }
    {
        match self.held.get(name) {
            Some(map) => map.at(gate),
            None => None,
        }
    }

    /// Takes out the facts of the name, where it has some.
    fn take(&mut self, name: &[u8]) -> Option<FactMap<'a>>
        ensures taken { result ≡ map_named self.old name.now }
        ensures others { (n : List ℕ) → map_named self.new n ≡ (if bytes_eq name.now n then None else map_named self.old n) }
    {
        self.held.swap_remove(name)
    }

    /// Gives the name these facts alone.
    fn set(&mut self, name: &'a [u8], map: FactMap<'a>) -> Result<(), NoMemory>
        ensures { OnOk result ((n : List ℕ) → map_named self.new n ≡ (if bytes_eq name.entry.now n then Some map.entry else map_named self.old n)) }
    {
        self.held.insert(name, map)?;
        Ok(())
    }

    /// Puts the facts in front of those that the name has.
    fn add_in_front(&mut self, name: &'a [u8], map: FactMap<'a>) -> Result<(), NoMemory>
        ensures { OnOk result ((n g : List ℕ) → named_gate self.new n g ≡ (if bytes_eq name.entry.now n then together true (at_gate map.entry g) (named_gate self.old n g) else named_gate self.old n g)) }
    {
        let map = match self.take(name) {
            Some(known) => joined(map, known, true)?,
            None => map,
        };
        self.set(name, map)
    }

    /// Takes out one of the names, where there is one.
    fn pop(&mut self) -> Option<NamedMap<'a>>
        ensures none { IfNone result ((n : List ℕ) → map_named self.old n ≡ None) }
        ensures some { IfSome result (λ named. IsNamePopped self.old self.new named.name.now named.map) }
        ensures fewer { IfSome result (λ named. named_count self.new + 1 ≡ named_count self.old) }
    {
        let (name, map) = self.held.pop()?;
        Some(NamedMap { name, map })
    }

    /// The same facts with names of their own.
    pub fn kept(self, alloc: Global) -> Result<KeptMaps, NoMemory>
        ensures { IfOk result (λ kept. (n g : List ℕ) → kept_of kept n g ≡ named_gate self.entry n g) }
    {
        let mut left = self;
        let mut kept = KeptMaps::new(alloc);
        while let Some(named) = left.pop() {
            let map = KeptMap::of(alloc, named.map)?;
            kept.set(alloc, named.name, map)?;
        }
        Ok(kept)
    }
}

/// Puts in front the facts of an inline expression, where it has a name.
fn add_inline<'a>(
    alloc: Global,
    known: &'a KeptMaps,
    named: &mut NamedFacts<'a>,
    inline: &'a InlineItem,
) -> Result<(), NoMemory>
    ensures { OnOk result ((n g : List ℕ) → named_gate named.new n g ≡ together true (item_of_known (kept_of known.now) (inline_view inline.now) n g) (named_gate named.old n g)) }
{
    match &inline.name {
        Some(name) => {
            let map = inline_seen(alloc, known, inline)?;
            named.add_in_front(name.bytes(), map)
        }
        None => Ok(()),
    }
}

/// Puts in front the facts of a reference, where it has a name.
fn add_reference<'a>(
    alloc: Global,
    known: &'a KeptMaps,
    named: &mut NamedFacts<'a>,
    reference: &'a ReferenceItem,
) -> Result<(), NoMemory>
    ensures { OnOk result ((n g : List ℕ) → named_gate named.new n g ≡ together true (item_of_known (kept_of known.now) (reference_view reference.now) n g) (named_gate named.old n g)) }
{
    match &reference.name {
        Some(name) => {
            let map = expression_seen(alloc, known, &reference.expr)?;
            named.add_in_front(name.bytes(), map)
        }
        None => Ok(()),
    }
}

/// Puts in front the facts of an item, where it has a name.
fn add_item<'a>(
    alloc: Global,
    known: &'a KeptMaps,
    named: &mut NamedFacts<'a>,
    item: &'a Item,
) -> Result<(), NoMemory>
    ensures { OnOk result ((n g : List ℕ) → named_gate named.new n g ≡ together true (item_of_known (kept_of known.now) (item_view item.now) n g) (named_gate named.old n g)) }
{
    match item {
        Item::Inline(inline) => add_inline(alloc, known, named, inline),
        Item::Reference(reference) => add_reference(alloc, known, named, reference),
        Item::Single(_) => Ok(()),
        Item::Coregion(_) => Ok(()),
    }
}

/// The facts of the gates of the items of a level that have names.
pub fn named_facts<'a>(
    alloc: Global,
    known: &'a KeptMaps,
    items: &'a [Item],
) -> Result<NamedFacts<'a>, NoMemory>
    ensures { IfOk result (λ named. (n g : List ℕ) → named_gate named n g ≡ known_of (kept_of known.now) (items_view items.now) n g) }
{
    let mut named = NamedFacts::new(alloc);
    let mut left = items.len();
    while left > 0 {
        left -= 1;
        add_item(alloc, known, &mut named, &items[left])?;
    }
    Ok(named)
}
