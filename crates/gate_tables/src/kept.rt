//! Facts by names and gates, with names of their own: for `tables` and `inner_facts`.

ghost use Rattle.std.specs.Option.{option_copied};
ghost use Rattle.std.specs.Prelude.{◌≡◌, ◌<◌, ◌||◌, List, ℕ, IfOk, None, OnOk, Some, false, if◌then◌else◌, option_map};
ghost use Rattle.std.specs.Str.{bytes_eq};
ghost use Rattle.gate_tables.specs.FactMaps.{at_gate};
ghost use Rattle.gate_tables.specs.FactViews.{facts_view, seen_view};
ghost use Rattle.gate_tables.specs.KeptMaps.{entry_at, has_name, kept_count, gate_in, kept_gate, kept_of};

use crate::fact_map::{FactMap, SeenGate};
use crate::facts::GateFacts;
use indexmap::IndexMap;
use msc_base::NoMemory;
use std::alloc::Global;

/// The facts of each gate that has an inner event.
#[derive(Drop)]
pub struct KeptMap {
    held: IndexMap<Vec<u8>, GateFacts>,
}

/// The facts of the gates of each name.
#[derive(Drop)]
pub struct KeptMaps {
    held: IndexMap<Vec<u8>, KeptMap>,
}

impl KeptMap {
    /// No gates. It takes no memory.
    pub fn new(alloc: Global) -> KeptMap
        ensures { (g : List ℕ) → kept_gate result g ≡ None }
    {
        KeptMap {
            held: IndexMap::new(alloc),
        }
    }

    /// Gives the gate these facts alone.
    fn set(&mut self, alloc: Global, seen: SeenGate<'_>) -> Result<(), NoMemory>
        ensures { OnOk result ((g : List ℕ) → kept_gate self.new g ≡ (if bytes_eq seen.entry.gate.now g then Some (seen_view seen.entry.facts) else kept_gate self.old g)) }
    {
        let gate = Vec::from_slice(alloc, seen.gate)?;
        let facts = seen.facts.copy(alloc)?;
        self.held.insert(gate, facts)?;
        Ok(())
    }

    /// The facts of these gates.
    pub fn of(alloc: Global, mut map: FactMap<'_>) -> Result<KeptMap, NoMemory>
        ensures { IfOk result (λ kept. (g : List ℕ) → kept_gate kept g ≡ at_gate map.entry g) }
    {
        let mut kept = KeptMap::new(alloc);
        while let Some(seen) = map.pop() {
            kept.set(alloc, seen)?;
        }
        Ok(kept)
    }

    /// The facts of the gate, where there are some. It takes no memory.
    pub fn at(&self, gate: &[u8]) -> Option<&GateFacts>
        ensures { option_map facts_view (option_copied result) ≡ kept_gate self.now gate.now }
    {
        self.held.get(gate)
    }

    /// How many gates there are.
    fn len(&self) -> usize
        ensures { result ≡ kept_count self.now }
    {
        self.held.len()
    }

    /// The gate at that index, with its facts.
    fn entry(&self, index: usize) -> SeenGate<'_>
        requires { index < kept_count self.now }
        ensures { entry_at self.now index ≡ Some (record { gate = result.gate.now; facts = seen_view result.facts }) }
    {
        match self.held.get_index(index) {
            Some((gate, facts)) => SeenGate {
                gate: gate.as_slice(),
                facts: facts.seen(),
            },
            None => unreachable!(),
        }
    }

    /// The same facts where they stand.
    pub fn seen(&self, alloc: Global) -> Result<FactMap<'_>, NoMemory>
        ensures { IfOk result (λ map. (g : List ℕ) → at_gate map g ≡ kept_gate self.now g) }
    {
        let mut map = FactMap::new(alloc);
        let mut left = self.len();
        while left > 0 {
            left -= 1;
            let seen = self.entry(left);
            map.set(seen.gate, seen.facts)?;
        }
        Ok(map)
    }
}

impl KeptMaps {
    /// No names. It takes no memory.
    pub fn new(alloc: Global) -> KeptMaps
        ensures at { (n g : List ℕ) → kept_of result n g ≡ None }
        ensures has { (n : List ℕ) → has_name result n ≡ false }
    {
        KeptMaps {
            held: IndexMap::new(alloc),
        }
    }

    /// Whether the name has facts. It takes no memory.
    pub fn has(&self, name: &[u8]) -> bool
        ensures { result ≡ has_name self.now name.now }
    {
        self.held.contains_key(name)
    }

    /// The facts of the name. It takes no memory.
    pub fn of(&self, name: &[u8]) -> Option<&KeptMap>
        ensures { (g : List ℕ) → gate_in (option_copied result) g ≡ kept_of self.now name.now g }
    {
        self.held.get(name)
    }

    /// The facts of the name's gate, where there are some. It takes no memory.
    pub fn at(&self, name: &[u8], gate: &[u8]) -> Option<&GateFacts>
        ensures { option_map facts_view (option_copied result) ≡ kept_of self.now name.now gate.now }
    {
        match self.held.get(name) {
            Some(kept) => kept.at(gate),
            None => None,
        }
    }

    /// Gives the name these facts alone.
    pub fn set(&mut self, alloc: Global, name: &[u8], kept: KeptMap) -> Result<(), NoMemory>
        ensures at { OnOk result ((n g : List ℕ) → kept_of self.new n g ≡ (if bytes_eq name.now n then kept_gate kept g else kept_of self.old n g)) }
        ensures has { OnOk result ((n : List ℕ) → has_name self.new n ≡ (bytes_eq name.now n || has_name self.old n)) }
    {
        let name = Vec::from_slice(alloc, name)?;
        self.held.insert(name, kept)?;
        Ok(())
    }
}
