//! The earliest order under edges, by counting what each item still waits for. `weaving` and `pairing` stand on it.

ghost use Rattle.std.specs.Prelude.{◌≡◌, ◌^◌, Vec, ℕ, ◌<◌, ◌≤◌, ◌+◌, ◌↔◌, ◌⊎◌, ◌∷◌, ◌++◌, [], All, length, get_or, IfOk, OnOk, IsTrue, Option, Some, None, IfSome, IfNone, slice_get};
ghost use Rattle.std.specs.Ordering.{nat_cmp};
ghost use Rattle.std.specs.Vec.{vec_len};
ghost use Rattle.std.specs.BTreeSet.{contains};
ghost use Rattle.column_order.specs.Counts.{Inside, EdgeLeads, waiting, targets, times};
ghost use Rattle.column_order.specs.Orders.{IsWhole, IsStuckAt};
ghost use Rattle.column_order.specs.Answers.{IfWhole, IfStuck};

use crate::Edge;
use msc_base::NoMemory;
use std::alloc::Global;
use std::collections::BTreeSet;

/// An order of all items, or the earliest item that remains where none is due.
#[derive(Drop)]
pub enum Sorted {
    Whole(Vec<u32>),
    Stuck(u32),
}

/// How many edges lead to each item.
fn counts_of(alloc: Global, count: u32, edges: &[Edge]) -> Result<Vec<u32>, NoMemory>
    requires inside { All (Inside count) edges.now }
    requires few { length edges.now < 2 ^ 32 }
    ensures len { IfOk result (λ counts. vec_len counts ≡ count) }
    ensures counts { IfOk result (λ counts. (x : ℕ) → x < count → get_or counts.items x 0 ≡ waiting edges.now [] x) }
{
    let mut counts = vec![in alloc; 0u32; count as usize]?;
    for edge in edges {
        let to = edge.to as usize;
        counts[to] += 1;
    }
    Ok(counts)
}

/// Where the edges from each item lead.
pub fn targets_of(alloc: Global, count: u32, edges: &[Edge]) -> Result<Vec<Vec<u32>>, NoMemory>
    requires inside { All (λ edge. edge.from < count) edges.now }
    ensures len { IfOk result (λ lists. vec_len lists ≡ count) }
    ensures targets { IfOk result (λ lists. (x : ℕ) (list : Vec ℕ Global) → slice_get lists.items x ≡ Some list → list.items ≡ targets edges.now x) }
{
    let mut lists = Vec::new(alloc);
    for _ in 0..count {
        lists.push(Vec::new(alloc))?;
    }
    for edge in edges {
        let list = &mut lists[edge.from as usize];
        list.push(edge.to)?;
    }
    Ok(lists)
}

/// The items to which no edge leads.
fn ready_of(alloc: Global, counts: &[u32]) -> Result<BTreeSet<u32>, NoMemory>
    requires { length counts.now < 2 ^ 32 }
    ensures { IfOk result (λ ready. (x : ℕ) → IsTrue (contains nat_cmp ready x) ↔ ((x < length counts.now) × (get_or counts.now x 0 ≡ 0))) }
{
    let mut ready = BTreeSet::new(alloc);
    let mut item = 0u32;
    for count in counts {
        if *count == 0 {
            ready.insert(item)?;
        }
        item += 1;
    }
    Ok(ready)
}

/// Takes one from the count of each target, and notes those whose count comes to 0.
fn release(counts: &mut [u32], ready: &mut BTreeSet<u32>, targets: &[u32]) -> Result<(), NoMemory>
    requires inside { All (λ x. x < length counts.old) targets.now }
    requires enough { (x : ℕ) → times x targets.now ≤ get_or counts.old x 0 }
    ensures len { length counts.new ≡ length counts.old }
    ensures counts { OnOk result ((x : ℕ) → get_or counts.new x 0 + times x targets.now ≡ get_or counts.old x 0) }
    ensures ready { OnOk result ((x : ℕ) → IsTrue (contains nat_cmp ready.new x) ↔ (IsTrue (contains nat_cmp ready.old x) ⊎ ((0 < get_or counts.old x 0) × (get_or counts.new x 0 ≡ 0)))) }
{
    for target in targets {
        let target = *target;
        let count = &mut counts[target as usize];
        *count -= 1;
        if *count == 0 {
            ready.insert(target)?;
        }
    }
    Ok(())
}

/// The first count that isn't 0.
fn first_waiting(counts: &[u32]) -> Option<u32>
    requires { length counts.now < 2 ^ 32 }
    ensures some { IfSome result (λ x. (x < length counts.now) × (0 < get_or counts.now x 0) × ((y : ℕ) → y < length counts.now → 0 < get_or counts.now y 0 → x ≤ y)) }
    ensures none { IfNone result ((y : ℕ) → get_or counts.now y 0 ≡ 0) }
{
    let mut item = 0u32;
    for count in counts {
        if *count != 0 {
            return Some(item);
        }
        item += 1;
    }
    None
}

/// The order in which at each position stands the earliest item whose predecessors all stand before it.
pub fn sort_edges(alloc: Global, count: u32, edges: &[Edge]) -> Result<Sorted, NoMemory>
    requires inside { All (Inside count) edges.now }
    requires few { length edges.now < 2 ^ 32 }
    ensures whole { IfOk result (λ sorted. IfWhole sorted (λ order. IsWhole count (EdgeLeads edges.now) order.items)) }
    ensures stuck { IfOk result (λ sorted. IfStuck sorted (IsStuckAt count (EdgeLeads edges.now))) }
{
    let mut counts = counts_of(alloc, count, edges)?;
    let lists = targets_of(alloc, count, edges)?;
    let mut ready = ready_of(alloc, &counts)?;
    let mut order = Vec::new(alloc);
    while let Some(item) = ready.pop_first() {
        order.push(item)?;
        release(&mut counts, &mut ready, &lists[item as usize])?;
    }
    match first_waiting(&counts) {
        Some(item) => Ok(Sorted::Stuck(item)),
        None => Ok(Sorted::Whole(order)),
    }
}
