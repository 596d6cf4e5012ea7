//! The sets of residual terms that a log leads through, all of them: for `log_way`.

ghost use Rattle.std.specs.Prelude.{◌≡◌, ◌≤◌, ◌<◌, ◌++◌, [], ◌∷◌, ℕ, List, true, false, length, slice_get, IfOk, MatchOption, OnOk, Some};
ghost use Rattle.chart_term.specs.Terms.{Tree, weight};
ghost use Rattle.log_ways.specs.LogWays.{AreLabelled};
ghost use Rattle.log_ways.specs.Trails.{Grows, IsCutOff, IsHistory, IsHistoryMemory, IsTooHeavy, LeadsTo};
ghost use Rattle.msc_base.specs.declared.limits.TheConstants.Limits.{BUDGET_MOST};
ghost use Rattle.term_laws.specs.Listing.{set_weight};
ghost use Rattle.term_sets.specs.Memories.{Gains, set_at};
ghost use Rattle.trace_judge.specs.Sets.{IsSoundFor};
ghost use Rattle.trace_judge.specs.Steps.{IsNumber};

use chart_term::Term;
use msc_base::NoMemory;
use std::alloc::Global;
use term_sets::{Bounds, SetMemory, TermSet, gather};
use term_tables::Nets;

/// The sets of a log.
#[derive(Drop)]
pub(crate) struct History {
    /// The sets that were met, by their numbers.
    pub(crate) memory: SetMemory,
    /// The number of the set before the first event, and of that after each.
    pub(crate) sets: Vec<u32>,
}

/// Bounds that turn away nothing but what is above the budget.
fn bounds_of(budget: u64) -> Bounds
    ensures { result.light ≡ budget }
{
    Bounds {
        light: budget,
        held: u64::MAX,
        rows: u32::MAX,
    }
}

/// The number of the set, which is added where it wasn't met.
#[tactic(auto, using(crate::proofs::Growing::growing))]
fn keep(memory: &mut SetMemory, set: TermSet) -> Result<u32, NoMemory>
    requires light { set_weight set ≤ memory.old.bounds.light }
    ensures bounds { memory.new.bounds ≡ memory.old.bounds }
    ensures sets { Gains memory.old.sets set memory.new.sets }
    ensures moves { memory.new.moves ≡ memory.old.moves }
    ensures there { IfOk result (λ number. (number < length memory.new.sets) × (set_at memory.new.sets number ≡ set)) }
{
    if !memory.has_room(&set) {
        return Err(NoMemory);
    }
    memory.keep(set)
}

/// Remembers that an event whose label has this number leads from the one set to the other, where there is room for it.
#[tactic(auto, using(crate::proofs::Growing::growing))]
fn note(memory: &mut SetMemory, from: u32, number: u32, to: u32) -> Result<(), NoMemory>
    ensures bounds { memory.new.bounds ≡ memory.old.bounds }
    ensures sets { memory.new.sets ≡ memory.old.sets }
    ensures moves { Gains memory.old.moves (record { from = from; label = number; to = to }) memory.new.moves }
{
    if memory.rows() >= u64::from(memory.bounds().rows) {
        return Ok(());
    }
    memory.note(from, number, to)
}

/// The number of the set that an event whose label has this number leaves of the set; none where that is above the budget.
fn next_set(
    alloc: Global,
    nets: &Nets,
    memory: &mut SetMemory,
    from: u32,
    number: u32,
    budget: u64,
) -> Result<Option<u32>, NoMemory>
    requires serves { IsHistoryMemory nets.now budget memory.old }
    requires from { from < length memory.old.sets }
    requires most { budget ≤ BUDGET_MOST }
    requires labelled { IsNumber nets.now (Some number) }
    ensures serves { OnOk result (IsHistoryMemory nets.now budget memory.new) }
    ensures grows { OnOk result (Grows memory.old.sets memory.new.sets) }
    ensures next { IfOk result (λ found. MatchOption found (IsTooHeavy nets.now number (set_at memory.old.sets from) budget)
        (LeadsTo nets.now number (set_at memory.old.sets from) memory.new.sets)) }
{
    if let Some(to) = memory.next(from, number) {
        return Ok(Some(to));
    }
    let Some(set) = gather(alloc, nets, memory.set(from), Some(number), budget)? else {
        return Ok(None);
    };
    let to = keep(memory, set)?;
    note(memory, from, number, to)?;
    Ok(Some(to))
}

/// The history of no events.
fn start(alloc: Global, nets: &Nets, term: &Term, budget: u64) -> Result<History, NoMemory>
    requires sound { IsSoundFor nets.now term.now }
    requires within { weight term.now ≤ budget }
    requires most { budget ≤ BUDGET_MOST }
    ensures { IfOk result (IsHistory nets.now budget term.now []) }
{
    let _ = nets;
    let mut memory = SetMemory::new(alloc, bounds_of(budget));
    let set = TermSet::single(alloc, term.copy(alloc)?)?;
    let first = keep(&mut memory, set)?;
    let mut sets = Vec::new(alloc);
    sets.push(first)?;
    Ok(History { memory, sets })
}

/// One event more, whose label has this number, behind the set of that number, the last; it says whether what is left is within the budget.
fn go_on(
    history: &mut History,
    alloc: Global,
    nets: &Nets,
    from: u32,
    number: u32,
    budget: u64,
) -> Result<bool, NoMemory>
    requires serves { IsHistoryMemory nets.now budget history.old.memory }
    requires from { from < length history.old.memory.sets }
    requires most { budget ≤ BUDGET_MOST }
    requires labelled { IsNumber nets.now (Some number) }
    ensures yes { (x : Tree) (numbers : List ℕ) → IsHistory nets.now budget x numbers history.old → slice_get history.old.sets.items (length numbers) ≡ Some from
        → IfOk result (λ within. within ≡ true → IsHistory nets.now budget x (numbers ++ number ∷ []) history.new) }
    ensures no { IfOk result (λ within. within ≡ false → IsTooHeavy nets.now number (set_at history.old.memory.sets from) budget) }
{
    let Some(to) = next_set(alloc, nets, &mut history.memory, from, number, budget)? else {
        return Ok(false);
    };
    history.sets.push(to)?;
    Ok(true)
}

/// The sets that the log leads through, from that of the term alone on; none where one is above the budget.
pub(crate) fn history_of(
    alloc: Global,
    nets: &Nets,
    term: &Term,
    numbers: &[u32],
    budget: u64,
) -> Result<Option<History>, NoMemory>
    requires sound { IsSoundFor nets.now term.now }
    requires labelled { AreLabelled nets.now.labels numbers.now }
    requires within { weight term.now ≤ budget }
    requires most { budget ≤ BUDGET_MOST }
    ensures { IfOk result (λ found. MatchOption found (IsCutOff nets.now budget term.now numbers.now) (IsHistory nets.now budget term.now numbers.now)) }
{
    let mut history = start(alloc, nets, term, budget)?;
    for index in 0..numbers.len() {
        let from = history.sets[index];
        if !go_on(&mut history, alloc, nets, from, numbers[index], budget)? {
            return Ok(None);
        }
    }
    Ok(Some(history))
}
