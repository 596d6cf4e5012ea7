//! What is left of a set of terms after an event, and whether one of its terms may end: for the stores.

ghost use Rattle.std.specs.Prelude.{◌≤◌, ◌↔◌, IfOk, IfSome, IsTrue};
ghost use Rattle.msc_base.specs.declared.limits.TheConstants.Limits.{BUDGET_MOST};
ghost use Rattle.chart_term.specs.Properties.{Each};
ghost use Rattle.trace_judge.specs.Sets.{IsSoundFor, HasEnding};
ghost use Rattle.trace_judge.specs.Steps.{ForLabels};
ghost use Rattle.term_successors.specs.Successors.{AreRising};
ghost use Rattle.term_sets.specs.Gathers.{IsGathered};

use crate::TermSet;
use msc_base::NoMemory;
use std::alloc::Global;
use term_tables::Nets;

/// All that is left of the terms after an event whose label has this number in the tables, or none where they lack it; unless it is above
/// the budget.
pub fn gather(
    alloc: Global,
    nets: &Nets,
    set: &TermSet,
    number: Option<u32>,
    budget: u64,
) -> Result<Option<TermSet>, NoMemory>
    requires sound { Each (IsSoundFor nets.now) set.now }
    requires most { budget ≤ BUDGET_MOST }
    ensures found { IfOk result (λ found. ForLabels nets.now number (λ label. IsGathered nets.now label set.now budget found)) }
    ensures rising { IfOk result (λ found. IfSome found AreRising) }
{
    let Some(number) = number else {
        return Ok(Some(TermSet::new(alloc)));
    };
    if set.is_empty() {
        return Ok(Some(TermSet::new(alloc)));
    }
    let found = set.after(alloc, nets, number, budget)?;
    Ok(found)
}

/// Whether one of the terms may end.
pub fn one_may_end(alloc: Global, nets: &Nets, set: &TermSet) -> Result<bool, NoMemory>
    requires { Each (IsSoundFor nets.now) set.now }
    ensures { IfOk result (λ ends. IsTrue ends ↔ HasEnding nets.now set.now) }
{
    if set.is_empty() {
        return Ok(false);
    }
    set.may_end(alloc, nets)
}
