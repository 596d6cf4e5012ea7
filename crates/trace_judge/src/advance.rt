//! One event for a set of residual terms, and what became of the set: for `track` alone.

ghost use Rattle.std.specs.Prelude.{◌≡◌, IfOk, OnErr};
ghost use Rattle.trace_judge.specs.Advances.{Advances, LeavesOver};
ghost use Rattle.trace_judge.specs.Steps.{ForLabels, IsNumber};

use crate::{StepFault, Store};
use msc_base::NoMemory;
use term_tables::Nets;

/// What became of a set at an event.
#[derive(Clone, Copy, Debug, PartialEq, Eq)]
pub(crate) enum Outcome {
    /// Terms are left, of this weight.
    Goes(u64),
    /// Nothing is left.
    Empties,
    /// The budget is passed.
    Passes,
}

/// What is left in the set after a step.
fn outcome_of<S: Store>(set: &S) -> Outcome
    ensures { LeavesOver (S.holds set.now) result }
{
    if set.is_empty() {
        Outcome::Empties
    } else {
        Outcome::Goes(set.weight())
    }
}

/// Takes an event whose label has this number, or none. After want of memory the set is as it was.
pub(crate) fn advance<S: Store>(
    set: &mut S,
    nets: &Nets,
    number: Option<u32>,
) -> Result<Outcome, NoMemory>
    requires serves { S.serves set.old nets.now }
    requires number { IsNumber nets.now number }
    ensures serves { S.serves set.new nets.now }
    ensures ok { IfOk result (λ outcome. ForLabels nets.now number (λ label. Advances nets.now label (S.holds set.old) (S.holds set.new) outcome)) }
    ensures err { OnErr result (S.holds set.new ≡ S.holds set.old) }
{
    match set.step(nets, number) {
        Ok(()) => Ok(outcome_of(set)),
        Err(StepFault::TooLarge) => Ok(Outcome::Passes),
        Err(StepFault::NoMemory) => Err(NoMemory),
    }
}
