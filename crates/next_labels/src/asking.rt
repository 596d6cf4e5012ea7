//! Whether a set goes on with a label: for `listing`.

ghost use Rattle.std.specs.Prelude.{◌≡◌, ◌↔◌, Some, IfOk, IsTrue};
ghost use Rattle.chart_term.specs.Properties.{Each};
ghost use Rattle.msc_base.specs.declared.label.Label.{Label};
ghost use Rattle.term_tables.specs.NetValues.{label_number};
ghost use Rattle.trace_judge.specs.Sets.{IsSoundFor, GoesOnWith};

use msc_base::NoMemory;
use std::alloc::Global;
use term_sets::{TermSet, gather};
use term_tables::Nets;

/// Whether something is left of the set after an event with the label that has this number in the tables. The search ends at the first
/// term that it finds, as each weighs more than nothing.
pub(crate) fn goes_on_with(
    alloc: Global,
    nets: &Nets,
    set: &TermSet,
    number: u32,
) -> Result<bool, NoMemory>
    requires { Each (IsSoundFor nets.now) set.now }
    ensures { IfOk result (λ there. (label : Label) → label_number nets.now.labels label ≡ Some number → (IsTrue there ↔ GoesOnWith nets.now label set.now)) }
{
    let left = gather(alloc, nets, set, Some(number), 0)?;
    Ok(left.is_none())
}
