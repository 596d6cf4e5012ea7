//! Whether anything is left of a term after an event with a label.

ghost use Rattle.std.specs.Prelude.{◌≡◌, ◌↔◌, Some, IfOk, IsTrue};
ghost use Rattle.chart_term.specs.Terms.{Tree};
ghost use Rattle.msc_base.specs.declared.label.Label.{Label as LabelValue};
ghost use Rattle.term_permission.specs.Ready.{IsReady, AreReadyTables};
ghost use Rattle.term_successors.specs.Successors.{IsSuccessor};
ghost use Rattle.term_tables.specs.NetValues.{label_number};

use crate::found::Found;
use crate::search::search;
use chart_term::Term;
use msc_base::NoMemory;
use std::alloc::Global;
use term_tables::Nets;

/// Whether an event with the label that has this number in the tables leaves anything of the term. The search ends at the first that it
/// finds.
pub fn has_after(alloc: Global, nets: &Nets, term: &Term, number: u32) -> Result<bool, NoMemory>
    requires tables { AreReadyTables nets.now.tables }
    requires term { IsReady nets.now.tables term.now }
    ensures { IfOk result (λ there. (label : LabelValue) → label_number nets.now.labels label ≡ Some number
        → (IsTrue there ↔ ((left : Tree) × IsSuccessor nets.now label term.now left))) }
{
    let mut found = Found::new(alloc, 0);
    let all = search(alloc, nets, number, term, false, &mut found)?;
    Ok(!all)
}
