//! Which documents are accepted: `accept`. It puts together the rules and the table.

ghost use Rattle.std.specs.Prelude.{◌≡◌, IfOk, IsErrOf};
ghost use Rattle.chart_text.specs.WellFormed.{AreAllWellFormed};
ghost use Rattle.formed_graphs.specs.FormedGraphs.{HaveFormedGraphs};
ghost use Rattle.msc_rules.specs.declared.rule.Rule.{Rule};
ghost use Rattle.msc_meaning.specs.Tables.{Table};
ghost use Rattle.msc_meaning.specs.Views.{table_view};
ghost use Rattle.msc_meaning.specs.WovenTables.{IsTableOf};
ghost use Rattle.msc_instances.specs.Instances.{instances};
ghost use Rattle.msc_tree.specs.Views.{document_view};
ghost use Rattle.msc_acceptance.specs.Acceptance.{HasFault, IsAccepted};
ghost use Rattle.msc_acceptance.specs.AcceptedCharts.{IsAcceptedTable};

use crate::deciding::{Decision, decide};
use crate::{Accepted, DocFault};
use gate_rules::laws::levels_have_gates;
use join_sizes::laws::join_sizes_are_known;
use msc_base::{NoMemory, Place};
use msc_tree::RawDocument;
use std::alloc::Global;
use woven_laws::laws::{built_charts_are_known, woven_charts_are_known};

/// The table of the document's charts, or the first rule that it breaks, and where. The document is one that was read, so that the text of
/// its charts is well formed, and so are their graphs. What a chart was read to is dropped as soon as the chart is woven.
pub fn accept(alloc: Global, raw: RawDocument) -> Result<Accepted, DocFault>
    requires formed { AreAllWellFormed (document_view raw).charts }
    requires graphs { HaveFormedGraphs (document_view raw).charts }
    ensures ok { IfOk result (λ accepted. IsAccepted (document_view raw) (table_view accepted)) }
    ensures only { IfOk result (λ accepted. (other : Table) → IsTableOf instances (document_view raw) other → table_view accepted ≡ other) }
    ensures charts { IfOk result (λ accepted. IsAcceptedTable (table_view accepted)) }
    ensures faultless { IfOk result (λ accepted. (rule : Rule) (place : Place) → HasFault (document_view raw) rule place → ⊥) }
    ensures fault { (rule : Rule) (place : Place) → IsErrOf result (DocFault.Refused rule place) → HasFault (document_view raw) rule place }
    ensures only_fault { (rule : Rule) (place : Place) → IsErrOf result (DocFault.Refused rule place) → (other : Rule) (there : Place) → HasFault (document_view raw) other there → (other ≡ rule) × (there ≡ place) }
    ensures none { (rule : Rule) (place : Place) → IsErrOf result (DocFault.Refused rule place) → (table : Table) → IsAccepted (document_view raw) table → ⊥ }
{
    built_charts_are_known();
    woven_charts_are_known();
    levels_have_gates();
    join_sizes_are_known();
    match decide(alloc, raw.charts) {
        Ok(Decision::Accepted(accepted)) => Ok(accepted),
        Ok(Decision::Faulty(fault)) => Err(DocFault::Refused {
            rule: fault.rule,
            place: fault.place,
        }),
        Err(NoMemory) => Err(DocFault::NoMemory),
    }
}
