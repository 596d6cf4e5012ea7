//! What a document comes to, and the chart of a name: for the commands, behind `document_text`.

ghost use Rattle.std.specs.Prelude.{◌≡◌, IfOk, List, None, false, option_copied, option_map, true, ℕ};
ghost use Rattle.chart_text.specs.WellFormed.{AreAllWellFormed};
ghost use Rattle.formed_graphs.specs.FormedGraphs.{HaveFormedGraphs};
ghost use Rattle.msc_meaning.specs.Tables.{chart_at};
ghost use Rattle.msc_meaning.specs.Views.{entry_view, table_view};
ghost use Rattle.msc_tree.specs.Views.{document_view};
ghost use Rattle.msc_cmd.specs.DocumentTexts.{IsTheText};
ghost use Rattle.msc_cmd.specs.Documents.{ComesTo, HasChartNamed, IsTheDocument};
ghost use Rattle.msc_cmd.specs.Intakes.{IsFormedText};

use crate::document_text::DocumentText;
use msc_acceptance::{Accepted, DocFault, accept};
use msc_base::{NoMemory, Place};
use msc_meaning::ChartEntry;
use msc_rules::Rule;
use msc_tree::RawDocument;
use std::alloc::Global;

/// What the bytes of a document are.
#[derive(Drop)]
pub enum Document {
    /// A document of these charts.
    Charts(Accepted),
    /// The first rule that they break, and where.
    Refused(Rule, Place),
}

/// What a document that has been read comes to.
fn come_to(alloc: Global, document: RawDocument) -> Result<Document, NoMemory>
    requires formed { AreAllWellFormed (document_view document).charts }
    requires graphs { HaveFormedGraphs (document_view document).charts }
    ensures { IfOk result (ComesTo (document_view document)) }
{
    match accept(alloc, document) {
        Ok(accepted) => Ok(Document::Charts(accepted)),
        Err(DocFault::Refused { rule, place }) => Ok(Document::Refused(rule, place)),
        Err(DocFault::NoMemory) => Err(NoMemory),
    }
}

/// What the document of this text is.
pub fn settle(alloc: Global, text: DocumentText) -> Result<Document, NoMemory>
    requires { IsFormedText text }
    ensures { (bytes : List ℕ) → IsTheText bytes text → IfOk result (IsTheDocument bytes) }
{
    match text {
        DocumentText::Read(document) => come_to(alloc, document),
        DocumentText::Refused(broken, place) => Ok(Document::Refused(broken, place)),
    }
}

/// The chart of the name, if there is one.
pub fn chart_of<'a>(accepted: &'a Accepted, name: &[u8]) -> Option<&'a ChartEntry>
    ensures { option_map entry_view (option_copied result) ≡ chart_at (table_view accepted.now) name.now }
{
    accepted.chart_named(name)
}

/// Whether there is a chart of the name.
pub fn has_chart(accepted: &Accepted, name: &[u8]) -> bool
    ensures there { result ≡ true → HasChartNamed (table_view accepted.now) name.now }
    ensures lacks { result ≡ false → chart_at (table_view accepted.now) name.now ≡ None }
{
    match chart_of(accepted, name) {
        Some(_) => true,
        None => false,
    }
}
