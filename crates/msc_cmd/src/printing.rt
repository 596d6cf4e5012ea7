//! The command `print`, which ends before the rules on charts: for `command` alone.

ghost use Rattle.std.specs.Prelude.{◌≡◌, ◌<◌, ◌≤◌, IfOk, false};
ghost use Rattle.msc_cmd.specs.Failures.{CannotOpen};
ghost use Rattle.msc_cmd.specs.Outcomes.{IfTold, IsTheOne, PrintOutcome};

use crate::answer::{Reply, make_reply};
use crate::document_text::DocumentText;
use crate::reading::take_text;
use entry_reading::ReadFault;
use judge_report::Fault;
use msc_base::{NoMemory, Text};
use msc_print::print_document;
use outside::Shelf;
use std::alloc::Global;

/// The reply that prints the document of this name in its canonical form.
pub fn print_file<S: Shelf>(
    alloc: Global,
    document: &Text,
    shelf: &mut S,
) -> Result<Reply, NoMemory>
    ensures small { IfOk result (λ r. r.status ≤ 7) }
    ensures not_two { IfOk result (λ r. r.status ≡ 2 → ⊥) }
    ensures outcome { IfOk result (λ r. r.status < 7 → IfTold (S.files shelf.old) (λ f. IsTheOne (PrintOutcome f document.now) r.status r.text)) }
    ensures failed { IfOk result (λ r. r.status ≡ 7 → CannotOpen false (S.faults shelf.old) (S.faults shelf.new) (S.broken shelf.new) (S.last shelf.new) document.now r.text) }
{
    let read = match take_text(alloc, shelf, document) {
        Ok(read) => read,
        Err(ReadFault::Failed) => return make_reply(alloc, 7, &Fault::DocumentRead, false),
        Err(ReadFault::NoMemory) => return Err(NoMemory),
    };
    match read {
        DocumentText::Read(document) => {
            let text = print_document(alloc, &document)?;
            Ok(Reply { status: 0, text })
        }
        DocumentText::Refused(rule, place) => {
            make_reply(alloc, 4, &Fault::Document { rule, place }, false)
        }
    }
}
