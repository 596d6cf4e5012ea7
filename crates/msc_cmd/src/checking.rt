//! The command `check`: for `command` alone.

ghost use Rattle.std.specs.Prelude.{◌≡◌, ◌<◌, ◌≤◌, IfOk};
ghost use Rattle.msc_cmd.specs.Failures.{CannotOpen};
ghost use Rattle.msc_cmd.specs.Outcomes.{CheckAnswer, DocumentOutcome, IfTold, IsTheOne};

use crate::answer::Reply;
use crate::opening::{Opened, open_document};
use judge_report::accepted_text;
use msc_base::{NoMemory, Text};
use outside::Shelf;
use std::alloc::Global;

/// The reply that tells how many charts the document of this name has, or refuses it.
pub fn check_file<S: Shelf>(
    alloc: Global,
    document: &Text,
    json: bool,
    shelf: &mut S,
) -> Result<Reply, NoMemory>
    ensures small { IfOk result (λ r. r.status ≤ 7) }
    ensures not_two { IfOk result (λ r. r.status ≡ 2 → ⊥) }
    ensures outcome { IfOk result (λ r. r.status < 7 → IfTold (S.files shelf.old) (λ f. IsTheOne (DocumentOutcome json f document.now (CheckAnswer json)) r.status r.text)) }
    ensures failed { IfOk result (λ r. r.status ≡ 7 → CannotOpen json (S.faults shelf.old) (S.faults shelf.new) (S.broken shelf.new) (S.last shelf.new) document.now r.text) }
{
    match open_document(alloc, document, json, shelf)? {
        Opened::Accepted(accepted) => {
            let text = accepted_text(alloc, accepted.charts(), json)?;
            Ok(Reply { status: 0, text })
        }
        Opened::Told(reply) => Ok(reply),
    }
}
