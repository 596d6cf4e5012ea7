//! A document that is opened for an answer: its charts, or the reply in their place. For the commands that ask for charts.

ghost use Rattle.std.specs.Prelude.{◌≡◌, ◌≤◌, IfOk};
ghost use Rattle.msc_cmd.specs.Openings.{IsOpened};

use crate::answer::{Reply, make_reply};
use crate::document::Document;
use crate::reading::take_document;
use entry_reading::ReadFault;
use judge_report::Fault;
use msc_acceptance::Accepted;
use msc_base::{NoMemory, Text};
use outside::Shelf;
use std::alloc::Global;

/// What came of opening a document.
#[derive(Drop)]
pub enum Opened {
    /// Its charts.
    Accepted(Accepted),
    /// The reply that refuses it, or says that it can't be read.
    Told(Reply),
}

/// The charts of the document of this name, or the reply in their place.
pub fn open_document<S: Shelf>(
    alloc: Global,
    document: &Text,
    json: bool,
    shelf: &mut S,
) -> Result<Opened, NoMemory>
    ensures files { S.files shelf.new ≡ S.files shelf.old }
    ensures later { S.faults shelf.old ≤ S.faults shelf.new }
    ensures opened { IfOk result (IsOpened json (S.files shelf.old) (S.faults shelf.old) (S.faults shelf.new) (S.broken shelf.new) (S.last shelf.new) document.now) }
{
    let reply = match take_document(alloc, shelf, document) {
        Ok(Document::Charts(accepted)) => return Ok(Opened::Accepted(accepted)),
        Ok(Document::Refused(rule, place)) => {
            make_reply(alloc, 4, &Fault::Document { rule, place }, json)?
        }
        Err(ReadFault::Failed) => make_reply(alloc, 7, &Fault::DocumentRead, json)?,
        Err(ReadFault::NoMemory) => return Err(NoMemory),
    };
    Ok(Opened::Told(reply))
}
