//! Reads a document from the shelf, up to its end or the limit: for all commands but `sample`.

ghost use Rattle.std.specs.Prelude.{◌≡◌, ◌≤◌, ◌+◌, IfOk, OnOk, IsErrOf, IsTrue, Some, [], true};
ghost use Rattle.outside.specs.Causes.{Rose};
ghost use Rattle.msc_base.specs.declared.limits.TheConstants.Limits.{DOCUMENT_BYTES};
ghost use Rattle.msc_cmd.specs.Intakes.{IsReading, HoldsDocument, IsDocumentOf, IsTextOf};

use crate::document::{Document, settle};
use crate::document_text::{DocumentText, text_of};
use crate::intake::Intake;
use entry_reading::{PIECE_BYTES, ReadFault, read_piece, start_entry};
use msc_base::{Limits, NoMemory, Text};
use msc_document::{documents_are_exact, graphs_are_formed};
use outside::Shelf;
use std::alloc::Global;

/// Reads once, and takes what came. 0 is the end of the entry.
fn take_more<S: Shelf>(shelf: &mut S, name: &Text, intake: &mut Intake) -> Result<usize, ReadFault>
    requires begun { IsTrue (S.begun shelf.old) }
    requires last { S.last shelf.old ≡ Some name.now }
    requires room { intake.old.count ≤ DOCUMENT_BYTES }
    requires reading { IsReading (S.files shelf.old) name.now (S.rest shelf.old) intake.old }

    ensures files { S.files shelf.new ≡ S.files shelf.old }
    ensures begun { S.begun shelf.new ≡ S.begun shelf.old }
    ensures last { S.last shelf.new ≡ S.last shelf.old }
    ensures later { S.faults shelf.old ≤ S.faults shelf.new }
    ensures count { IfOk result (λ n. intake.new.count ≡ intake.old.count + n) }
    ensures reading { OnOk result (IsReading (S.files shelf.new) name.now (S.rest shelf.new) intake.new) }
    ensures end { IfOk result (λ n. n ≡ 0 → IsReading (S.files shelf.new) name.now (Some []) intake.new) }
    ensures failed { IsErrOf result ReadFault.Failed → Rose (S.faults shelf.old) (S.faults shelf.new) }
    ensures broken { IsErrOf result ReadFault.Failed → S.broken shelf.new ≡ true }
{
    let mut buf = [0u8; PIECE_BYTES];
    let piece = read_piece(shelf, &mut buf)?;
    intake.take(piece)?;
    Ok(piece.len())
}

#[tactic(auto, using(crate::proofs::Taking::holds_end, crate::proofs::Taking::holds_over))]
/// Reads a document to its end, or behind the limit.
fn read_document<S: Shelf>(alloc: Global, shelf: &mut S, name: &Text) -> Result<Intake, ReadFault>
    ensures files { S.files shelf.new ≡ S.files shelf.old }
    ensures later { S.faults shelf.old ≤ S.faults shelf.new }
    ensures holds { IfOk result (HoldsDocument (S.files shelf.old) name.now) }
    ensures failed { IsErrOf result ReadFault.Failed → Rose (S.faults shelf.old) (S.faults shelf.new) }
    ensures broken { IsErrOf result ReadFault.Failed → S.broken shelf.new ≡ true }
    ensures last { IsErrOf result ReadFault.Failed → S.last shelf.new ≡ Some name.now }
{
    start_entry(alloc, shelf, name)?;
    let mut intake = Intake::new(alloc)?;
    while intake.count <= Limits::DOCUMENT_BYTES {
        let count = take_more(shelf, name, &mut intake)?;
        if count == 0 {
            return Ok(intake);
        }
    }
    Ok(intake)
}

/// What the document of this name is as a text.
#[tactic(auto, using(crate::proofs::TextFaults::taken_text))]
pub fn take_text<S: Shelf>(
    alloc: Global,
    shelf: &mut S,
    name: &Text,
) -> Result<DocumentText, ReadFault>
    ensures files { S.files shelf.new ≡ S.files shelf.old }
    ensures later { S.faults shelf.old ≤ S.faults shelf.new }
    ensures text { IfOk result (IsTextOf (S.files shelf.old) name.now) }
    ensures failed { IsErrOf result ReadFault.Failed → Rose (S.faults shelf.old) (S.faults shelf.new) }
    ensures broken { IsErrOf result ReadFault.Failed → S.broken shelf.new ≡ true }
    ensures last { IsErrOf result ReadFault.Failed → S.last shelf.new ≡ Some name.now }
{
    let intake = read_document(alloc, shelf, name)?;
    match text_of(alloc, intake) {
        Ok(text) => Ok(text),
        Err(NoMemory) => Err(ReadFault::NoMemory),
    }
}

/// What the document of this name is.
#[tactic(auto, using(crate::proofs::Settling::document_of))]
pub fn take_document<S: Shelf>(
    alloc: Global,
    shelf: &mut S,
    name: &Text,
) -> Result<Document, ReadFault>
    ensures files { S.files shelf.new ≡ S.files shelf.old }
    ensures later { S.faults shelf.old ≤ S.faults shelf.new }
    ensures document { IfOk result (IsDocumentOf (S.files shelf.old) name.now) }
    ensures failed { IsErrOf result ReadFault.Failed → Rose (S.faults shelf.old) (S.faults shelf.new) }
    ensures broken { IsErrOf result ReadFault.Failed → S.broken shelf.new ≡ true }
    ensures last { IsErrOf result ReadFault.Failed → S.last shelf.new ≡ Some name.now }
{
    documents_are_exact();
    graphs_are_formed();
    let text = take_text(alloc, shelf, name)?;
    match settle(alloc, text) {
        Ok(document) => Ok(document),
        Err(NoMemory) => Err(ReadFault::NoMemory),
    }
}
