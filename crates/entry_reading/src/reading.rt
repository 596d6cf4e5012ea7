//! Reads an entry to its end, or to the piece that is refused.

ghost use Rattle.std.specs.Prelude.{◌≡◌, ◌≤◌, [], ℕ, List, IfOk, IsErrOf, IsTrue, MatchOption, Some, true};
ghost use Rattle.outside.specs.Causes.{Rose};
ghost use Rattle.entry_reading.specs.Consuming.{HasTakenEntry, IsReading, IsRefusedEntry, IsStep};

use crate::Consumer;
use crate::entry::{PIECE_BYTES, ReadFault, read_piece, start_entry};
use msc_base::Text;
use outside::Shelf;
use std::alloc::Global;

/// What came of one read.
#[derive(Drop)]
pub enum Step<R> {
    /// A piece that was taken, and more may follow.
    More,
    /// The end of the entry.
    End,
    /// A piece with which the entry is refused.
    Refused(R),
}

/// Reads once, and hands on what came.
fn take_more<S: Shelf, C: Consumer>(
    shelf: &mut S,
    name: &Text,
    consumer: &mut C,
) -> Result<Step<C::Refusal>, ReadFault>
    requires begun { IsTrue (S.begun shelf.old) }

    ensures files { S.files shelf.new ≡ S.files shelf.old }
    ensures begun { S.begun shelf.new ≡ S.begun shelf.old }
    ensures last { S.last shelf.new ≡ S.last shelf.old }
    ensures later { S.faults shelf.old ≤ S.faults shelf.new }
    ensures step { (setting : C.Setting) → IsReading (C.has_taken setting) (S.files shelf.old) name.now (S.rest shelf.old) consumer.old
        → IfOk result (IsStep (C.has_taken setting) (C.refuses setting) (S.files shelf.new) name.now (S.rest shelf.new) C.most (C.count consumer.old) (C.count consumer.new) consumer.new) }
    ensures failed { IsErrOf result ReadFault.Failed → Rose (S.faults shelf.old) (S.faults shelf.new) }
    ensures broken { IsErrOf result ReadFault.Failed → S.broken shelf.new ≡ true }
{
    let mut buf = [0u8; PIECE_BYTES];
    let piece = read_piece(shelf, &mut buf)?;
    if piece.is_empty() {
        return Ok(Step::End);
    }
    match consumer.take(piece)? {
        None => Ok(Step::More),
        Some(refusal) => Ok(Step::Refused(refusal)),
    }
}

/// Reads the entry of this name to its end, or to the piece with which it is refused, and hands each piece on.
pub fn read_entry<S: Shelf, C: Consumer>(
    alloc: Global,
    shelf: &mut S,
    name: &Text,
    consumer: &mut C,
) -> Result<Option<C::Refusal>, ReadFault>
    requires made { (setting : C.Setting) × C.has_taken setting [] consumer.old }

    ensures files { S.files shelf.new ≡ S.files shelf.old }
    ensures later { S.faults shelf.old ≤ S.faults shelf.new }
    ensures taken { (setting : C.Setting) → C.has_taken setting [] consumer.old
        → IfOk result (λ found. MatchOption found (HasTakenEntry (C.has_taken setting) (S.files shelf.old) name.now consumer.new) (IsRefusedEntry (C.refuses setting) (S.files shelf.old) name.now)) }
    ensures failed { IsErrOf result ReadFault.Failed → Rose (S.faults shelf.old) (S.faults shelf.new) }
    ensures broken { IsErrOf result ReadFault.Failed → S.broken shelf.new ≡ true }
    ensures last { IsErrOf result ReadFault.Failed → S.last shelf.new ≡ Some name.now }
{
    start_entry(alloc, shelf, name)?;
    loop {
        match take_more(shelf, name, consumer)? {
            Step::More => {}
            Step::End => return Ok(None),
            Step::Refused(refusal) => return Ok(Some(refusal)),
        }
    }
}
