//! How an entry of the shelf is started and read piece by piece, and why one was not read.

ghost use Rattle.std.specs.Prelude.{◌≡◌, ◌<◌, ◌≤◌, ◌++◌, ℕ, List, [], length, IsErrOf, IsTrue, IfOk, OnOk, Some, true};
ghost use Rattle.outside.specs.Causes.{Rose};
ghost use Rattle.outside.specs.Shelves.{Opens};
ghost use Rattle.entry_reading.specs.Reading.{HasRead};
ghost use Rattle.entry_reading.specs.declared.entry.ReadFault.TheVariants.{NoMemory};

use msc_base::{NoMemory, Text};
use outside::{Failed, Shelf};
use std::alloc::{AllocError, Global};

/// How many bytes a read asks for at most.
pub const PIECE_BYTES: usize = 65_536;

/// Why an entry wasn't read.
#[derive(Clone, Copy, Debug, PartialEq, Eq)]
pub enum ReadFault {
    /// The shelf failed.
    Failed,
    /// Memory was wanting.
    NoMemory,
}

impl From<AllocError> for ReadFault {
    ghost from_gives = { λ _ e. e ≡ NoMemory };

    fn from(_: AllocError) -> Self {
        ReadFault::NoMemory
    }
}

impl From<NoMemory> for ReadFault {
    ghost from_gives = { λ _ e. e ≡ NoMemory };

    fn from(_: NoMemory) -> Self {
        ReadFault::NoMemory
    }
}

/// Starts the entry of this name. Where memory is wanting nothing is started.
pub fn start_entry<S: Shelf>(alloc: Global, shelf: &mut S, name: &Text) -> Result<(), ReadFault>
    ensures files { S.files shelf.new ≡ S.files shelf.old }
    ensures later { S.faults shelf.old ≤ S.faults shelf.new }
    ensures last { OnOk result (S.last shelf.new ≡ Some name.now) }
    ensures begun { OnOk result (S.begun shelf.new ≡ true) }
    ensures opens { OnOk result (Opens (S.files shelf.old) name.now (S.rest shelf.new)) }
    ensures failed { IsErrOf result ReadFault.Failed → Rose (S.faults shelf.old) (S.faults shelf.new) }
    ensures broken { IsErrOf result ReadFault.Failed → S.broken shelf.new ≡ true }
    ensures named { IsErrOf result ReadFault.Failed → S.last shelf.new ≡ Some name.now }
{
    let given = name.copy(alloc)?;
    match shelf.start(given) {
        Ok(()) => Ok(()),
        Err(Failed) => Err(ReadFault::Failed),
    }
}

/// Reads the next piece of the entry that was started, into the buffer. It has no byte only at the entry's end.
pub fn read_piece<'b, S: Shelf>(shelf: &mut S, buf: &'b mut [u8]) -> Result<&'b [u8], ReadFault>
    requires begun { IsTrue (S.begun shelf.old) }
    requires room { 0 < length buf.old }

    ensures files { S.files shelf.new ≡ S.files shelf.old }
    ensures begun { S.begun shelf.new ≡ S.begun shelf.old }
    ensures last { S.last shelf.new ≡ S.last shelf.old }
    ensures later { S.faults shelf.old ≤ S.faults shelf.new }
    ensures few { IfOk result (λ piece. length piece.now ≤ length buf.old) }
    ensures more { (name bytes : List ℕ) → HasRead (S.files shelf.old) name (S.rest shelf.old) bytes
        → IfOk result (λ piece. HasRead (S.files shelf.new) name (S.rest shelf.new) (bytes ++ piece.now)) }
    ensures end { (name bytes : List ℕ) → HasRead (S.files shelf.old) name (S.rest shelf.old) bytes
        → IfOk result (λ piece. length piece.now ≡ 0 → HasRead (S.files shelf.new) name (Some []) bytes) }
    ensures failed { IsErrOf result ReadFault.Failed → Rose (S.faults shelf.old) (S.faults shelf.new) }
    ensures broken { IsErrOf result ReadFault.Failed → S.broken shelf.new ≡ true }
{
    let count = match shelf.read(&mut *buf) {
        Ok(count) => count,
        Err(Failed) => return Err(ReadFault::Failed),
    };
    let (piece, _) = buf.split_at(count);
    Ok(piece)
}
