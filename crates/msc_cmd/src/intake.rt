//! A document under way: holds its bytes up to the limit, and counts them. For `reading`.

ghost use Rattle.std.specs.Prelude.{◌≤◌, length};
ghost use Rattle.msc_base.specs.declared.limits.TheConstants.Limits.{DOCUMENT_BYTES};

use msc_base::{Limits, NoMemory};
use std::alloc::Global;

/// A document as far as it has been read.
#[derive(Drop)]
pub struct Intake {
    /// The bytes within the limit.
    pub text: Vec<u8>,
    /// How many bytes have been read.
    pub count: u64,
    ghost held: { length text.items ≤ count },
    ghost short: { length text.items ≤ DOCUMENT_BYTES },
}

impl Intake {
    ghost use Rattle.std.specs.Prelude.{◌≡◌, ◌≤◌, ◌+◌, ◌++◌, [], ℕ, List, length, IfOk, OnOk};
    ghost use Rattle.entry_reading.specs.declared.entry.TheConstants.{PIECE_BYTES};
    ghost use Rattle.msc_cmd.specs.Intakes.{HasTaken};

    /// A document of which nothing has been read.
    pub fn new(alloc: Global) -> Result<Intake, NoMemory>
        ensures taken { IfOk result (λ intake. HasTaken [] intake) }
        ensures count { IfOk result (λ intake. intake.count ≡ 0) }
    {
        Ok(Intake {
            text: Vec::new(alloc),
            count: 0,
        })
    }

    /// Takes the next piece.
    pub fn take(&mut self, piece: &[u8]) -> Result<(), NoMemory>
        requires room { self.old.count ≤ DOCUMENT_BYTES }
        requires piece { length piece.now ≤ PIECE_BYTES }
        ensures count { OnOk result (self.new.count ≡ self.old.count + length piece.now) }
        ensures taken { (bytes : List ℕ) → HasTaken bytes self.old → OnOk result (HasTaken (bytes ++ piece.now) self.new) }
    {
        let room = (Limits::DOCUMENT_BYTES - self.count) as usize;
        let (prefix, _) = piece.split_at(room.min(piece.len()));
        self.count += piece.len() as u64;
        self.text.extend_from_slice(prefix)?;
        Ok(())
    }
}
