//! A sink whose room and failing writes are told beforehand: for tests and rows, which print nothing.

ghost use Rattle.std.specs.Prelude.{◌≡◌, ◌≤◌, ◌<◌, ◌++◌, ℕ, length, take, Some, vec_len, vec_capacity};

use crate::calls::{fails_next, next_number};
use crate::{Failed, Sink};
use msc_base::NoMemory;
use std::alloc::Global;

/// A sink in memory, of fixed room, which can be told to fail.
///
/// Its writes are numbered from 1; the count stands still at 2^64 - 1.
#[derive(Drop)]
pub struct MemSink {
    bytes: Vec<u8>,
    failing: Vec<u64>,
    calls: u64,
    faults: u64,
    room: usize,
    ghost fits: { vec_len bytes ≤ room },
    ghost holds: { room ≤ vec_capacity bytes },
}

impl Sink for MemSink {
    ghost use Rattle.std.specs.Prelude.{◌≡◌, ◌≤◌, ◌<◌, ◌↔◌, List, ℕ, length, take, min, Some, IfOk, OnErr, IsErr};
    ghost use Rattle.std.specs.Io.KnownBytes.{Appends, Keeps};
    ghost use Rattle.outside.specs.Calls.{next_call};
    ghost use Rattle.outside.specs.Causes.{HasCause};
    ghost use Rattle.outside.specs.MemorySinks.{writes_of, failing_writes_of, room_of, left_of, Refuses};

    ghost written = { λ s. Some s.bytes.items };

    ghost faults = { λ s. s.faults };

    /// Takes as much of the piece as the room still holds, and takes no memory.
    ///
    /// It fails exactly where the number of this write was given to `fail_at`, or where the piece
    /// isn't empty and no room is left.
    fn write(&mut self, piece: &[u8]) -> Result<usize, Failed>
        ensures bound { IfOk result (λ n. n ≤ length piece.now) }
        ensures takes { IfOk result (λ n. 0 < length piece.now → 0 < n) }
        ensures bytes { IfOk result (λ n. Appends (⟦<MemSink as Sink>⟧.written self.old) (⟦<MemSink as Sink>⟧.written self.new)
            (take n piece.now)) }
        ensures kept { OnErr result
            (Keeps (⟦<MemSink as Sink>⟧.written self.old) (⟦<MemSink as Sink>⟧.written self.new)) }
        ensures cause { HasCause
            (⟦<MemSink as Sink>⟧.faults self.old) (⟦<MemSink as Sink>⟧.faults self.new) result }
        ensures fails { IsErr result ↔ Refuses self.old piece.now }
        ensures gives { IfOk result (λ n. n ≡ min (left_of self.old) (length piece.now)) }
        ensures writes { writes_of self.new ≡ next_call (writes_of self.old) }
        ensures failing { failing_writes_of self.new ≡ failing_writes_of self.old }
        ensures room { room_of self.new ≡ room_of self.old }
    {
        let refused = self.refuses(piece);
        self.calls = next_number(self.calls);
        if refused {
            self.faults = self.faults.saturating_add(1);
            return Err(Failed);
        }
        let count = self.left().min(piece.len());
        let (prefix, _) = piece.split_at(count);
        if self.bytes.extend_from_slice(prefix).is_err() {
            unreachable!("the room is reserved");
        }
        Ok(count)
    }
}

impl MemSink {
    ghost use Rattle.std.specs.Prelude.{◌≡◌, ◌++◌, ◌∷◌, ◌↔◌, [], Some, IsTrue, IfOk, OnOk, OnErr};
    ghost use Rattle.outside.specs.MemorySinks.{writes_of, failing_writes_of, room_of, left_of, Refuses, OnlyFailingDiffers};

    /// A sink that takes so many bytes in all. It reserves them.
    pub fn new(alloc: Global, room: usize) -> Result<MemSink, NoMemory>
        ensures empty { IfOk result (λ s. ⟦<MemSink as Sink>⟧.written s ≡ Some []) }
        ensures faults { IfOk result (λ s. ⟦<MemSink as Sink>⟧.faults s ≡ 0) }
        ensures writes { IfOk result (λ s. writes_of s ≡ 0) }
        ensures failing { IfOk result (λ s. failing_writes_of s ≡ []) }
        ensures room { IfOk result (λ s. room_of s ≡ room) }
    {
        Ok(MemSink {
            bytes: Vec::with_capacity(alloc, room)?,
            failing: Vec::new(alloc),
            calls: 0,
            faults: 0,
            room,
        })
    }

    /// Makes the write of that number fail, besides those that were told before.
    pub fn fail_at(&mut self, call: u64) -> Result<(), NoMemory>
        ensures ok { OnOk result (failing_writes_of self.new ≡ failing_writes_of self.old ++ call ∷ []) }
        ensures err { OnErr result (failing_writes_of self.new ≡ failing_writes_of self.old) }
        ensures others { OnlyFailingDiffers self.old self.new }
    {
        self.failing.push(call)?;
        Ok(())
    }

    /// The bytes that were written.
    pub fn bytes(&self) -> &[u8]
        ensures { Some result.now ≡ ⟦<MemSink as Sink>⟧.written self.now }
    {
        &self.bytes
    }

    /// How many bytes the sink still takes.
    fn left(&self) -> usize
        ensures { result ≡ left_of self.now }
    {
        self.room - self.bytes.len()
    }

    /// Whether a write of this piece would fail now.
    fn refuses(&self, piece: &[u8]) -> bool
        ensures { IsTrue result ↔ Refuses self.now piece.now }
    {
        fails_next(&self.failing, self.calls) || (!piece.is_empty() && self.left() == 0)
    }
}
