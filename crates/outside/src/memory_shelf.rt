//! A shelf whose entries and failing calls are told beforehand: for tests and rows, which need no file.

ghost use Rattle.std.specs.Prelude.{◌≡◌, ◌≤◌, ◌+◌, ℕ, List, length, drop, min, max, Some};
ghost use Rattle.outside.specs.Entries.{file_at, left_at};
ghost use Rattle.outside.specs.Shelves.{Moves};

use crate::calls::{fails_next, next_number};
use crate::entry::find;
use crate::{Entry, Failed, Shelf};
use msc_base::{NoMemory, Text};
use std::alloc::Global;

/// A shelf in memory, which can be told to fail.
///
/// The calls of `start` and `read` are numbered together from 1; the count stands still at
/// 2^64 - 1.
#[derive(Drop)]
pub struct MemShelf {
    alloc: Global,
    entries: Vec<Entry>,
    failing: Vec<u64>,
    last: Option<Text>,
    at: usize,
    begun: bool,
    broken: bool,
    faults: u64,
    calls: u64,
    most: usize,
    ghost gives: { 1 ≤ most },
}

impl Shelf for MemShelf {
    ghost use Rattle.std.specs.Prelude.{◌≡◌, ◌≤◌, ◌↔◌, [], ℕ, List, length, min, unwrap_or, Some, IsTrue, IfOk, OnOk, OnErr, IsErr, is_ok, is_err};
    ghost use Rattle.std.specs.Io.KnownBytes.{Keeps};
    ghost use Rattle.outside.specs.Calls.{next_call};
    ghost use Rattle.outside.specs.Causes.{HasCause};
    ghost use Rattle.outside.specs.Entries.{file_at, left_at};
    ghost use Rattle.outside.specs.MemoryShelves.{failing_of, calls_of, most_of, RefusesStart, RefusesRead};
    ghost use Rattle.outside.specs.Shelves.{Opens, MovesKnown};

    ghost files = { λ s. Some (file_at s.entries.items) };

    ghost rest = { λ s. left_at s.entries.items s.last s.at };

    ghost last = { λ s. s.last };

    ghost begun = { λ s. s.begun };

    ghost broken = { λ s. s.broken };

    ghost faults = { λ s. s.faults };

    /// Gives up the entry that was being read, and begins this one. It takes no memory.
    ///
    /// It fails exactly where the number of this call was given to `fail_at`, or where the name
    /// isn't held.
    fn start(&mut self, name: Text) -> Result<(), Failed>
        ensures files { ⟦<MemShelf as Shelf>⟧.files self.new ≡ ⟦<MemShelf as Shelf>⟧.files self.old }
        ensures last { ⟦<MemShelf as Shelf>⟧.last self.new ≡ Some name }
        ensures begun { ⟦<MemShelf as Shelf>⟧.begun self.new ≡ is_ok result }
        ensures broken { ⟦<MemShelf as Shelf>⟧.broken self.new ≡ is_err result }
        ensures rest { OnOk result
            (Opens (⟦<MemShelf as Shelf>⟧.files self.old) name (⟦<MemShelf as Shelf>⟧.rest self.new)) }
        ensures cause { HasCause
            (⟦<MemShelf as Shelf>⟧.faults self.old) (⟦<MemShelf as Shelf>⟧.faults self.new) result }
        ensures fails { IsErr result ↔ RefusesStart self.old name }
        ensures calls { calls_of self.new ≡ next_call (calls_of self.old) }
        ensures failing { failing_of self.new ≡ failing_of self.old }
        ensures most { most_of self.new ≡ most_of self.old }
    {
        let failing = fails_next(&self.failing, self.calls);
        let held = find(&self.entries, &name).is_some();
        self.calls = next_number(self.calls);
        self.last = Some(name);
        self.at = 0;
        self.begun = held && !failing;
        self.broken = !self.begun;
        if self.broken {
            self.faults = self.faults.saturating_add(1);
            return Err(Failed);
        }
        Ok(())
    }

    /// Moves as much as `pieces_of` lets it into the prefix of the buffer. It takes no memory.
    ///
    /// It fails exactly where the number of this call was given to `fail_at`.
    fn read(&mut self, buf: &mut [u8]) -> Result<usize, Failed>
        requires { IsTrue (⟦<MemShelf as Shelf>⟧.begun self.old) }
        ensures files { ⟦<MemShelf as Shelf>⟧.files self.new ≡ ⟦<MemShelf as Shelf>⟧.files self.old }
        ensures last { ⟦<MemShelf as Shelf>⟧.last self.new ≡ ⟦<MemShelf as Shelf>⟧.last self.old }
        ensures begun { ⟦<MemShelf as Shelf>⟧.begun self.new ≡ ⟦<MemShelf as Shelf>⟧.begun self.old }
        ensures broken { ⟦<MemShelf as Shelf>⟧.broken self.new ≡ is_err result }
        ensures bound { IfOk result (λ n. n ≤ length buf.new) }
        ensures bytes { IfOk result (λ n. MovesKnown n (⟦<MemShelf as Shelf>⟧.rest self.old)
            (⟦<MemShelf as Shelf>⟧.rest self.new) buf.old buf.new) }
        ensures kept { OnErr result
            (Keeps (⟦<MemShelf as Shelf>⟧.rest self.old) (⟦<MemShelf as Shelf>⟧.rest self.new)) }
        ensures cause { HasCause
            (⟦<MemShelf as Shelf>⟧.faults self.old) (⟦<MemShelf as Shelf>⟧.faults self.new) result }
        ensures fails { IsErr result ↔ RefusesRead self.old }
        ensures gives { let rest = unwrap_or (⟦<MemShelf as Shelf>⟧.rest self.old) [] in
            IfOk result (λ n. n ≡ min (most_of self.old) (min (length rest) (length buf.new))) }
        ensures calls { calls_of self.new ≡ next_call (calls_of self.old) }
        ensures failing { failing_of self.new ≡ failing_of self.old }
        ensures most { most_of self.new ≡ most_of self.old }
    {
        self.broken = fails_next(&self.failing, self.calls);
        self.calls = next_number(self.calls);
        if self.broken {
            self.faults = self.faults.saturating_add(1);
            return Err(Failed);
        }
        let Some(name) = &self.last else {
            return Ok(0);
        };
        let Some(bytes) = find(&self.entries, name) else {
            return Ok(0);
        };
        let count = move_part(bytes.bytes(), self.at, self.most, buf);
        self.at += count;
        Ok(count)
    }
}

/// Moves at most so many bytes behind a place into the prefix of the buffer.
fn move_part(bytes: &[u8], at: usize, most: usize, buf: &mut [u8]) -> usize
    requires { 1 ≤ most }
    ensures bound { result ≤ length buf.new }
    ensures moves { Moves result (drop at bytes.now) (drop (at + result) bytes.now) buf.old buf.new }
    ensures count { result ≡ min most (min (length (drop at bytes.now)) (length buf.new)) }
    ensures fits { at + result ≤ max at (length bytes.now) }
{
    if at >= bytes.len() {
        return 0;
    }
    let (_, left) = bytes.split_at(at);
    move_front(left, most, buf)
}

/// Moves at most so many bytes into the prefix of the buffer.
#[tactic(auto, using(crate::proofs::Moving::moves_part))]
fn move_front(left: &[u8], most: usize, buf: &mut [u8]) -> usize
    requires { 1 ≤ most }
    ensures bound { result ≤ length buf.new }
    ensures moves { Moves result left.now (drop result left.now) buf.old buf.new }
    ensures count { result ≡ min most (min (length left.now) (length buf.new)) }
{
    let count = left.len().min(most).min(buf.len());
    buf[..count].copy_from_slice(&left[..count]);
    count
}

impl MemShelf {
    ghost use Rattle.std.specs.Prelude.{◌≡◌, ◌≤◌, ◌++◌, ◌∷◌, [], ℕ, List, None, IsOk, IfOk, OnOk, OnErr, false};
    ghost use Rattle.outside.specs.MemoryShelves.{entries_of, failing_of, calls_of, most_of, with_entry, OnlyEntriesDiffer, OnlyFailingDiffers, OnlyMostDiffers};

    /// A shelf that holds no entry, and was told no call that is to fail. Its reads give at most
    /// 4,096 bytes each. It takes no memory, and succeeds.
    pub fn new(alloc: Global) -> Result<MemShelf, NoMemory>
        ensures succeeds { IsOk result }
        ensures empty { IfOk result (λ s. (name : List ℕ) → entries_of s name ≡ None) }
        ensures failing { IfOk result (λ s. failing_of s ≡ []) }
        ensures calls { IfOk result (λ s. calls_of s ≡ 0) }
        ensures most { IfOk result (λ s. most_of s ≡ 4096) }
        ensures last { IfOk result (λ s. ⟦<MemShelf as Shelf>⟧.last s ≡ None) }
        ensures begun { IfOk result (λ s. ⟦<MemShelf as Shelf>⟧.begun s ≡ false) }
        ensures broken { IfOk result (λ s. ⟦<MemShelf as Shelf>⟧.broken s ≡ false) }
        ensures faults { IfOk result (λ s. ⟦<MemShelf as Shelf>⟧.faults s ≡ 0) }
    {
        Ok(MemShelf {
            alloc,
            entries: Vec::new(alloc),
            failing: Vec::new(alloc),
            last: None,
            at: 0,
            begun: false,
            broken: false,
            faults: 0,
            calls: 0,
            most: 4096,
        })
    }

    /// Puts a copy of the bytes in place of what the name held, before the first call of `start` or
    /// `read`.
    pub fn put(&mut self, name: &Text, bytes: &[u8]) -> Result<(), NoMemory>
        requires { calls_of self.old ≡ 0 }
        ensures ok { OnOk result (entries_of self.new
            ≡ with_entry name.now bytes.now (entries_of self.old)) }
        ensures err { OnErr result (entries_of self.new ≡ entries_of self.old) }
        ensures others { OnlyEntriesDiffer self.old self.new }
    {
        let name = name.copy(self.alloc)?;
        let bytes = Text::from_bytes(self.alloc, bytes)?;
        self.entries.insert(0, Entry { name, bytes })?;
        Ok(())
    }

    /// Makes the call of that number fail, besides those that were told before.
    pub fn fail_at(&mut self, call: u64) -> Result<(), NoMemory>
        ensures ok { OnOk result (failing_of self.new ≡ failing_of self.old ++ call ∷ []) }
        ensures err { OnErr result (failing_of self.new ≡ failing_of self.old) }
        ensures others { OnlyFailingDiffers self.old self.new }
    {
        self.failing.push(call)?;
        Ok(())
    }

    /// Sets the largest number of bytes that a read gives.
    pub fn pieces_of(&mut self, most: usize)
        requires { 1 ≤ most }
        ensures most { most_of self.new ≡ most }
        ensures others { OnlyMostDiffers self.old self.new }
    {
        self.most = most;
    }
}
