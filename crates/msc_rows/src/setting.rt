//! What a row runs on, and what comes out.
ghost use Rattle.std.specs.Prelude.{◌≡◌, ◌≤◌, OnOk};
ghost use Rattle.outside.specs.MemoryShelves.{calls_of};

use msc_base::{Items, NoMemory, Text, Words};
use msc_cmd::run;
use outside::{MemShelf, MemSink};
use std::alloc::Global;

/// Calls of a shelf, by their numbers from 1 on.
#[derive(Clone, Copy)]
pub struct Calls {
    pub first: u64,
    pub last: u64,
}

/// What a row runs on.
#[derive(Drop)]
pub struct Setting {
    /// The words of the command.
    pub words: Words,
    /// What the shelf holds as `d`.
    pub document: Option<Text>,
    /// What the shelf holds as `l`.
    pub log: Option<Text>,
    /// How many bytes a read gives at most, for each run; 0 counts as 1.
    pub pieces: Vec<usize>,
    /// The calls of the shelf of which one fails in each run; no call has the number 0.
    pub failing: Calls,
    /// How many bytes the sink takes.
    pub room: usize,
    /// The write that fails.
    pub failing_write: Option<u64>,
}

/// What a run writes, and its status.
#[derive(Drop)]
pub struct Outcome {
    pub status: u8,
    pub text: Text,
}

impl Outcome {
    /// Whether two outcomes are the same.
    pub fn same(&self, other: &Outcome) -> bool {
        self.status == other.status && self.text.same(&other.text)
    }
}

impl Setting {
    /// No words, an empty shelf that gives 4,096 bytes a read, and a sink of 10,000 bytes, where nothing fails.
    pub fn new(alloc: Global) -> Result<Setting, NoMemory> {
        Ok(Setting {
            words: Items::new(alloc),
            document: None,
            log: None,
            pieces: vec![in alloc; 4_096]?,
            failing: Calls { first: 0, last: 0 },
            room: 10_000,
            failing_write: None,
        })
    }

    /// The shelf.
    fn shelf(&self, alloc: Global, piece: usize) -> Result<MemShelf, NoMemory> {
        let mut shelf = MemShelf::new(alloc)?;
        put(alloc, &mut shelf, "d", &self.document)?;
        put(alloc, &mut shelf, "l", &self.log)?;
        shelf.pieces_of(piece.max(1));
        Ok(shelf)
    }

    /// What comes out of a run with pieces of this size, where this call of the shelf fails.
    fn outcome(&self, alloc: Global, piece: usize, call: u64) -> Result<Outcome, NoMemory> {
        let mut shelf = self.shelf(alloc, piece)?;
        shelf.fail_at(call)?;
        let mut out = MemSink::new(alloc, self.room)?;
        if let Some(write) = self.failing_write {
            out.fail_at(write)?;
        }
        let status = run(alloc, &self.words, &mut shelf, &mut out);
        let text = Text::from_bytes(alloc, out.bytes())?;
        Ok(Outcome { status, text })
    }

    /// The first outcome of the runs that differs from what is wanted, if one does; and how many runs there were.
    pub fn other_than(
        &self,
        alloc: Global,
        want: &Outcome,
    ) -> Result<(Option<Outcome>, u64), NoMemory> {
        let mut runs = 0_u64;
        for piece in &self.pieces {
            for call in self.failing.first..=self.failing.last {
                let got = self.outcome(alloc, *piece, call)?;
                runs = runs.saturating_add(1);
                if !got.same(want) {
                    return Ok((Some(got), runs));
                }
            }
        }
        Ok((None, runs))
    }
}

/// Puts the bytes on the shelf, where there are any.
fn put(
    alloc: Global,
    shelf: &mut MemShelf,
    name: &str,
    bytes: &Option<Text>,
) -> Result<(), NoMemory>
    requires { calls_of shelf.old ≡ 0 }
    ensures { OnOk result (calls_of shelf.new ≡ 0) }
{
    if let Some(bytes) = bytes {
        let name = Text::from_bytes(alloc, name.as_bytes())?;
        shelf.put(&name, bytes.bytes())?;
    }
    Ok(())
}
