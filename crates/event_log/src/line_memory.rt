//! Reads lines, and remembers what they say: for `reader`. A line that is known costs one look-up.

ghost use Rattle.std.specs.Prelude.{◌≡◌, ◌<◌, ◌≤◌, ◌+◌, ◌^◌, IfOk, IfSome, IsTrue, length};
ghost use Rattle.event_log.specs.Meanings.{LineSays};
ghost use Rattle.event_log.specs.Memories.{SaysBehind, IsNumberIn, line_bytes};
ghost use Rattle.event_log.specs.declared.event.Version.TheVariants.{First};
ghost use Rattle.event_log.specs.declared.line_memory.TheConstants.{MOST_LINES, MOST_BYTES};

use crate::line::{Line, copy_line, read_line};
use crate::meaning::LineMeaning;
use crate::{LogForm, Numbering, Version};
use code_slots::CodeSlots;
use msc_base::NoMemory;
use std::alloc::Global;
use std::hash::{FoldHasher, Hasher};
use std::marker::Model;

/// The most lines that are remembered.
const MOST_LINES: usize = 65_536;

/// The most bytes of the lines that are remembered.
const MOST_BYTES: usize = 8_388_608;

/// What a line says, with the number of the label of its event.
#[derive(Drop)]
pub struct NumberedLine<S> {
    pub says: Line<S>,
    /// None where the label has none, and where the line is no event.
    pub number: Option<u32>,
}

/// The same once more.
fn copy_numbered<M: LineMeaning>(
    line: &NumberedLine<M::Said>,
) -> Result<NumberedLine<M::Said>, NoMemory>
    ensures { IfOk result (λ other. other ≡ line.now) }
{
    Ok(NumberedLine {
        says: copy_line::<M>(&line.says)?,
        number: line.number,
    })
}

/// A line that is remembered, with what it says.
#[derive(Drop)]
pub struct KnownLine<S> {
    bytes: Vec<u8>,
    meaning: NumberedLine<S>,
}

/// The line with what it says.
fn known_line<M: LineMeaning>(
    alloc: Global,
    bytes: &[u8],
    meaning: &NumberedLine<M::Said>,
) -> Result<KnownLine<M::Said>, NoMemory>
    ensures bytes { IfOk result (λ line. line.bytes.items ≡ bytes.now) }
    ensures meaning { IfOk result (λ line. line.meaning ≡ meaning.now) }
{
    let bytes = Vec::from_slice(alloc, bytes)?;
    let meaning = copy_numbered::<M>(meaning)?;
    Ok(KnownLine { bytes, meaning })
}

/// Lines of a log of one form and version, with what each says wherever it stands behind the first, and the number of its label.
///
/// A contract sees the form, the version and the labels that have numbers, since a line says the same whether it is known or not.
#[derive(Drop)]
pub struct LineMemory<M: LineMeaning, N: Numbering> {
    numbering: N,
    form: LogForm,
    version: Version,
    /// In the order in which they came.
    known: Vec<KnownLine<M::Said>>,
    /// Where a line stands, if it is known. A look-up follows it to one line at most, so that no log makes look-ups slow.
    slots: CodeSlots,
    /// The known lines have no more bytes than this.
    bytes: usize,
    /// How many lines weren't remembered since a line was known.
    unknown: usize,
}

impl<M: LineMeaning, N: Numbering> Model for LineMemory<M, N> {
    ghost use Rattle.std.specs.Prelude.{◌≤◌, length};
    ghost use Rattle.event_log.specs.Memories.{LineSort, AreKnown, line_bytes};
    ghost use Rattle.event_log.specs.declared.line_memory.TheConstants.{MOST_LINES, MOST_BYTES};

    ghost Value = { LineSort };

    ghost view = { λ m. record { form = m.form; version = m.version; labels = N.labels m.numbering } };

    ghost invariant = { λ m. AreKnown M.rules (N.labels m.numbering) m.form m.version m.known.items × (length m.known.items ≤ MOST_LINES) × (line_bytes m.known.items ≤ m.bytes) × (m.bytes ≤ MOST_BYTES) };
}

/// The code of a line: equal lines have the same, and others mostly different ones.
fn code_of(bytes: &[u8]) -> u32 {
    let mut hasher = FoldHasher::default();
    hasher.write(bytes);
    (hasher.finish() >> 32) as u32
}

/// Whether there is room for one line more, of this length.
fn has_room(lines: usize, bytes: usize, length: usize) -> bool
    requires { bytes ≤ MOST_BYTES }
    ensures { IsTrue result → (lines < MOST_LINES) × (bytes + length ≤ MOST_BYTES) }
{
    lines < MOST_LINES && length <= MOST_BYTES - bytes
}

impl<M: LineMeaning, N: Numbering + Drop> LineMemory<M, N> {
    /// For a log of this form that has stated no version yet. It takes no memory.
    pub fn new(alloc: Global, form: LogForm, numbering: N) -> LineMemory<M, N>
        ensures { result ≡ record { form = form; version = First; labels = N.labels numbering } }
    {
        LineMemory {
            numbering,
            form,
            version: Version::First,
            known: Vec::new(alloc),
            slots: CodeSlots::new(alloc),
            bytes: 0,
            unknown: 0,
        }
    }

    /// Goes over to this version. All lines are forgotten.
    pub fn set_version(&mut self, version: Version)
        ensures { self.new ≡ record self.old { version = version } }
    {
        self.known.clear();
        self.slots.clear();
        self.bytes = 0;
        self.unknown = 0;
        self.version = version;
    }

    /// Whether the line of this number is looked up, and remembered where it isn't known. The first isn't, as it may state a version;
    /// and none is behind as many that weren't remembered, with no known one among them, as the full table has.
    fn looks_up(&self, number: u64) -> bool
        ensures { IsTrue result → 1 < number }
    {
        number > 1 && self.unknown < MOST_LINES
    }

    /// What the line with this code says behind the first, if it is known.
    fn find(&self, code: u32, bytes: &[u8]) -> Option<&NumberedLine<M::Said>>
        ensures says { IfSome result (λ line. SaysBehind M.rules self.now.form self.now.version bytes.now line.now.says) }
        ensures number { IfSome result (λ line. IsNumberIn M.rules self.now.labels line.now.says line.now.number) }
    {
        let index = self.slots.guess(code)?;
        let line = self.known.get(index as usize)?;
        if line.bytes.as_slice() == bytes {
            Some(&line.meaning)
        } else {
            None
        }
    }

    /// The number of the label of a line's event.
    fn number_of(&self, says: &Line<M::Said>) -> Option<u32>
        ensures { IsNumberIn M.rules self.now.labels says.now result }
    {
        match says {
            Line::Event(event) => self.numbering.number_of(M::label_of(event)),
            Line::Blank | Line::VersionLine(_) | Line::NoEvent => None,
        }
    }

    /// What the line of this number says, which isn't known.
    fn read_anew(
        &self,
        alloc: Global,
        number: u64,
        bytes: &[u8],
    ) -> Result<NumberedLine<M::Said>, NoMemory>
        requires { length bytes.now < 2 ^ 63 }
        ensures says { IfOk result (λ line. LineSays M.rules self.now.form self.now.version number bytes.now line.says) }
        ensures number { IfOk result (λ line. IsNumberIn M.rules self.now.labels line.says line.number) }
    {
        let says = read_line::<M>(alloc, self.form, self.version, number, bytes)?;
        let number = self.number_of(&says);
        Ok(NumberedLine { says, number })
    }

    /// Remembers what the line with this code says, if there is room, a slot and memory.
    fn remember(
        &mut self,
        alloc: Global,
        code: u32,
        bytes: &[u8],
        line: &NumberedLine<M::Said>,
    ) -> Option<()>
        requires says { SaysBehind M.rules self.old.form self.old.version bytes.now line.now.says }
        requires number { IsNumberIn M.rules self.old.labels line.now.says line.now.number }
        ensures { self.new ≡ self.old }
    {
        if !has_room(self.known.len(), self.bytes, bytes.len()) {
            return None;
        }
        let count = self.known.len();
        let index = count as u32;
        self.slots.make_room(alloc, count).ok()?;
        let slot = self.slots.free_slot(code)?;
        let line = known_line::<M>(alloc, bytes, line).ok()?;
        self.known.push(line).ok()?;
        self.slots.fill(slot, code, index);
        self.bytes += bytes.len();
        Some(())
    }

    /// What the line of this number says.
    pub fn read(
        &mut self,
        alloc: Global,
        number: u64,
        bytes: &[u8],
    ) -> Result<NumberedLine<M::Said>, NoMemory>
        requires { length bytes.now < 2 ^ 63 }
        ensures says { IfOk result (λ line. LineSays M.rules self.old.form self.old.version number bytes.now line.says) }
        ensures number { IfOk result (λ line. IsNumberIn M.rules self.old.labels line.says line.number) }
        ensures same { self.new ≡ self.old }
    {
        if !self.looks_up(number) {
            return self.read_anew(alloc, number, bytes);
        }
        let code = code_of(bytes);
        if let Some(line) = self.find(code, bytes) {
            let known = copy_numbered::<M>(line)?;
            self.unknown = 0;
            return Ok(known);
        }
        let line = self.read_anew(alloc, number, bytes)?;
        if self.remember(alloc, code, bytes, &line).is_none() {
            self.unknown = self.unknown.saturating_add(1);
        }
        Ok(line)
    }
}
