//! The reader of a log of any kind in pieces: cuts it into lines and hands out events. log_judge feeds it.

ghost use Rattle.std.specs.Prelude.{◌≡◌, ◌<◌, ◌≤◌, ◌+◌, ◌++◌, ◌∷◌, [], ℕ, List, true, false, not, length, map, All, IsTrue, ◌≢◌, take, slice_index, IfOk, IfErr, OnOk, OnErr, IfSome, MatchOption, ◌↔◌, Option, Some, None, Ok, Err, option_to_list};
ghost use Rattle.event_log.specs.Faults.{IsLogFault};
ghost use Rattle.event_log.specs.RuledLogs.{HoldsEvent};
ghost use Rattle.msc_base.specs.Only.{Never, Only};
ghost use Rattle.event_log.specs.Memories.{IsNumberIn};
ghost use Rattle.event_log.specs.RuledStates.{IsGoing, HoldsAt, Fed, IsAnswer, fault_in, Takes, Refuses, TakesLine, RefusesLine, Grows, IsTooLong, counted, whole, with_met, next_line};
ghost use Rattle.event_log.specs.declared.event.LogForm.{LogForm};
ghost use Rattle.event_log.specs.declared.line.Line.{Line};
ghost use Rattle.label_table.specs.Labels.{label_number};
ghost use Rattle.msc_base.specs.declared.label.Label.{Label};
ghost use Rattle.msc_base.specs.declared.limits.TheConstants.Limits.{LINE_BYTES, LOG_BYTES, LOG_EVENTS};

use crate::line::Line;
use crate::line_memory::{LineMemory, NumberedLine};
use crate::log_events::LogEvents;
use crate::meaning::LineMeaning;
use crate::{LogFault, LogForm, Numbering, Version};
use memchr::memchr;
use msc_base::{Limits, NoMemory};
use std::alloc::Global;
use std::collections::VecDeque;
use std::marker::Model;

/// Reads a log of a kind that it is fed in pieces, and numbers its events' labels: the label of a line that is known is looked up no
/// more.
#[derive(Drop)]
pub struct LineReader<M: LineMeaning, N: Numbering> {
    alloc: Global,
    /// What lines say, in a log of this form and version.
    memory: LineMemory<M, N>,
    /// The number of the line that is being read.
    number: u64,
    /// How many bytes have been taken.
    count: u64,
    /// How many events have been read.
    read: u64,
    /// What of the events decides which may follow.
    met: M::Met,
    /// The bytes of the line so far.
    line: Vec<u8>,
    /// The events that haven't been handed out.
    waiting: VecDeque<M::Entry>,
    fault: Option<LogFault>,
    finished: bool,
}

/// The reader of a log of one run.
pub type LogReader<N> = LineReader<LogEvents, N>;

impl<M: LineMeaning, N: Numbering> Model for LineReader<M, N> {
    ghost use Rattle.std.specs.Prelude.{◌≤◌, ◌+◌, All, length, map};
    ghost use Rattle.event_log.specs.RuledStates.{ReaderState};
    ghost use Rattle.msc_base.specs.declared.limits.TheConstants.Limits.{LINE_BYTES, LOG_BYTES};

    ghost Value = { ReaderState M.Event M.Met };

    ghost view = { λ r. record {
      form = r.memory.form;
      version = r.memory.version;
      labels = r.memory.labels;
      number = r.number;
      count = r.count;
      read = r.read;
      met = r.met;
      line = r.line.items;
      waiting = map M.event_of r.waiting.items;
      fault = r.fault;
      finished = r.finished;
    } };

    ghost invariant = { λ r. (r.count ≤ LOG_BYTES) × (length r.line.items ≤ LINE_BYTES) × (r.number + length r.line.items ≤ r.count + 1) × All (M.is_numbered r.memory.labels r.met) r.waiting.items };
}

/// Appends the entry. After want of memory the entries are as they were.
fn push<M: LineMeaning>(waiting: &mut VecDeque<M::Entry>, entry: M::Entry) -> Result<(), NoMemory>
    ensures ok { OnOk result (map M.event_of waiting.new.items ≡ map M.event_of waiting.old.items ++ M.event_of entry ∷ []) }
    ensures err { OnErr result (map M.event_of waiting.new.items ≡ map M.event_of waiting.old.items) }
    ensures numbers { (labels : List Label) (met : M.Met) → All (M.is_numbered labels met) waiting.old.items → M.is_numbered labels met entry
        → All (M.is_numbered labels met) waiting.new.items }
{
    waiting.push_back(entry)?;
    Ok(())
}

/// Appends the entry of the event in this line, if there is room for it. After a fault the entries are as they were.
fn add_entry<M: LineMeaning>(
    alloc: Global,
    met: &mut M::Met,
    waiting: &mut VecDeque<M::Entry>,
    event: M::Said,
    number: Option<u32>,
    line: u64,
) -> Result<bool, NoMemory>
    ensures added { IfOk result (λ added. IsTrue added → (map M.event_of waiting.new.items ≡ map M.event_of waiting.old.items ++ M.rules.event_at event line ∷ [])
        × (met.new ≡ M.rules.with_event met.old event) × M.rules.has_room met.old event) }
    ensures full { IfOk result (λ added. added ≡ false → (map M.event_of waiting.new.items ≡ map M.event_of waiting.old.items)
        × (M.rules.has_room met.old event → ⊥)) }
    ensures err { OnErr result (map M.event_of waiting.new.items ≡ map M.event_of waiting.old.items) }
    ensures numbers { (labels : List Label) → All (M.is_numbered labels met.old) waiting.old.items → number ≡ label_number labels (M.rules.label_of event)
        → All (M.is_numbered labels met.new) waiting.new.items }
{
    match M::entry(alloc, met, event, number, line)? {
        Some(entry) => {
            push::<M>(waiting, entry)?;
            Ok(true)
        }
        None => Ok(false),
    }
}

/// Where the first line feed stands.
fn line_feed(bytes: &[u8]) -> Option<usize>
    ensures { MatchOption result (All (λ b. b ≢ 10) bytes.now) (λ end. (end < length bytes.now)
        × All (λ b. b ≢ 10) (take end bytes.now) × (slice_index bytes.now end ≡ 10)) }
{
    memchr(b'\n', bytes)
}

/// Appends the bytes. After want of memory the bytes are as they were.
fn add_bytes(line: &mut Vec<u8>, prefix: &[u8]) -> Result<(), NoMemory>
    ensures ok { OnOk result (line.new.items ≡ line.old.items ++ prefix.now) }
    ensures err { OnErr result (line.new.items ≡ line.old.items) }
{
    line.extend_from_slice(prefix)?;
    Ok(())
}

impl<M: LineMeaning, N: Numbering + Drop> LineReader<M, N> {
    /// A reader of a log of this form, to which nothing has been fed, with numbers for its events' labels.
    pub fn new(alloc: Global, form: LogForm, numbering: N) -> Result<LineReader<M, N>, NoMemory>
        ensures labels { IfOk result (λ reader. reader.labels ≡ N.labels numbering) }
        ensures fed { IfOk result (λ reader. Fed M.rules form [] 0 reader) }
        ensures open { IfOk result (λ reader. reader.finished ≡ false) }
        ensures fault { IfOk result (λ reader. reader.fault ≡ None) }
    {
        let line = Vec::with_capacity(alloc, Limits::LINE_BYTES as usize)?;
        Ok(LineReader {
            alloc,
            memory: LineMemory::new(alloc, form, numbering),
            number: 1,
            count: 0,
            read: 0,
            met: M::nothing_met(alloc),
            line,
            waiting: VecDeque::new(alloc),
            fault: None,
            finished: false,
        })
    }

    /// Goes on to the next line.
    fn pass_line(&mut self)
        requires { self.old.number ≤ self.old.count }
        ensures { self.new ≡ next_line self.old self.old.version self.old.read self.old.met self.old.waiting }
    {
        self.line.clear();
        self.number += 1;
    }

    /// Keeps the event and goes on to the next line. After a fault no more has changed than what has been met.
    fn keep(&mut self, event: M::Said, number: Option<u32>) -> Result<(), LogFault>
        requires behind { self.old.number ≤ self.old.count }
        requires number { number ≡ label_number self.old.labels (M.rules.label_of event) }
        ensures ok { OnOk result (Takes M.rules self.old (Line.Event event) self.new) }
        ensures err { OnErr result (self.new ≡ with_met self.old self.new.met) }
        ensures fault { IfErr result (λ fault. IsLogFault fault → Refuses M.rules self.old (Line.Event event) fault) }
    {
        if self.read >= Limits::LOG_EVENTS {
            return Err(LogFault::LogLimit(self.number));
        }
        let line = self.number;
        let added = add_entry::<M>(
            self.alloc,
            &mut self.met,
            &mut self.waiting,
            event,
            number,
            line,
        )?;
        if !added {
            return Err(LogFault::TooManySessions(line));
        }
        self.read += 1;
        self.line.clear();
        self.number += 1;
        Ok(())
    }

    /// Takes a line that says this. After a fault no more has changed than what has been met.
    fn take_line(&mut self, line: NumberedLine<M::Said>) -> Result<(), LogFault>
        requires behind { self.old.number ≤ self.old.count }
        requires number { IsNumberIn M.rules self.old.labels line.says line.number }
        ensures ok { OnOk result (Takes M.rules self.old line.says self.new) }
        ensures err { OnErr result (self.new ≡ with_met self.old self.new.met) }
        ensures fault { IfErr result (λ fault. IsLogFault fault → Refuses M.rules self.old line.says fault) }
    {
        let NumberedLine { says, number } = line;
        match says {
            Line::Blank => {
                self.pass_line();
                Ok(())
            }
            Line::VersionLine(Some(version)) => {
                self.memory.set_version(version);
                self.pass_line();
                Ok(())
            }
            Line::VersionLine(None) => Err(LogFault::Version(self.number)),
            Line::Event(event) => self.keep(event, number),
            Line::NoEvent => Err(LogFault::Syntax(self.number)),
        }
    }

    /// Reads the bytes of the line so far as a whole line. After a fault no more has changed than what has been met.
    fn read_pending(&mut self) -> Result<(), LogFault>
        requires { self.old.number ≤ self.old.count }
        ensures ok { OnOk result (TakesLine M.rules self.old self.new) }
        ensures err { OnErr result (self.new ≡ with_met self.old self.new.met) }
        ensures fault { IfErr result (λ fault. IsLogFault fault → RefusesLine M.rules self.old fault) }
    {
        let bytes = self.line.as_slice();
        let line = self.memory.read(self.alloc, self.number, bytes)?;
        self.take_line(line)
    }

    /// Takes bytes of the line. After a fault no more than the count of bytes has changed.
    fn append(&mut self, prefix: &[u8]) -> Result<(), LogFault>
        requires { self.old.count + length prefix.now ≤ LOG_BYTES }
        ensures ok { OnOk result (Grows self.old prefix.now self.new) }
        ensures err { OnErr result (self.new ≡ self.old) }
        ensures fault { IfErr result (λ fault. IsLogFault fault → IsTooLong self.old prefix.now fault) }
    {
        let room = Limits::LINE_BYTES as usize - self.line.len();
        if prefix.len() > room {
            return Err(LogFault::LongLine(self.number));
        }
        add_bytes(&mut self.line, prefix)?;
        self.count += prefix.len() as u64;
        Ok(())
    }

    /// Takes the end of the line, and reads the line.
    fn end_line(&mut self) -> Result<(), LogFault>
        requires { self.old.count < LOG_BYTES }
        ensures ok { OnOk result (TakesLine M.rules (counted self.old) self.new) }
        ensures err { OnErr result (self.new ≡ with_met (counted self.old) self.new.met) }
        ensures fault { IfErr result (λ fault. IsLogFault fault → RefusesLine M.rules (counted self.old) fault) }
    {
        self.count += 1;
        self.read_pending()
    }

    /// Takes and reads a line with its end, of which nothing has been taken before. After a fault no more than the count of bytes has
    /// changed.
    fn read_whole(&mut self, line: &[u8]) -> Result<(), LogFault>
        requires none { self.old.line ≡ [] }
        requires room { self.old.count + length line.now < LOG_BYTES }
        requires short { length line.now ≤ LINE_BYTES }
        ensures ok { OnOk result (TakesLine M.rules (whole self.old line.now) self.new) }
        ensures err { OnErr result (self.new ≡ record self.old { met = self.new.met; count = self.old.count + length line.now + 1 }) }
        ensures fault { IfErr result (λ fault. IsLogFault fault → RefusesLine M.rules (whole self.old line.now) fault) }
    {
        self.count += line.len() as u64 + 1;
        let line = self.memory.read(self.alloc, self.number, line)?;
        self.take_line(line)
    }

    /// Takes a line with its end, of which nothing has been taken before: it isn't copied.
    fn take_whole(&mut self, line: &[u8]) -> Result<(), LogFault>
        requires none { self.old.line ≡ [] }
        requires free { All (λ b. b ≢ 10) line.now }
        requires room { self.old.count + length line.now < LOG_BYTES }
        ensures ok { (form : LogForm) (b : List ℕ) (n : ℕ) → IsGoing M.rules form b n self.old
            → OnOk result (IsGoing M.rules form (b ++ (line.now ++ 10 ∷ [])) n self.new) }
        ensures err { (form : LogForm) (b : List ℕ) (n : ℕ) (more : List ℕ) → IsGoing M.rules form b n self.old
            → IfErr result (λ fault. HoldsAt M.rules (Some fault) false form (b ++ (line.now ++ 10 ∷ more)) n self.new) }
        ensures count { OnOk result (self.new.count ≡ self.old.count + length line.now + 1) }
        ensures fault { self.new.fault ≡ self.old.fault }
        ensures finished { self.new.finished ≡ self.old.finished }
        ensures labels { self.new.labels ≡ self.old.labels }
    {
        if line.len() > Limits::LINE_BYTES as usize {
            return Err(LogFault::LongLine(self.number));
        }
        self.read_whole(line)
    }

    /// Takes a line with its end.
    fn take_ended(&mut self, prefix: &[u8]) -> Result<(), LogFault>
        requires free { All (λ b. b ≢ 10) prefix.now }
        requires room { self.old.count + length prefix.now < LOG_BYTES }
        ensures ok { (form : LogForm) (b : List ℕ) (n : ℕ) → IsGoing M.rules form b n self.old
            → OnOk result (IsGoing M.rules form (b ++ (prefix.now ++ 10 ∷ [])) n self.new) }
        ensures err { (form : LogForm) (b : List ℕ) (n : ℕ) (more : List ℕ) → IsGoing M.rules form b n self.old
            → IfErr result (λ fault. HoldsAt M.rules (Some fault) false form (b ++ (prefix.now ++ 10 ∷ more)) n self.new) }
        ensures count { OnOk result (self.new.count ≡ self.old.count + length prefix.now + 1) }
        ensures fault { self.new.fault ≡ self.old.fault }
        ensures finished { self.new.finished ≡ self.old.finished }
        ensures labels { self.new.labels ≡ self.old.labels }
    {
        if self.line.is_empty() {
            return self.take_whole(prefix);
        }
        self.append(prefix)?;
        self.end_line()
    }

    /// Takes bytes that a log has room for.
    fn feed_within(&mut self, piece: &[u8]) -> Result<(), LogFault>
        requires { self.old.count + length piece.now ≤ LOG_BYTES }
        ensures ok { (form : LogForm) (b : List ℕ) (n : ℕ) → IsGoing M.rules form b n self.old
            → OnOk result (IsGoing M.rules form (b ++ piece.now) n self.new) }
        ensures err { (form : LogForm) (b : List ℕ) (n : ℕ) → IsGoing M.rules form b n self.old
            → IfErr result (λ fault. HoldsAt M.rules (Some fault) false form (b ++ piece.now) n self.new) }
        ensures count { OnOk result (self.new.count ≡ self.old.count + length piece.now) }
        ensures fault { self.new.fault ≡ self.old.fault }
        ensures finished { self.new.finished ≡ self.old.finished }
        ensures labels { self.new.labels ≡ self.old.labels }
    {
        let mut rest = piece;
        while let Some(end) = line_feed(rest) {
            let (prefix, behind) = rest.split_at(end);
            self.take_ended(prefix)?;
            let (_, after) = behind.split_at(1);
            rest = after;
        }
        self.append(rest)
    }

    /// Takes bytes, up to the limit of a log.
    fn feed_all(&mut self, piece: &[u8]) -> Result<(), LogFault>
        ensures ok { (form : LogForm) (b : List ℕ) (n : ℕ) → IsGoing M.rules form b n self.old
            → OnOk result (IsGoing M.rules form (b ++ piece.now) n self.new) }
        ensures err { (form : LogForm) (b : List ℕ) (n : ℕ) → IsGoing M.rules form b n self.old
            → IfErr result (λ fault. HoldsAt M.rules (Some fault) false form (b ++ piece.now) n self.new) }
        ensures fault { self.new.fault ≡ self.old.fault }
        ensures finished { self.new.finished ≡ self.old.finished }
        ensures labels { self.new.labels ≡ self.old.labels }
    {
        let room = (Limits::LOG_BYTES - self.count) as usize;
        if piece.len() <= room {
            return self.feed_within(piece);
        }
        let (prefix, _) = piece.split_at(room);
        self.feed_within(prefix)?;
        Err(LogFault::LogLimit(self.number))
    }

    /// Takes the next bytes of the log. It fails exactly where a fault is decided within the bytes fed so far, whatever follows, or for
    /// want of memory, and from then on always with the same fault.
    pub fn feed(&mut self, piece: &[u8]) -> Result<(), LogFault>
        requires { self.old.finished ≡ false }
        ensures fed { (form : LogForm) (b : List ℕ) (n : ℕ) → Fed M.rules form b n self.old → Fed M.rules form (b ++ piece.now) n self.new }
        ensures open { self.new.finished ≡ false }
        ensures labels { self.new.labels ≡ self.old.labels }
        ensures fault { fault_in result ≡ self.new.fault }
        ensures again { IfSome self.old.fault (λ fault. (result ≡ Err fault) × (self.new ≡ self.old)) }
        ensures decided { (form : LogForm) (b : List ℕ) (n : ℕ) → Fed M.rules form b n self.old
            → IsAnswer M.rules form true (b ++ piece.now) (fault_in result) }
        ensures lasts { (form : LogForm) (b : List ℕ) (n : ℕ) → Fed M.rules form b n self.old
            → (more : List ℕ) → OnErr result (IsAnswer M.rules form false ((b ++ piece.now) ++ more) (fault_in result)) }
        ensures stays { (form : LogForm) (b : List ℕ) (n : ℕ) (event : M.Event) → HoldsEvent M.rules form true b n event → HoldsEvent M.rules form true (b ++ piece.now) n event }
    {
        if let Some(fault) = self.fault {
            return Err(fault);
        }
        match self.feed_all(piece) {
            Ok(()) => Ok(()),
            Err(fault) => {
                self.fault = Some(fault);
                Err(fault)
            }
        }
    }

    /// Whether `finish` has been called.
    pub fn finished(&self) -> bool
        ensures { result ≡ self.now.finished }
    {
        self.finished
    }

    /// Reads the last line, where it lacks its end.
    fn end_text(&mut self) -> Result<(), LogFault>
        ensures ok { (form : LogForm) (b : List ℕ) (n : ℕ) → IsGoing M.rules form b n self.old
            → OnOk result (HoldsAt M.rules None true form b n self.new) }
        ensures err { (form : LogForm) (b : List ℕ) (n : ℕ) → IsGoing M.rules form b n self.old
            → IfErr result (λ fault. HoldsAt M.rules (Some fault) true form b n self.new) }
        ensures labels { self.new.labels ≡ self.old.labels }
    {
        if self.line.is_empty() {
            return Ok(());
        }
        self.read_pending()
    }

    /// The fault of the whole log, or that which came before.
    fn whole_fault(&mut self) -> Option<LogFault>
        requires { self.old.finished ≡ false }
        ensures holds { (form : LogForm) (b : List ℕ) (n : ℕ) → Fed M.rules form b n self.old → HoldsAt M.rules result true form b n self.new }
        ensures again { IfSome self.old.fault (λ fault. result ≡ Some fault) }
        ensures labels { self.new.labels ≡ self.old.labels }
    {
        if let Some(fault) = self.fault {
            return Some(fault);
        }
        match self.end_text() {
            Ok(()) => None,
            Err(fault) => Some(fault),
        }
    }

    /// Ends the log.
    fn end(&mut self)
        requires { self.old.finished ≡ false }
        ensures fed { (form : LogForm) (b : List ℕ) (n : ℕ) → Fed M.rules form b n self.old → Fed M.rules form b n self.new }
        ensures finished { self.new.finished ≡ true }
        ensures labels { self.new.labels ≡ self.old.labels }
        ensures again { IfSome self.old.fault (λ fault. self.new.fault ≡ Some fault) }
    {
        let fault = self.whole_fault();
        self.fault = fault;
        self.finished = true;
    }

    /// The fault as an answer.
    fn answer(&self) -> Result<(), LogFault>
        ensures { fault_in result ≡ self.now.fault }
    {
        match self.fault {
            Some(fault) => Err(fault),
            None => Ok(()),
        }
    }

    /// Ends the log. It fails exactly where the whole log has a fault, or for want of memory, and from then on always with the same fault.
    pub fn finish(&mut self) -> Result<(), LogFault>
        ensures fed { (form : LogForm) (b : List ℕ) (n : ℕ) → Fed M.rules form b n self.old → Fed M.rules form b n self.new }
        ensures finished { self.new.finished ≡ true }
        ensures labels { self.new.labels ≡ self.old.labels }
        ensures fault { fault_in result ≡ self.new.fault }
        ensures again { IfSome self.old.fault (λ fault. self.new.fault ≡ Some fault) }
        ensures unchanged { self.old.finished ≡ true → self.new ≡ self.old }
        ensures decided { (form : LogForm) (b : List ℕ) (n : ℕ) → Fed M.rules form b n self.old
            → IsAnswer M.rules form false b (fault_in result) }
        ensures stays { (form : LogForm) (b : List ℕ) (n : ℕ) (event : M.Event) → HoldsEvent M.rules form true b n event → HoldsEvent M.rules form false b n event }
    {
        if self.finished {
            return self.answer();
        }
        self.end();
        self.answer()
    }

    /// Hands out the next event, with the number of its label. There is none exactly where the bytes so far hold no further whole event
    /// before the first fault; after want of memory there may be fewer.
    pub fn next_event(&mut self) -> Option<M::Entry>
        ensures fed { (form : LogForm) (b : List ℕ) (n : ℕ) → Fed M.rules form b n self.old
            → MatchOption result (Fed M.rules form b n self.new) (λ _. Fed M.rules form b (n + 1) self.new) }
        ensures event { (form : LogForm) (b : List ℕ) (n : ℕ) → Fed M.rules form b n self.old
            → IfSome result (λ next. Only (HoldsEvent M.rules form (not self.old.finished) b n) (M.event_of next)) }
        ensures number { IfSome result (λ next. M.is_numbered self.old.labels self.old.met next) }
        ensures none { (form : LogForm) (b : List ℕ) (n : ℕ) → Fed M.rules form b n self.old → result ≡ None
            → self.old.fault ≢ Some LogFault.NoMemory → Never (HoldsEvent M.rules form (not self.old.finished) b n) }
        ensures fault { self.new.fault ≡ self.old.fault }
        ensures finished { self.new.finished ≡ self.old.finished }
        ensures labels { self.new.labels ≡ self.old.labels }
        ensures last { result ≡ None → self.new ≡ self.old }
        ensures waiting { self.old.waiting ≡ map M.event_of (option_to_list result) ++ self.new.waiting }
    {
        self.waiting.pop_front()
    }
}
