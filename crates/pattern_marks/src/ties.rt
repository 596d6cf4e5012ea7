//! Whether the pairs of the ties of a pattern go forward.

ghost use Rattle.std.specs.Prelude.{◌≡◌, ◌≤◌, ◌<◌, ◌+◌, ◌++◌, ◌∷◌, ◌↔◌, [], length, slice_get, IfOk, IsTrue, OnOk, Some};
ghost use Rattle.chart_term.specs.Views.{pairs_of};
ghost use Rattle.pattern_marks.specs.HeldMeetings.{AreLinked, DoMetGo, Ends, GoesForward, IsSpan, latest_of, met_one, Precede, put_latest, TakesOn, wider};
ghost use Rattle.pattern_marks.specs.Marks.{pairs_at, sign_of, signs_of};
ghost use Rattle.pattern_marks.specs.Tests.{DoTiesGo};

use crate::mark::Mark;
use chart_term::Look;
use empty_terms::Outline;
use msc_base::{NoMemory, Pair};
use std::alloc::Global;
use std::marker::Model;
use tie_list::TieList;

/// An event that was met.
#[derive(Clone, Copy)]
pub(crate) struct Met {
    /// Its place.
    pub(crate) place: u64,
    /// Its number.
    pub(crate) number: u32,
    /// Which event of its number was met before it: how many events were met when it had been, or 0.
    pub(crate) before: u32,
}

/// Where some events stand.
#[derive(Clone, Copy)]
pub(crate) struct Span {
    /// The least place.
    pub(crate) least: u64,
    /// The greatest.
    pub(crate) greatest: u64,
}

/// How many events there may be: they are counted in 32 bits.
const EVENTS: usize = 4_294_967_295;

/// The events so far, by their numbers.
#[derive(Drop)]
struct Meetings {
    /// The events.
    met: Vec<Met>,
    /// By number: how many events were met when the last of the number had been; 0 where none was.
    latest: Vec<u32>,
    /// For each tie that has begun how many events were met before it, the innermost last.
    begun: Vec<usize>,
}

impl Model for Meetings {
    ghost use Rattle.pattern_marks.specs.HeldMeetings.{HeldMeetings};

    ghost Value = { HeldMeetings };

    ghost view = { λ m. record { met = m.met.items; latest = m.latest.items; begun = m.begun.items } };
}

/// Puts the count of the number in, in a longer list where there are too few.
fn put_count(latest: &mut Vec<u32>, number: u32, count: u32) -> Result<(), NoMemory>
    ensures { OnOk result (latest.new.items ≡ put_latest latest.old.items number count) }
{
    let index = number as usize;
    if index >= latest.len() {
        latest.resize(index + 1, 0)?;
    }
    latest[index] = count;
    Ok(())
}

/// The span with one place more.
fn widened(span: Option<Span>, place: u64) -> Span
    ensures { result ≡ wider span place }
{
    match span {
        Some(other) => Span {
            least: other.least.min(place),
            greatest: other.greatest.max(place),
        },
        None => Span {
            least: place,
            greatest: place,
        },
    }
}

/// Whether all of the first are before all of the second.
#[tactic(auto, using(crate::proofs::Tying::preceding))]
fn precede(first: Option<Span>, second: Option<Span>) -> bool
    ensures { IsTrue result ↔ Precede first second }
{
    match first {
        Some(earlier) => match second {
            Some(later) => earlier.greatest < later.least,
            None => true,
        },
        None => true,
    }
}

impl Meetings {
    /// No events.
    fn new(alloc: Global) -> Meetings
        ensures { result ≡ record { met = []; latest = []; begun = [] } }
    {
        Meetings {
            met: Vec::new(alloc),
            latest: Vec::new(alloc),
            begun: Vec::new(alloc),
        }
    }

    /// How many events were met when the last of the number had been, or 0.
    fn latest(&self, number: u32) -> u32
        ensures { result ≡ latest_of self.now number }
    {
        let index = number as usize;
        if index < self.latest.len() {
            self.latest[index]
        } else {
            0
        }
    }

    /// Meets an event. It fails for want of memory, and where there are 4,294,967,295 events before it.
    fn meet(&mut self, number: u32, place: u64) -> Result<(), NoMemory>
        ensures { OnOk result (self.new ≡ met_one number place self.old) }
    {
        let count = self.met.len();
        if count >= EVENTS {
            return Err(NoMemory);
        }
        let before = self.latest(number);
        self.met.push(Met {
            place,
            number,
            before,
        })?;
        put_count(&mut self.latest, number, count as u32 + 1)
    }

    /// The event at the index.
    fn event(&self, index: u32) -> Met
        requires { index < length self.now.met }
        ensures { slice_get self.now.met index ≡ Some result }
    {
        self.met[index as usize]
    }

    /// Where the events of the number stand that were met behind so many.
    fn span(&self, number: u32, from: usize) -> Option<Span>
        requires { AreLinked self.now }
        ensures { IsSpan self.now.met number from result }
    {
        let mut span = None;
        let mut latest = self.latest(number);
        while latest as usize > from {
            let met = self.event(latest - 1);
            span = Some(widened(span, met.place));
            latest = met.before;
        }
        span
    }

    /// Whether the pair goes forward among the events that were met behind so many.
    fn goes_forward(&self, pair: Pair, from: usize) -> bool
        requires { AreLinked self.now }
        ensures { IsTrue result ↔ GoesForward self.now.met from pair }
    {
        let first = self.span(pair.first, from);
        let second = self.span(pair.second, from);
        precede(first, second)
    }

    /// Whether all pairs do.
    fn go_forward(&self, pairs: &TieList, from: usize) -> bool
        requires { AreLinked self.now }
        ensures { IsTrue result ↔ DoMetGo (pairs_of pairs.now) from self.now.met }
    {
        for index in 0..pairs.len() {
            if !self.goes_forward(pairs.at(index), from) {
                return false;
            }
        }
        true
    }

    /// Whether the pairs of the tie that the term of this number is do.
    #[tactic(auto, using(crate::proofs::Tying::tie_past))]
    fn tie_goes(&self, outline: &Outline, number: usize, from: usize) -> bool
        requires { AreLinked self.now }
        ensures { IsTrue result ↔ DoMetGo (pairs_at (slice_get outline.now.terms number)) from self.now.met }
    {
        if number >= outline.terms.len() {
            return true;
        }
        match outline.term(number).look() {
            Look::Tied(_, pairs) => self.go_forward(pairs, from),
            Look::Nil => true,
            Look::Event { .. } => true,
            Look::Seq(_) => true,
            Look::Par(_) => true,
            Look::Choice(_) => true,
            Look::Loop { .. } => true,
            Look::Walk { .. } => true,
        }
    }

    /// What is below a tie begins.
    fn begin(&mut self) -> Result<(), NoMemory>
        ensures { OnOk result (self.new ≡ record self.old { begun = self.old.begun ++ length self.old.met ∷ [] }) }
    {
        self.begun.push(self.met.len())?;
        Ok(())
    }

    /// What is below a tie ends: how many events were met before it.
    fn end(&mut self) -> Option<usize>
        ensures { Ends result self.old self.new }
    {
        self.begun.pop()
    }

    /// Takes the next mark, if it can stand there.
    #[tactic(auto, using(crate::proofs::Holding::takes_on))]
    fn take(&mut self, outline: &Outline, mark: Mark) -> Result<bool, NoMemory>
        requires { AreLinked self.old }
        ensures { IfOk result (λ goes. TakesOn goes (sign_of outline.now.terms mark) self.old self.new) }
    {
        match mark {
            Mark::Event { event, place } => {
                self.meet(event.number, place)?;
                Ok(true)
            }
            Mark::OpenTie => {
                self.begin()?;
                Ok(true)
            }
            Mark::CloseTie(number) => match self.end() {
                Some(from) => Ok(self.tie_goes(outline, number, from)),
                None => Ok(false),
            },
            Mark::Open | Mark::Next | Mark::Close => Ok(true),
        }
    }
}

/// Whether the pairs of each tie go forward.
pub(crate) fn are_tied(alloc: Global, outline: &Outline, marks: &[Mark]) -> Result<bool, NoMemory>
    ensures { IfOk result (λ tied. IsTrue tied ↔ DoTiesGo [] [] (signs_of outline.now.terms marks.now)) }
{
    let mut meetings = Meetings::new(alloc);
    for mark in marks {
        if !meetings.take(outline, *mark)? {
            return Ok(false);
        }
    }
    Ok(true)
}
