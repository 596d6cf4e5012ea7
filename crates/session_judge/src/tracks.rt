//! The sessions of a log, each with the track of its events: for `taking` and `sessions`.

ghost use Rattle.std.specs.Prelude.{◌≡◌, ◌≤◌, ◌<◌, ◌+◌, ◌++◌, ◌∷◌, ◌↔◌, [], ℕ, List, length, slice_get, IfOk, OnOk, IsTrue, MatchOption, Some};
ghost use Rattle.msc_base.specs.Lists.{IsAmong};
ghost use Rattle.msc_base.specs.Stored.{most_stored};
ghost use Rattle.msc_base.specs.declared.limits.TheConstants.Limits.{BUDGET_MOST};
ghost use Rattle.session_judge.specs.SessionVerdicts.{AreVerdicts};
ghost use Rattle.session_judge.specs.States.{AreMade};
ghost use Rattle.session_judge.specs.Steps.{Begins, TakesAt};
ghost use Rattle.session_judge.specs.Tracks.{EachServes, HaveAtMost, HaveTaken, StaysMade, keys_in};
ghost use Rattle.session_log.specs.declared.keyed.KeyedEvent.{KeyedEvent as Keyed};
ghost use Rattle.term_tables.specs.NetValues.{label_number};
ghost use Rattle.trace_judge.specs.Sets.{IsSoundFor};
ghost use Rattle.trace_judge.specs.Steps.{IsNumber};

use crate::SessionVerdictList;
use crate::session::Session;
use chart_term::Term;
use msc_base::NoMemory;
use session_log::{KeyedNumberedEvent, SharedName};
use std::alloc::Global;
use std::marker::Model;
use std::rc::Rc;
use term_tables::Nets;
use trace_judge::Store;

/// The sessions of a log in the order of their first lines, judged by one term over one table.
#[derive(Drop)]
pub struct SessionTracks<S: Store> {
    alloc: Global,
    nets: Rc<Nets>,
    term: Term,
    budget: u64,
    sessions: Vec<Session<S>>,
}

impl<S: Store> Model for SessionTracks<S> {
    ghost use Rattle.std.specs.Coded.{codes};
    ghost use Rattle.chart_term.specs.Codes.{coded_tree};
    ghost use Rattle.session_judge.specs.Tracks.{TracksValue, AreKept};

    ghost Value = { TracksValue S };

    ghost coded = { Prim.hlevel (codes, coded_tree) };

    ghost view = { λ t. record { nets = t.nets.value; term = t.term; budget = t.budget; sessions = t.sessions.items } };

    ghost invariant = { λ t. AreKept S.serves t.nets.value t.term t.budget t.sessions.items };
}

/// Lets the session at this place take its next event. After want of memory the sessions are as they were.
fn take_at<S: Store + Drop>(
    sessions: &mut Vec<Session<S>>,
    place: usize,
    nets: &Nets,
    number: Option<u32>,
    line: u64,
) -> Result<(), NoMemory>
    requires there { place < length sessions.old.items }
    requires serves { EachServes S.serves nets.now sessions.old.items }
    requires number { IsNumber nets.now number }
    requires room { (n : ℕ) × (n < most_stored) × HaveAtMost n sessions.old.items }
    ensures serves { EachServes S.serves nets.now sessions.new.items }
    ensures taken { OnOk result (TakesAt S.holds nets.now place number line sessions.old.items sessions.new.items) }
{
    sessions[place].take(nets, number, line)
}

impl<S: Store + Drop> SessionTracks<S> {
    /// No sessions yet, to be judged by this term. It takes no memory.
    pub fn new(alloc: Global, nets: Rc<Nets>, term: Term, budget: u64) -> SessionTracks<S>
        requires sound { IsSoundFor nets.value term }
        requires least { 1 ≤ budget }
        requires most { budget ≤ BUDGET_MOST }
        ensures made { AreMade nets.value term budget result }
        ensures none { result.sessions ≡ [] }
        ensures taken { HaveTaken S.holds [] result }
    {
        SessionTracks {
            alloc,
            nets,
            term,
            budget,
            sessions: Vec::new(alloc),
        }
    }

    /// Whether the session at this place has this key.
    fn is_at(&self, place: usize, key: &[u8]) -> bool
        ensures { IsTrue result ↔ (slice_get (keys_in self.now.sessions) place ≡ Some key.now) }
    {
        match self.sessions.get(place) {
            Some(session) => session.has_key(key),
            None => false,
        }
    }

    /// The place of the session with this key, if it has begun. It is looked for at `number` first, where a session that has begun
    /// stands; so all are looked at only where another begins.
    fn place_of(&self, number: usize, key: &[u8]) -> Option<usize>
        ensures { MatchOption result (IsAmong (keys_in self.now.sessions) key.now → ⊥) (λ place. slice_get (keys_in self.now.sessions) place ≡ Some key.now) }
    {
        if self.is_at(number, key) {
            return Some(number);
        }
        for place in 0..self.sessions.len() {
            if self.is_at(place, key) {
                return Some(place);
            }
        }
        None
    }

    /// Begins a session with its first event. After want of memory there is none more.
    fn begin(&mut self, key: SharedName, number: Option<u32>, line: u64) -> Result<(), NoMemory>
        requires { IsNumber self.old.nets number }
        ensures made { StaysMade self.old self.new }
        ensures begun { OnOk result (Begins S.holds self.old.nets self.old.term self.old.budget key number line self.old.sessions self.new.sessions) }
    {
        let term = self.term.copy(self.alloc)?;
        let mut session = Session::new(self.alloc, &self.nets, term, self.budget, key)?;
        session.take(&self.nets, number, line)?;
        self.sessions.push(session)?;
        Ok(())
    }

    /// Takes the next event of the log: into the track of its session, and into no other.
    pub fn take(&mut self, event: KeyedNumberedEvent) -> Result<(), NoMemory>
        requires room { (n : ℕ) × (n < most_stored) × HaveAtMost n self.old.sessions }
        requires number { event.number ≡ label_number self.old.nets.labels event.event.label }
        ensures made { StaysMade self.old self.new }
        ensures few { (n : ℕ) → HaveAtMost n self.old.sessions → OnOk result (HaveAtMost (n + 1) self.new.sessions) }
        ensures taken { (events : List Keyed) → HaveTaken S.holds events self.old → OnOk result (HaveTaken S.holds (events ++ event.event ∷ []) self.new) }
    {
        let KeyedNumberedEvent {
            event,
            session,
            number,
        } = event;
        match self.place_of(session, event.key.name().bytes()) {
            Some(place) => take_at(&mut self.sessions, place, &self.nets, number, event.line),
            None => self.begin(event.key, number, event.line),
        }
    }

    /// The verdicts on the sessions, in their order.
    pub fn verdicts(&self) -> Result<SessionVerdictList, NoMemory>
        ensures { (events : List Keyed) → HaveTaken S.holds events self.now → IfOk result (AreVerdicts self.now.nets self.now.term self.now.budget events) }
    {
        let mut verdicts = SessionVerdictList::new(self.alloc);
        for session in &self.sessions {
            verdicts.push(session.verdict(self.alloc, &self.nets)?)?;
        }
        Ok(verdicts)
    }
}
