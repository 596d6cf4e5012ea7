//! Follows the events of one log to a verdict, whatever the store. It knows labels and lines, and no bytes.

ghost use Rattle.std.specs.Prelude.{◌≡◌, ◌≤◌, ◌<◌, ◌+◌, ◌++◌, ◌∷◌, [], ℕ, List, IfOk, OnOk, OnErr, MatchOption, Some, None};
ghost use Rattle.msc_base.specs.Stored.{most_stored};
ghost use Rattle.msc_base.specs.declared.limits.TheConstants.Limits.{BUDGET_MOST};
ghost use Rattle.term_tables.specs.NetValues.{NetsValue};
ghost use Rattle.chart_term.specs.Terms.{Tree};
ghost use Rattle.trace_judge.specs.Advances.{Follows, FollowsOpen, settled, risen, IsOpenVerdict};
ghost use Rattle.trace_judge.specs.Sets.{IsSoundFor};
ghost use Rattle.trace_judge.specs.Steps.{ForLabels, IsNumber};
ghost use Rattle.trace_judge.specs.Tracks.{Fed, IfHeld, IsSame};
ghost use Rattle.trace_judge.specs.Verdicts.{IsOpen, IsTermVerdict, TellsRuns, IsLargest};
ghost use Rattle.line_events.specs.declared.event.LineEvent.{LineEvent};

use crate::advance::{Outcome, advance};
use crate::{StepFault, Store};
use chart_term::Term;
use msc_base::{NoMemory, Verdict};
use std::alloc::Global;
use std::marker::Model;
use term_tables::Nets;

/// Follows the events of one log to a verdict, by a set of residual terms.
#[derive(Drop)]
pub struct Track<S: Store> {
    /// The set. There is none where the term alone is above the budget.
    set: Option<S>,
    /// How many events were taken.
    events: u64,
    /// The verdict, once it is settled.
    ended: Option<Verdict>,
    /// The largest weight so far.
    largest: u64,
}

impl<S: Store> Model for Track<S> {
    ghost use Rattle.trace_judge.specs.Tracks.{TrackValue};

    ghost Value = { TrackValue S };

    ghost view = { λ t. record { set = t.set; events = t.events; ended = t.ended; largest = t.largest } };
}

impl<S: Store + Drop> Track<S> {
    /// A track of a log of the term, of which no event was taken.
    pub fn new(alloc: Global, nets: &Nets, term: Term, budget: u64) -> Result<Track<S>, NoMemory>
        requires sound { IsSoundFor nets.now term }
        requires least { 1 ≤ budget }
        requires most { budget ≤ BUDGET_MOST }
        ensures fed { IfOk result (λ track. Fed S.holds nets.now term budget [] track) }
        ensures serves { IfOk result (λ track. IfHeld (λ set. S.serves set nets.now) track) }
    {
        match S::start(alloc, nets, term, budget) {
            Ok(set) => {
                let largest = set.weight();
                Ok(Track {
                    set: Some(set),
                    events: 0,
                    ended: None,
                    largest,
                })
            }
            Err(StepFault::TooLarge) => Ok(Track {
                set: None,
                events: 0,
                ended: Some(Verdict::TooLarge { event: 0 }),
                largest: 0,
            }),
            Err(StepFault::NoMemory) => Err(NoMemory),
        }
    }

    /// Notes what became of the set at the next event, which stands in this line.
    fn note(&mut self, outcome: Outcome, line: u64)
        requires { self.old.events < most_stored }
        ensures { self.new ≡ record self.old { ended = settled outcome (self.old.events + 1) line; largest = risen outcome self.old.largest } }
    {
        match outcome {
            Outcome::Goes(weight) => {
                self.ended = None;
                self.largest = self.largest.max(weight);
            }
            Outcome::Empties => {
                let event = self.events + 1;
                self.ended = Some(Verdict::Fails { event, line });
            }
            Outcome::Passes => {
                let event = self.events + 1;
                self.ended = Some(Verdict::TooLarge { event });
            }
        }
    }

    /// Lets the set take the next event.
    fn follow(&mut self, nets: &Nets, number: Option<u32>, line: u64) -> Result<(), NoMemory>
        requires serves { IfHeld (λ set. S.serves set nets.now) self.old }
        requires number { IsNumber nets.now number }
        requires room { self.old.events < most_stored }
        ensures serves { IfHeld (λ set. S.serves set nets.now) self.new }
        ensures ok { OnOk result (Follows S.holds nets.now number line self.old.set self.old self.new) }
        ensures count { OnOk result (self.new.events ≡ self.old.events) }
        ensures err { OnErr result (IsSame S.holds self.old self.new) }
    {
        match &mut self.set {
            None => Ok(()),
            Some(set) => {
                let outcome = advance(set, nets, number)?;
                self.note(outcome, line);
                Ok(())
            }
        }
    }

    /// Lets the set take the next event, unless a verdict is settled.
    fn follow_open(&mut self, nets: &Nets, number: Option<u32>, line: u64) -> Result<(), NoMemory>
        requires serves { IfHeld (λ set. S.serves set nets.now) self.old }
        requires number { IsNumber nets.now number }
        requires room { self.old.events < most_stored }
        ensures serves { IfHeld (λ set. S.serves set nets.now) self.new }
        ensures ok { OnOk result (FollowsOpen S.holds nets.now number line self.old.ended self.old self.new) }
        ensures count { OnOk result (self.new.events ≡ self.old.events) }
        ensures err { OnErr result (IsSame S.holds self.old self.new) }
    {
        match self.ended {
            None => self.follow(nets, number, line),
            Some(_) => Ok(()),
        }
    }

    /// Counts the event.
    fn count(&mut self)
        requires { self.old.events < most_stored }
        ensures { self.new ≡ record self.old { events = self.old.events + 1 } }
    {
        self.events += 1;
    }

    /// Takes the next event, whose label has this number in the tables, or none where they lack it, and which stands in this line.
    /// After want of memory the track is as it was.
    pub fn take(&mut self, nets: &Nets, number: Option<u32>, line: u64) -> Result<(), NoMemory>
        requires serves { IfHeld (λ set. S.serves set nets.now) self.old }
        requires number { IsNumber nets.now number }
        requires room { self.old.events < most_stored }
        ensures serves { IfHeld (λ set. S.serves set nets.now) self.new }
        ensures count { OnOk result (self.new.events ≡ self.old.events + 1) }
        ensures fed { (x : Tree) (budget : ℕ) (events : List LineEvent) → Fed S.holds nets.now x budget events self.old
            → OnOk result (ForLabels nets.now number (λ label. Fed S.holds nets.now x budget (events ++ record { label = label; line = line } ∷ []) self.new)) }
        ensures stays { (x : Tree) (budget : ℕ) (events : List LineEvent) → Fed S.holds nets.now x budget events self.old
            → OnErr result (Fed S.holds nets.now x budget events self.new) }
        ensures err { OnErr result (IsSame S.holds self.old self.new) }
    {
        self.follow_open(nets, number, line)?;
        self.count();
        Ok(())
    }

    /// The set of what is left, as long as no verdict is settled. It takes no memory.
    pub fn open_set(&self) -> Option<&S>
        ensures { MatchOption result (self.now.ended ≡ None → self.now.set ≡ None) (λ set. (self.now.ended ≡ None) × (self.now.set ≡ Some set.now)) }
    {
        match (self.ended, &self.set) {
            (None, Some(set)) => Some(set),
            _ => None,
        }
    }

    /// The verdict where none is settled, by the set.
    fn open_verdict(&self, alloc: Global, nets: &Nets, set: &S) -> Result<Verdict, NoMemory>
        requires { S.serves set.now nets.now }
        ensures verdict { IfOk result (IsOpenVerdict nets.now (S.holds set.now) self.now.events) }
        ensures open { IfOk result IsOpen }
    {
        let events = self.events;
        if set.may_end(alloc, nets)? {
            Ok(Verdict::Conforms { events })
        } else {
            Ok(Verdict::Early { events })
        }
    }

    /// The verdict on the events that were taken.
    pub fn verdict(&self, alloc: Global, nets: &Nets) -> Result<Verdict, NoMemory>
        requires { IfHeld (λ set. S.serves set nets.now) self.now }
        ensures verdict { (x : Tree) (budget : ℕ) (events : List LineEvent) → Fed S.holds nets.now x budget events self.now
            → IfOk result (IsTermVerdict nets.now x budget events) }
        ensures runs { (x : Tree) (budget : ℕ) (events : List LineEvent) → Fed S.holds nets.now x budget events self.now
            → IfOk result (TellsRuns nets.now x events) }
        ensures settled { IfOk result (λ verdict. MatchOption self.now.ended (IsOpen verdict) (λ settled. verdict ≡ settled)) }
    {
        match (self.ended, &self.set) {
            (Some(verdict), _) => Ok(verdict),
            (None, Some(set)) => self.open_verdict(alloc, nets, set),
            (None, None) => Ok(Verdict::Early {
                events: self.events,
            }),
        }
    }

    /// The largest weight of the set after the events that were taken, from the moment before the first, as far as the budget isn't
    /// passed; 0 where the term alone is above it. It takes no memory.
    pub fn largest(&self) -> u64
        ensures { (v : NetsValue) (x : Tree) (budget : ℕ) (events : List LineEvent) → Fed S.holds v x budget events self.now
            → IsLargest v x budget events result }
    {
        // Each field is named: what a verdict rests on is these four, and a further one doesn't compile here.
        let Track {
            set: _,
            events: _,
            ended: _,
            largest,
        } = self;
        *largest
    }
}
