//! One session of a log: its key, and the track of its events. For `tracks`.

ghost use Rattle.std.specs.Prelude.{◌≡◌, ◌≤◌, ◌<◌, ◌↔◌, [], ℕ, IfOk, OnOk, IsTrue};
ghost use Rattle.msc_base.specs.Stored.{most_stored};
ghost use Rattle.msc_base.specs.declared.limits.TheConstants.Limits.{BUDGET_MOST};
ghost use Rattle.session_judge.specs.Steps.{IsAnswerOf, Takes};
ghost use Rattle.trace_judge.specs.Sets.{IsSoundFor};
ghost use Rattle.trace_judge.specs.Steps.{IsNumber};
ghost use Rattle.trace_judge.specs.Tracks.{Fed, IfHeld};

use crate::SessionVerdict;
use chart_term::Term;
use msc_base::NoMemory;
use session_log::SharedName;
use std::alloc::Global;
use std::marker::Model;
use term_tables::Nets;
use trace_judge::{Store, Track};

/// A session of a log.
#[derive(Drop)]
pub struct Session<S: Store> {
    key: SharedName,
    /// What has taken the events with this key.
    track: Track<S>,
}

impl<S: Store> Model for Session<S> {
    ghost use Rattle.session_judge.specs.Tracks.{SessionValue};

    ghost Value = { SessionValue S };

    ghost view = { λ s. record { key = s.key; track = s.track } };
}

impl<S: Store + Drop> Session<S> {
    /// A session with this key, of which no event was taken.
    pub fn new(
        alloc: Global,
        nets: &Nets,
        term: Term,
        budget: u64,
        key: SharedName,
    ) -> Result<Session<S>, NoMemory>
        requires sound { IsSoundFor nets.now term }
        requires least { 1 ≤ budget }
        requires most { budget ≤ BUDGET_MOST }
        ensures key { IfOk result (λ session. session.key ≡ key) }
        ensures fed { IfOk result (λ session. Fed S.holds nets.now term budget [] session.track) }
        ensures serves { IfOk result (λ session. IfHeld (λ set. S.serves set nets.now) session.track) }
    {
        let track = Track::new(alloc, nets, term, budget)?;
        Ok(Session { key, track })
    }

    /// Whether this is its key.
    pub fn has_key(&self, key: &[u8]) -> bool
        ensures { IsTrue result ↔ (self.now.key ≡ key.now) }
    {
        self.key.name().bytes() == key
    }

    /// Takes its next event, whose label has this number, and which stands in this line. After want of memory the session is as it
    /// was.
    pub fn take(&mut self, nets: &Nets, number: Option<u32>, line: u64) -> Result<(), NoMemory>
        requires serves { IfHeld (λ set. S.serves set nets.now) self.old.track }
        requires number { IsNumber nets.now number }
        requires room { self.old.track.events < most_stored }
        ensures serves { IfHeld (λ set. S.serves set nets.now) self.new.track }
        ensures taken { OnOk result (Takes S.holds nets.now number line self.old self.new) }
    {
        self.track.take(nets, number, line)
    }

    /// The verdict on the events that it has taken.
    pub fn verdict(&self, alloc: Global, nets: &Nets) -> Result<SessionVerdict, NoMemory>
        requires { IfHeld (λ set. S.serves set nets.now) self.now.track }
        ensures { IfOk result (IsAnswerOf S.holds nets.now self.now) }
    {
        let verdict = self.track.verdict(alloc, nets)?;
        let key = self.key.copy()?;
        Ok(SessionVerdict { key, verdict })
    }
}
