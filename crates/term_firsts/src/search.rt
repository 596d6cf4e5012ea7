//! A search for the events that can be taken from a term: the terms that wait to be looked into, and the labels that it has met. For
//! `firsts`.

ghost use Rattle.std.specs.Prelude.{◌≡◌, [], IfOk, OnOk, MatchOption};
ghost use Rattle.chart_term.specs.Tables.{Tables};
ghost use Rattle.chart_term.specs.Terms.{TermEvent};
ghost use Rattle.term_permission.specs.Ready.{IsReady};
ghost use Rattle.term_firsts.specs.Firsts.{AreReady, Awaits, CanTake, Hands, IsMet, Meets};

use chart_term::Term;
use msc_base::NoMemory;
use std::alloc::Global;

/// What a search has met, and where it goes on.
#[derive(Drop)]
pub(crate) struct Search {
    /// The terms that wait.
    pub(crate) waiting: Vec<Term>,
    /// The labels of events, by number; one may stand here more than once.
    pub(crate) labels: Vec<u32>,
}

impl Search {
    /// A search that has met nothing, before this term.
    #[tactic(auto, using(crate::proofs::Waiting::waiting))]
    pub(crate) fn new(alloc: Global, term: Term) -> Result<Search, NoMemory>
        ensures comes { IfOk result (λ search. (w : Tables) (e : TermEvent) → CanTake w term e → IsMet w search e) }
        ensures ready { IfOk result (λ search. (w : Tables) → IsReady w term → AreReady w search) }
    {
        let mut waiting = Vec::new(alloc);
        waiting.push(term)?;
        Ok(Search {
            waiting,
            labels: Vec::new(alloc),
        })
    }

    /// One term more waits.
    #[tactic(auto, using(crate::proofs::Waiting::waiting))]
    pub(crate) fn wait(&mut self, term: Term) -> Result<(), NoMemory>
        ensures { OnOk result (Awaits term self.old self.new) }
    {
        self.waiting.push(term)?;
        Ok(())
    }

    /// One label more was met.
    #[tactic(auto, using(crate::proofs::Waiting::waiting))]
    pub(crate) fn meet(&mut self, label: u32) -> Result<(), NoMemory>
        ensures { OnOk result (Meets label self.old self.new) }
    {
        self.labels.push(label)?;
        Ok(())
    }

    /// A term that waits, if one does; then it waits no more.
    #[tactic(auto, using(crate::proofs::Waiting::waiting))]
    pub(crate) fn next(&mut self) -> Option<Term>
        ensures { MatchOption result (self.new.waiting.items ≡ [] × (self.new.labels ≡ self.old.labels) × (self.old.waiting.items ≡ [])) (λ term. Hands term self.old self.new) }
    {
        self.waiting.pop()
    }
}
