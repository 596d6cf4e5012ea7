//! The judge of a log in pieces, over any store: it ties the reader of logs to a track. It knows no text of a verdict.

ghost use Rattle.std.specs.Prelude.{◌≡◌, ◌≤◌, ◌++◌, [], ℕ, List, true, false, None, Some, Err, IfOk, IfErr, IfSome};
ghost use Rattle.msc_base.specs.declared.limits.TheConstants.Limits.{BUDGET_MOST};
ghost use Rattle.term_tables.specs.NetValues.{NetsValue};
ghost use Rattle.chart_term.specs.Terms.{Tree};
ghost use Rattle.event_log.specs.declared.event.LogForm.{LogForm};
ghost use Rattle.trace_judge.specs.Sets.{IsSoundFor};
ghost use Rattle.log_judge.specs.Judged.{IsJudged, IsJudgeFault, IsJudgeAnswer, IsLargestOf, fault_in};
ghost use Rattle.log_judge.specs.Ends.{HasEnded};
ghost use Rattle.log_judge.specs.States.{Fed};
ghost use Rattle.trace_judge.specs.Tracks.{IfHeld};

use crate::JudgeFault;
use crate::numbers::TableNumbers;
use crate::taking::{feed_parts, finish_parts};
use chart_term::Term;
use event_log::{LogForm, LogReader};
use msc_base::{NoMemory, Verdict};
use std::alloc::Global;
use std::marker::Model;
use std::rc::Rc;
use term_tables::Nets;
use trace_judge::{Store, Track};

/// Judges a log, which it is fed in pieces, by a chart's term.
#[derive(Drop)]
pub struct Judge<S: Store> {
    alloc: Global,
    reader: LogReader<TableNumbers>,
    nets: Rc<Nets>,
    track: Track<S>,
    fault: Option<JudgeFault>,
}

/// What the end of a log without a fault leaves: the tables, and the track that has taken all events of the log.
#[derive(Drop)]
pub struct Ended<S: Store> {
    /// What the judge took its memory from.
    pub alloc: Global,
    /// The tables.
    pub nets: Rc<Nets>,
    /// The track of all events.
    pub track: Track<S>,
}

impl<S: Store> Model for Judge<S> {
    ghost use Rattle.std.specs.Coded.{codes};
    ghost use Rattle.chart_term.specs.Codes.{coded_tree};
    ghost use Rattle.log_judge.specs.States.{JudgeValue, IsKept};

    ghost Value = { JudgeValue S };

    ghost coded = { Prim.hlevel (codes, coded_tree) };

    ghost view = { λ j. record { reader = j.reader; nets = j.nets.value; track = j.track; fault = j.fault } };

    ghost invariant = { λ j. IsKept S.serves j.reader j.nets.value j.track j.fault };
}

impl<S: Store + Drop> Judge<S> {
    /// A judge of a log of this form by the term, to which nothing has been fed.
    pub fn new(
        alloc: Global,
        nets: Nets,
        term: Term,
        form: LogForm,
        budget: u64,
    ) -> Result<Judge<S>, NoMemory>
        requires sound { IsSoundFor nets term }
        requires least { 1 ≤ budget }
        requires most { budget ≤ BUDGET_MOST }
        ensures fed { IfOk result (λ judge. Fed S.holds nets term form budget [] judge) }
        ensures fault { IfOk result (λ judge. judge.fault ≡ None) }
    {
        let track = Track::new(alloc, &nets, term, budget)?;
        let nets = Rc::new(alloc, nets)?;
        let numbers = TableNumbers {
            nets: nets.clone()?,
        };
        let reader = LogReader::new(alloc, form, numbers)?;
        Ok(Judge {
            alloc,
            reader,
            nets,
            track,
            fault: None,
        })
    }

    /// Takes the next bytes of the log. It fails exactly where a fault of the log is decided within the bytes fed so far, or for
    /// want of memory, and from then on always with the same fault.
    pub fn feed(&mut self, piece: &[u8]) -> Result<(), JudgeFault>
        ensures fed { (v : NetsValue) (x : Tree) (form : LogForm) (budget : ℕ) (bytes : List ℕ) → Fed S.holds v x form budget bytes self.old
            → Fed S.holds v x form budget (bytes ++ piece.now) self.new }
        ensures fault { fault_in result ≡ self.new.fault }
        ensures again { IfSome self.old.fault (λ fault. (result ≡ Err fault) × (self.new ≡ self.old)) }
        ensures decided { (v : NetsValue) (x : Tree) (form : LogForm) (budget : ℕ) (bytes : List ℕ) → Fed S.holds v x form budget bytes self.old
            → IsJudgeAnswer form true (bytes ++ piece.now) (fault_in result) }
        ensures lasts { (v : NetsValue) (x : Tree) (form : LogForm) (budget : ℕ) (bytes : List ℕ) → Fed S.holds v x form budget bytes self.old
            → (more : List ℕ) → IfErr result (IsJudgeFault form false ((bytes ++ piece.now) ++ more)) }
    {
        if let Some(fault) = self.fault {
            return Err(fault);
        }
        match feed_parts(&mut self.reader, &self.nets, &mut self.track, piece) {
            Ok(()) => Ok(()),
            Err(fault) => {
                self.fault = Some(fault);
                Err(fault)
            }
        }
    }

    /// Ends the log, and gives the track that has taken its events. It fails exactly where the whole log has a fault, or for want of
    /// memory; after a fault of `feed` with that.
    pub fn end(self) -> Result<Ended<S>, JudgeFault>
        ensures serves { IfOk result (λ ended. IfHeld (λ set. S.serves set ended.nets.value) ended.track) }
        ensures taken { (v : NetsValue) (x : Tree) (form : LogForm) (budget : ℕ) (bytes : List ℕ) → Fed S.holds v x form budget bytes self
            → IfOk result (λ ended. HasEnded S.holds v x form budget bytes ended.nets.value ended.track) }
        ensures fault { (v : NetsValue) (x : Tree) (form : LogForm) (budget : ℕ) (bytes : List ℕ) → Fed S.holds v x form budget bytes self
            → IfErr result (IsJudgeFault form false bytes) }
        ensures again { IfSome self.fault (λ fault. result ≡ Err fault) }
    {
        // Each field is named: what a verdict rests on is these five, and a further one doesn't compile here.
        let Judge {
            alloc,
            mut reader,
            nets,
            mut track,
            fault,
        } = self;
        if let Some(fault) = fault {
            return Err(fault);
        }
        match finish_parts(&mut reader, &nets, &mut track) {
            Ok(()) => Ok(Ended { alloc, nets, track }),
            Err(fault) => Err(fault),
        }
    }

    /// Ends the log, and gives the verdict on its events. It fails exactly where the whole log has a fault, or for want of memory;
    /// after a fault of `feed` with that.
    pub fn finish(self) -> Result<Verdict, JudgeFault>
        ensures verdict { (v : NetsValue) (x : Tree) (form : LogForm) (budget : ℕ) (bytes : List ℕ) → Fed S.holds v x form budget bytes self
            → IfOk result (IsJudged v x form budget bytes) }
        ensures fault { (v : NetsValue) (x : Tree) (form : LogForm) (budget : ℕ) (bytes : List ℕ) → Fed S.holds v x form budget bytes self
            → IfErr result (IsJudgeFault form false bytes) }
        ensures again { IfSome self.fault (λ fault. result ≡ Err fault) }
    {
        let ended = self.end()?;
        let verdict = ended.track.verdict(ended.alloc, &ended.nets)?;
        Ok(verdict)
    }

    /// The largest weight of the set after the events of all lines that have ended within the bytes fed, from the moment before the
    /// first, as far as the budget isn't passed; 0 where the term alone is above it. After a fault it has no meaning. It takes no
    /// memory.
    pub fn largest(&self) -> u64
        ensures { (v : NetsValue) (x : Tree) (form : LogForm) (budget : ℕ) (bytes : List ℕ) → Fed S.holds v x form budget bytes self.now
            → self.now.fault ≡ None → IsLargestOf v x form budget bytes result }
    {
        self.track.largest()
    }
}
