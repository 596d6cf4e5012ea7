//! The judge of the sessions of a log in pieces, over any store: it ties the reader of such logs to the tracks of its sessions.

ghost use Rattle.std.specs.Prelude.{◌≡◌, ◌≤◌, ◌++◌, [], ℕ, List, true, false, None, Some, Err, IfOk, IfErr, IfSome};
ghost use Rattle.chart_term.specs.Terms.{Tree};
ghost use Rattle.event_log.specs.declared.event.LogForm.{LogForm};
ghost use Rattle.log_judge.specs.Judged.{fault_in};
ghost use Rattle.log_judge.specs.RuledFaults.{IsJudgeAnswer, IsJudgeFault};
ghost use Rattle.msc_base.specs.declared.limits.TheConstants.Limits.{BUDGET_MOST};
ghost use Rattle.session_judge.specs.SessionVerdicts.{AreJudged};
ghost use Rattle.session_judge.specs.States.{AreMade, Fed, TakesLog};
ghost use Rattle.session_log.specs.Sessions.{session_rules};
ghost use Rattle.term_tables.specs.NetValues.{NetsValue};
ghost use Rattle.trace_judge.specs.Sets.{IsSoundFor};

use crate::SessionVerdictList;
use crate::taking::{feed_parts, finish_parts};
use crate::tracks::SessionTracks;
use chart_term::Term;
use event_log::LogForm;
use log_judge::{JudgeFault, TableNumbers};
use msc_base::NoMemory;
use session_log::SessionReader;
use std::alloc::Global;
use std::marker::Model;
use std::rc::Rc;
use term_tables::Nets;
use trace_judge::Store;

/// Judges the sessions of a log, which it is fed in pieces, each by the same chart's term.
#[derive(Drop)]
pub struct Sessions<S: Store> {
    reader: SessionReader<TableNumbers>,
    tracks: SessionTracks<S>,
    fault: Option<JudgeFault>,
}

impl<S: Store> Model for Sessions<S> {
    ghost use Rattle.std.specs.Coded.{codes};
    ghost use Rattle.chart_term.specs.Codes.{coded_tree};
    ghost use Rattle.session_judge.specs.States.{SessionsValue, IsKept};

    ghost Value = { SessionsValue S };

    ghost coded = { Prim.hlevel (codes, coded_tree) };

    ghost view = { λ s. record { reader = s.reader; tracks = s.tracks; fault = s.fault } };

    ghost invariant = { λ s. IsKept s.reader s.tracks s.fault };
}

impl<S: Store + Drop> Sessions<S> {
    /// A judge of the sessions of a log of this form by the term, to which nothing has been fed. The budget is that of each session.
    pub fn new(
        alloc: Global,
        nets: Nets,
        term: Term,
        form: LogForm,
        budget: u64,
    ) -> Result<Sessions<S>, NoMemory>
        requires sound { IsSoundFor nets term }
        requires least { 1 ≤ budget }
        requires most { budget ≤ BUDGET_MOST }
        ensures fed { IfOk result (λ sessions. Fed S.holds nets term form budget [] sessions) }
        ensures fault { IfOk result (λ sessions. sessions.fault ≡ None) }
    {
        let nets = Rc::new(alloc, nets)?;
        let numbers = TableNumbers {
            nets: nets.clone()?,
        };
        let reader = SessionReader::new(alloc, form, numbers)?;
        let tracks = SessionTracks::new(alloc, nets, term, budget);
        Ok(Sessions {
            reader,
            tracks,
            fault: None,
        })
    }

    /// Takes the next bytes of the log. It fails exactly where a fault of the log is decided within the bytes fed so far, or for
    /// want of memory, and from then on always with the same fault.
    pub fn feed(&mut self, piece: &[u8]) -> Result<(), JudgeFault>
        ensures fed { (v : NetsValue) (x : Tree) (form : LogForm) (budget : ℕ) (bytes : List ℕ) → Fed S.holds v x form budget bytes self.old
            → Fed S.holds v x form budget (bytes ++ piece.now) self.new }
        ensures fault { fault_in result ≡ self.new.fault }
        ensures again { IfSome self.old.fault (λ fault. (result ≡ Err fault) × (self.new ≡ self.old)) }
        ensures decided { (v : NetsValue) (x : Tree) (form : LogForm) (budget : ℕ) (bytes : List ℕ) → Fed S.holds v x form budget bytes self.old
            → IsJudgeAnswer session_rules form true (bytes ++ piece.now) (fault_in result) }
        ensures lasts { (v : NetsValue) (x : Tree) (form : LogForm) (budget : ℕ) (bytes : List ℕ) → Fed S.holds v x form budget bytes self.old
            → (more : List ℕ) → IfErr result (IsJudgeFault session_rules form false ((bytes ++ piece.now) ++ more)) }
    {
        if let Some(fault) = self.fault {
            return Err(fault);
        }
        match feed_parts(&mut self.reader, &mut self.tracks, piece) {
            Ok(()) => Ok(()),
            Err(fault) => {
                self.fault = Some(fault);
                Err(fault)
            }
        }
    }

    /// Ends the log, and gives the tracks that have taken its events.
    fn end(self) -> Result<SessionTracks<S>, JudgeFault>
        ensures made { (v : NetsValue) (x : Tree) (form : LogForm) (budget : ℕ) (bytes : List ℕ) → Fed S.holds v x form budget bytes self
            → IfOk result (AreMade v x budget) }
        ensures taken { (v : NetsValue) (x : Tree) (form : LogForm) (budget : ℕ) (bytes : List ℕ) → Fed S.holds v x form budget bytes self
            → IfOk result (TakesLog S.holds form bytes) }
        ensures fault { (v : NetsValue) (x : Tree) (form : LogForm) (budget : ℕ) (bytes : List ℕ) → Fed S.holds v x form budget bytes self
            → IfErr result (IsJudgeFault session_rules form false bytes) }
        ensures again { IfSome self.fault (λ fault. result ≡ Err fault) }
    {
        // Each field is named: what the verdicts rest on is these three, and a further one doesn't compile here.
        let Sessions {
            mut reader,
            mut tracks,
            fault,
        } = self;
        if let Some(fault) = fault {
            return Err(fault);
        }
        match finish_parts(&mut reader, &mut tracks) {
            Ok(()) => Ok(tracks),
            Err(fault) => Err(fault),
        }
    }

    /// Ends the log, and gives the verdict on the events of each session, in the order of their first lines. It fails exactly where
    /// the whole log has a fault, or for want of memory; after a fault of `feed` with that.
    pub fn finish(self) -> Result<SessionVerdictList, JudgeFault>
        ensures verdicts { (v : NetsValue) (x : Tree) (form : LogForm) (budget : ℕ) (bytes : List ℕ) → Fed S.holds v x form budget bytes self
            → IfOk result (AreJudged v x form budget bytes) }
        ensures fault { (v : NetsValue) (x : Tree) (form : LogForm) (budget : ℕ) (bytes : List ℕ) → Fed S.holds v x form budget bytes self
            → IfErr result (IsJudgeFault session_rules form false bytes) }
        ensures again { IfSome self.fault (λ fault. result ≡ Err fault) }
    {
        let tracks = self.end()?;
        let verdicts = tracks.verdicts()?;
        Ok(verdicts)
    }
}
