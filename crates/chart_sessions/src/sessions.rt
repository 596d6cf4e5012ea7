//! The judge of the sessions of a log by a chart, which is fed the log in pieces: what the command judges sessions by.

ghost use Rattle.std.specs.Prelude.{◌≡◌, ◌≤◌, ◌++◌, [], ℕ, List, Some, false, Err, IfOk, IfErr, IfSome, OnOk};
ghost use Rattle.chart_sessions.specs.Judging.{IsJudgingSessions};
ghost use Rattle.chart_sessions.specs.SessionVerdicts.{IsSessionsOn};
ghost use Rattle.event_log.specs.declared.event.LogForm.{LogForm as Form};
ghost use Rattle.log_judge.specs.Judged.{fault_in};
ghost use Rattle.log_judge.specs.RuledFaults.{IsJudgeFault};
ghost use Rattle.msc_acceptance.specs.AcceptedCharts.{IsAcceptedTable};
ghost use Rattle.msc_base.specs.declared.limits.TheConstants.Limits.{BUDGET_MOST};
ghost use Rattle.msc_meaning.specs.Tables.{ChartEntry, Table, chart_at};
ghost use Rattle.msc_meaning.specs.Views.{table_view};
ghost use Rattle.session_log.specs.Sessions.{session_rules};

use chart_judge::laws::{charts_have_terms, verdicts_are_told};
use chart_judge::term_of;
use event_log::LogForm;
use log_judge::JudgeFault;
use msc_acceptance::Accepted;
use msc_base::NoMemory;
use session_judge::{SessionVerdictList, Sessions};
use std::alloc::Global;
use std::marker::Model;
use term_sets::Pool;

/// Judges the sessions of a log, which it is fed in pieces, each by a chart.
#[derive(Drop)]
pub struct ChartSessions {
    sessions: Sessions<Pool>,
}

impl Model for ChartSessions {
    ghost use Rattle.std.specs.Coded.{codes};
    ghost use Rattle.chart_term.specs.Codes.{coded_tree};
    ghost use Rattle.term_sets.specs.Memories.{PoolValue};
    ghost use Rattle.session_judge.specs.States.{SessionsValue};

    ghost Value = { SessionsValue PoolValue };

    ghost coded = { Prim.hlevel (codes, coded_tree) };

    ghost view = { λ s. s.sessions };
}

impl ChartSessions {
    /// A judge of the sessions of a log of this form by the chart of that name, to which nothing has been fed. For each session the
    /// weight of what may be left of the chart's term after an event is the budget at most.
    pub fn new(
        alloc: Global,
        accepted: &Accepted,
        name: &[u8],
        form: LogForm,
        budget: u64,
    ) -> Result<ChartSessions, NoMemory>
        requires accepted { IsAcceptedTable (table_view accepted.now) }
        requires there { (chart : ChartEntry) × (chart_at (table_view accepted.now) name.now ≡ Some chart) }
        requires least { 1 ≤ budget }
        requires most { budget ≤ BUDGET_MOST }
        ensures { IfOk result (λ judge. IsJudgingSessions (table_view accepted.now) name.now form budget [] judge) }
    {
        charts_have_terms();
        let made = term_of(alloc, accepted, name)?;
        let sessions = Sessions::new(alloc, made.nets, made.term, form, budget)?;
        Ok(ChartSessions { sessions })
    }

    /// Takes the next bytes of the log. It fails exactly where a fault of the log is decided within the bytes fed so far, or for
    /// want of memory, and from then on always with the same fault.
    pub fn feed(&mut self, piece: &[u8]) -> Result<(), JudgeFault>
        ensures fed { (table : Table) (name : List ℕ) (form : Form) (budget : ℕ) (bytes : List ℕ) → IsJudgingSessions table name form budget bytes self.old
            → OnOk result (IsJudgingSessions table name form budget (bytes ++ piece.now) self.new) }
        ensures refused { (table : Table) (name : List ℕ) (form : Form) (budget : ℕ) (bytes : List ℕ) → IsJudgingSessions table name form budget bytes self.old
            → (more : List ℕ) → IfErr result (IsJudgeFault session_rules form false ((bytes ++ piece.now) ++ more)) }
        ensures fault { fault_in result ≡ self.new.fault }
        ensures again { IfSome self.old.fault (λ fault. (result ≡ Err fault) × (self.new ≡ self.old)) }
    {
        self.sessions.feed(piece)
    }

    /// Ends the log, and gives the verdict on the events of each session, in the order of their first lines. It fails exactly where
    /// the whole log has a fault, or for want of memory; after a fault of `feed` with that.
    pub fn finish(self) -> Result<SessionVerdictList, JudgeFault>
        ensures verdicts { (table : Table) (name : List ℕ) (form : Form) (budget : ℕ) (bytes : List ℕ) → IsJudgingSessions table name form budget bytes self
            → IfOk result (IsSessionsOn table name form budget bytes) }
        ensures fault { (table : Table) (name : List ℕ) (form : Form) (budget : ℕ) (bytes : List ℕ) → IsJudgingSessions table name form budget bytes self
            → IfErr result (IsJudgeFault session_rules form false bytes) }
        ensures again { IfSome self.fault (λ fault. result ≡ Err fault) }
    {
        verdicts_are_told();
        self.sessions.finish()
    }
}
