//! The judge of a log by a chart, which is fed the log in pieces: what the command judges by.

ghost use Rattle.std.specs.Prelude.{◌≡◌, ◌≤◌, ◌++◌, [], ℕ, List, Some, false, IfOk, IfErr, IfSome, OnOk};
ghost use Rattle.chart_judge.specs.Judging.{IsJudging, IsVerdictOn};
ghost use Rattle.event_log.specs.declared.event.LogForm.{LogForm as Form};
ghost use Rattle.msc_acceptance.specs.AcceptedCharts.{IsAcceptedTable};
ghost use Rattle.msc_base.specs.declared.limits.TheConstants.Limits.{BUDGET_MOST};
ghost use Rattle.msc_meaning.specs.Tables.{ChartEntry, Table, chart_at};
ghost use Rattle.msc_meaning.specs.Views.{table_view};
ghost use Rattle.log_judge.specs.Judged.{IsJudgeFault, fault_in};
ghost use Rattle.chart_judge.specs.LargestWeights.{IsLargestOn};

use crate::laws::{charts_have_terms, verdicts_are_told};
use crate::term::term_of;
use event_log::LogForm;
use log_judge::{Judge, JudgeFault};
use msc_acceptance::Accepted;
use msc_base::{NoMemory, Verdict};
use std::alloc::Global;
use std::marker::Model;
use term_sets::Pool;

/// Judges a log, which it is fed in pieces, by a chart.
#[derive(Drop)]
pub struct ChartJudge {
    pub(crate) judge: Judge<Pool>,
}

impl Model for ChartJudge {
    ghost use Rattle.std.specs.Coded.{codes};
    ghost use Rattle.chart_term.specs.Codes.{coded_tree};
    ghost use Rattle.term_sets.specs.Memories.{PoolValue};
    ghost use Rattle.log_judge.specs.States.{JudgeValue};

    ghost Value = { JudgeValue PoolValue };

    ghost coded = { Prim.hlevel (codes, coded_tree) };

    ghost view = { λ j. j.judge };
}

impl ChartJudge {
    /// A judge of a log of this form by the chart of that name, to which nothing has been fed. The weight of what may be left of the
    /// chart's term after an event is the budget at most.
    pub fn new(
        alloc: Global,
        accepted: &Accepted,
        name: &[u8],
        form: LogForm,
        budget: u64,
    ) -> Result<ChartJudge, NoMemory>
        requires accepted { IsAcceptedTable (table_view accepted.now) }
        requires there { (chart : ChartEntry) × (chart_at (table_view accepted.now) name.now ≡ Some chart) }
        requires least { 1 ≤ budget }
        requires most { budget ≤ BUDGET_MOST }
        ensures { IfOk result (λ judge. IsJudging (table_view accepted.now) name.now form budget [] judge) }
    {
        charts_have_terms();
        let made = term_of(alloc, accepted, name)?;
        let judge = Judge::new(alloc, made.nets, made.term, form, budget)?;
        Ok(ChartJudge { judge })
    }

    /// Takes the next bytes of the log. It fails exactly where a fault of the log is decided within the bytes fed so far, or for
    /// want of memory, and from then on always with the same fault.
    pub fn feed(&mut self, piece: &[u8]) -> Result<(), JudgeFault>
        ensures fed { (table : Table) (name : List ℕ) (form : Form) (budget : ℕ) (bytes : List ℕ) → IsJudging table name form budget bytes self.old
            → OnOk result (IsJudging table name form budget (bytes ++ piece.now) self.new) }
        ensures refused { (table : Table) (name : List ℕ) (form : Form) (budget : ℕ) (bytes : List ℕ) → IsJudging table name form budget bytes self.old
            → (more : List ℕ) → IfErr result (IsJudgeFault form false ((bytes ++ piece.now) ++ more)) }
        ensures fault { fault_in result ≡ self.new.fault }
        ensures again { IfSome self.old.fault (λ fault. (result ≡ Err fault) × (self.new ≡ self.old)) }
    {
        self.judge.feed(piece)
    }

    /// Ends the log, and gives the verdict on its events. It fails exactly where the whole log has a fault, or for want of memory;
    /// after a fault of `feed` with that.
    pub fn finish(self) -> Result<Verdict, JudgeFault>
        ensures verdict { (table : Table) (name : List ℕ) (form : Form) (budget : ℕ) (bytes : List ℕ) → IsJudging table name form budget bytes self
            → IfOk result (IsVerdictOn table name form budget bytes) }
        ensures fault { (table : Table) (name : List ℕ) (form : Form) (budget : ℕ) (bytes : List ℕ) → IsJudging table name form budget bytes self
            → IfErr result (IsJudgeFault form false bytes) }
        ensures again { IfSome self.fault (λ fault. result ≡ Err fault) }
    {
        verdicts_are_told();
        self.judge.finish()
    }

    /// The largest weight of what is left of the chart's term after the events of all lines that have ended within the bytes fed,
    /// from the moment before the first, as far as the budget isn't passed; 0 where the term alone is above it. After a fault it has
    /// no meaning. It takes no memory.
    pub fn largest(&self) -> u64
        ensures { (table : Table) (name : List ℕ) (form : Form) (budget : ℕ) (bytes : List ℕ) → IsJudging table name form budget bytes self.now
            → IsLargestOn table name form budget bytes result }
    {
        self.judge.largest()
    }
}
