//! What may come next in a log: the judge of a chart asked for the labels with which the log may go on.

ghost use Rattle.std.specs.Prelude.{◌≡◌, ◌++◌, ◌∷◌, [], ℕ, List, false, Err, IfOk, IfErr, IfSome, MatchOption};
ghost use Rattle.log_judge.specs.Judged.{IsJudgeFault};
ghost use Rattle.chart_judge.specs.Judging.{IsJudging};
ghost use Rattle.chart_judge.specs.NextLabels.{IsNextOn, IsTermNext};
ghost use Rattle.log_judge.specs.Ends.{HasEnded};
ghost use Rattle.chart_term.specs.Terms.{Tree};
ghost use Rattle.event_log.specs.declared.event.LogForm.{LogForm as Form};
ghost use Rattle.line_events.specs.declared.event.LineEvent.{LineEvent};
ghost use Rattle.msc_meaning.specs.Tables.{Table};
ghost use Rattle.next_labels.specs.NextLabels.{AreAll};
ghost use Rattle.term_sets.specs.Memories.{IsPoolFor};
ghost use Rattle.term_sets.specs.contracts.pool.PoolStore.TheImpl.{holds-value, serves-value};
ghost use Rattle.term_tables.specs.NetValues.{NetsValue};
ghost use Rattle.trace_judge.specs.Logs.{BeginsTermRun, labels_of};
ghost use Rattle.trace_judge.specs.Tracks.{Fed, IfHeld};

use crate::ChartJudge;
use crate::laws::{beginnings_are_told, verdicts_are_told};
use log_judge::{Ended, JudgeFault};
use msc_base::{LabelList, NoMemory, Verdict};
use next_labels::laws::label_lists_are_one;
use next_labels::next_labels;
use std::alloc::Global;
use term_sets::Pool;
use term_tables::Nets;
use trace_judge::Track;
use trace_judge::laws::sets_tell_next_labels;

/// What may come next in a log.
#[derive(Drop)]
pub struct Next {
    /// The verdict on the events so far.
    pub verdict: Verdict,
    /// The labels with which the log may go on, in their order: where it conforms or stops early. Else none.
    pub labels: LabelList,
}

/// The labels with which the term's runs go on behind the events that the track has taken; none where its verdict is settled.
fn labels_behind(alloc: Global, nets: &Nets, track: &Track<Pool>) -> Result<LabelList, NoMemory>
    requires { IfHeld (λ set. serves-value.it set nets.now) track.now }
    ensures { IfOk result (λ labels. (x : Tree) (budget : ℕ) (events : List LineEvent) → Fed holds-value.it nets.now x budget events track.now
        → MatchOption track.now.ended (AreAll (λ a. BeginsTermRun nets.now x (labels_of events ++ a ∷ [])) labels) (λ verdict. labels ≡ [])) }
{
    sets_tell_next_labels();
    match track.open_set() {
        Some(pool) => next_labels(alloc, nets, pool.set()),
        None => Ok(LabelList::new(alloc)),
    }
}

/// What may come next behind all events of a log.
fn next_behind(ended: &Ended<Pool>) -> Result<Next, NoMemory>
    requires { IfHeld (λ set. serves-value.it set ended.now.nets.value) ended.now.track }
    ensures { (v : NetsValue) (x : Tree) (form : Form) (budget : ℕ) (bytes : List ℕ) → HasEnded holds-value.it v x form budget bytes ended.now.nets.value ended.now.track
        → IfOk result (IsTermNext v x form budget bytes) }
{
    let verdict = ended.track.verdict(ended.alloc, &ended.nets)?;
    let labels = labels_behind(ended.alloc, &ended.nets, &ended.track)?;
    Ok(Next { verdict, labels })
}

impl ChartJudge {
    /// Ends the log, and says what may come next in it: the verdict on its events, and where it conforms or stops early the labels
    /// with which it may go on. It fails exactly where the whole log has a fault, or for want of memory; after a fault of `feed` with
    /// that.
    pub fn next(self) -> Result<Next, JudgeFault>
        ensures next { (table : Table) (name : List ℕ) (form : Form) (budget : ℕ) (bytes : List ℕ) → IsJudging table name form budget bytes self
            → IfOk result (IsNextOn table name form budget bytes) }
        ensures fault { (table : Table) (name : List ℕ) (form : Form) (budget : ℕ) (bytes : List ℕ) → IsJudging table name form budget bytes self
            → IfErr result (IsJudgeFault form false bytes) }
        ensures again { IfSome self.fault (λ fault. result ≡ Err fault) }
    {
        verdicts_are_told();
        beginnings_are_told();
        label_lists_are_one();
        let ended = self.judge.end()?;
        let next = next_behind(&ended)?;
        Ok(next)
    }
}
