//! Replies, and the commands `judge` and `next`: document, chart and log, one after another. `command` calls it.

ghost use Rattle.std.specs.Prelude.{◌≡◌, ◌<◌, ◌≤◌, ℕ, List, IfOk};
ghost use Rattle.event_log.specs.declared.event.LogForm.{LogForm as Form};
ghost use Rattle.judge_report.specs.declared.fault.Fault.TheVariants.{LogRead};
ghost use Rattle.judge_report.specs.Texts.{IsTold, fault_line};
ghost use Rattle.msc_base.specs.declared.limits.TheConstants.Limits.{BUDGET_MOST};
ghost use Rattle.msc_acceptance.specs.AcceptedCharts.{IsAcceptedTable};
ghost use Rattle.msc_meaning.specs.Tables.{Table};
ghost use Rattle.msc_meaning.specs.Views.{table_view};
ghost use Rattle.msc_cmd.specs.Documents.{HasChartNamed};
ghost use Rattle.msc_cmd.specs.Failures.{FailedAt, CannotRead};
ghost use Rattle.msc_cmd.specs.LogJudging.{IsJudged, IsNextReply, IsToldLog, IsWanted};
ghost use Rattle.msc_cmd.specs.Outcomes.{EntryOutcome, FilesOutcome, IfTold, IsTheOne, LogAnswer, LogOutcome, TellsVerdict};
ghost use Rattle.msc_cmd.specs.VerdictStatuses.{status_of};

use crate::document::has_chart;
use crate::log_reading::{Judged, Wanted, judge_entry};
use crate::opening::{Opened, open_document};
use chart_judge::Next;
use entry_reading::ReadFault;
use event_log::LogForm;
use judge_report::{Fault, fault_text, next_text, verdict_text};
use msc_acceptance::Accepted;
use msc_base::{NoMemory, Text, Verdict};
use outside::Shelf;
use std::alloc::Global;

/// What is written, and the status that goes with it.
#[derive(Drop)]
pub struct Reply {
    pub status: u8,
    pub text: Text,
}

/// How a log is written and judged, and how the answer is told.
#[derive(Clone, Copy, Debug, PartialEq, Eq)]
pub struct Style {
    /// The form of the log.
    pub form: LogForm,
    /// The greatest weight of what may be left of the chart's term.
    pub budget: u64,
    /// Whether the answer is told in JSON.
    pub json: bool,
    /// What is wanted of the log.
    pub wanted: Wanted,
}

/// The reply that tells a fault.
pub fn make_reply(alloc: Global, status: u8, fault: &Fault, json: bool) -> Result<Reply, NoMemory>
    requires { IsTold fault.now }
    ensures status { IfOk result (λ r. r.status ≡ status) }
    ensures text { IfOk result (λ r. r.text ≡ fault_line json fault.now) }
{
    let text = fault_text(alloc, fault, json)?;
    Ok(Reply { status, text })
}

/// The status of a verdict.
pub fn status_for(verdict: &Verdict) -> u8
    ensures status { result ≡ status_of verdict.now }
    ensures not_two { result ≡ 2 → ⊥ }
{
    match verdict {
        Verdict::Conforms { .. } => 0,
        Verdict::Fails { .. } => 1,
        Verdict::Early { .. } => 3,
        Verdict::TooLarge { .. } => 6,
    }
}

/// The reply that tells a verdict.
fn answer_verdict(alloc: Global, verdict: &Verdict, json: bool) -> Result<Reply, NoMemory>
    ensures small { IfOk result (λ r. r.status < 7) }
    ensures not_two { IfOk result (λ r. r.status ≡ 2 → ⊥) }
    ensures told { IfOk result (λ r. TellsVerdict json verdict.now r.status r.text) }
{
    let text = verdict_text(alloc, verdict, json)?;
    Ok(Reply {
        status: status_for(verdict),
        text,
    })
}

/// The reply that tells what may come next in a log: the labels, where it may go on, and else the verdict.
fn answer_next(alloc: Global, next: &Next) -> Result<Reply, NoMemory>
    ensures small { IfOk result (λ r. r.status < 7) }
    ensures not_two { IfOk result (λ r. r.status ≡ 2 → ⊥) }
    ensures told { IfOk result (IsNextReply next.now) }
{
    match &next.verdict {
        Verdict::Conforms { .. } => {
            let text = next_text(alloc, &next.labels, true)?;
            Ok(Reply { status: 0, text })
        }
        Verdict::Early { .. } => {
            let text = next_text(alloc, &next.labels, false)?;
            Ok(Reply { status: 0, text })
        }
        Verdict::Fails { .. } | Verdict::TooLarge { .. } => {
            answer_verdict(alloc, &next.verdict, false)
        }
    }
}

/// The reply for a log that has been judged, of which this was wanted.
pub fn answer_log(
    alloc: Global,
    judged: &Judged,
    wanted: Wanted,
    json: bool,
) -> Result<Reply, NoMemory>
    requires told { IsToldLog judged.now }
    requires wanted { IsWanted wanted judged.now }
    ensures small { IfOk result (λ r. r.status < 7) }
    ensures not_two { IfOk result (λ r. r.status ≡ 2 → ⊥) }
    ensures outcome { (table : Table) (name : List ℕ) (form : Form) (budget : ℕ) (bytes : List ℕ) → IsJudged table name form budget bytes judged.now
        → IfOk result (λ r. IsTheOne (LogOutcome wanted form budget json table name bytes) r.status r.text) }
{
    match judged {
        Judged::Told(verdict) => answer_verdict(alloc, verdict, json),
        Judged::Next(next) => answer_next(alloc, next),
        Judged::Refused(fault) => make_reply(alloc, 5, &Fault::Log { fault: *fault }, json),
    }
}

/// The reply for the log of this name, judged by the chart of that.
fn judge_log<S: Shelf>(
    alloc: Global,
    accepted: &Accepted,
    chart: &[u8],
    log: &Text,
    style: Style,
    shelf: &mut S,
) -> Result<Reply, NoMemory>
    requires accepted { IsAcceptedTable (table_view accepted.now) }
    requires there { HasChartNamed (table_view accepted.now) chart.now }
    requires least { 1 ≤ style.budget }
    requires most { style.budget ≤ BUDGET_MOST }
    ensures later { S.faults shelf.old ≤ S.faults shelf.new }
    ensures small { IfOk result (λ r. r.status ≤ 7) }
    ensures not_two { IfOk result (λ r. r.status ≡ 2 → ⊥) }
    ensures outcome { IfOk result (λ r. r.status < 7 → IfTold (S.files shelf.old) (λ f. IsTheOne (EntryOutcome f log.now (LogAnswer style.wanted style.form style.budget style.json chart.now (table_view accepted.now))) r.status r.text)) }
    ensures failed { IfOk result (λ r. r.status ≡ 7 → FailedAt (S.faults shelf.old) (S.faults shelf.new) (S.broken shelf.new) (S.last shelf.new) log.now) }
    ensures text { IfOk result (λ r. r.status ≡ 7 → r.text ≡ fault_line style.json LogRead) }
{
    let read = judge_entry(
        alloc,
        shelf,
        accepted,
        chart,
        log,
        style.form,
        style.budget,
        style.wanted,
    );
    let judged = match read {
        Ok(judged) => judged,
        Err(ReadFault::Failed) => return make_reply(alloc, 7, &Fault::LogRead, style.json),
        Err(ReadFault::NoMemory) => return Err(NoMemory),
    };
    answer_log(alloc, &judged, style.wanted, style.json)
}

/// The reply for the document, the chart and the log of these names.
pub fn judge_files<S: Shelf>(
    alloc: Global,
    document: &Text,
    name: &Text,
    log: &Text,
    style: Style,
    shelf: &mut S,
) -> Result<Reply, NoMemory>
    requires least { 1 ≤ style.budget }
    requires most { style.budget ≤ BUDGET_MOST }
    ensures small { IfOk result (λ r. r.status ≤ 7) }
    ensures not_two { IfOk result (λ r. r.status ≡ 2 → ⊥) }
    ensures outcome { IfOk result (λ r. r.status < 7 → IfTold (S.files shelf.old) (λ f. IsTheOne (FilesOutcome style.json f document.now name.now log.now (LogAnswer style.wanted style.form style.budget style.json name.now)) r.status r.text)) }
    ensures failed { IfOk result (λ r. r.status ≡ 7 → CannotRead style.json (S.files shelf.old) (S.faults shelf.old) (S.faults shelf.new) (S.broken shelf.new) (S.last shelf.new) document.now name.now log.now r.text) }
{
    let accepted = match open_document(alloc, document, style.json, shelf)? {
        Opened::Accepted(accepted) => accepted,
        Opened::Told(reply) => return Ok(reply),
    };
    if !has_chart(&accepted, name.bytes()) {
        return make_reply(alloc, 4, &Fault::NoChart, style.json);
    }
    judge_log(alloc, &accepted, name.bytes(), log, style, shelf)
}
