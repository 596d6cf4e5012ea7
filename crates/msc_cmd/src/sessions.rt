//! The command `sessions`: document, chart and a log of many sessions, each of which is judged by itself. For `command` alone.

ghost use Rattle.std.specs.Prelude.{◌≡◌, ◌<◌, ◌≤◌, ◌++◌, ℕ, List, IfOk, OnOk, false, flat_map};
ghost use Rattle.judge_report.specs.Texts.{fault_line};
ghost use Rattle.judge_report.specs.declared.fault.Fault.TheVariants.{LogRead};
ghost use Rattle.msc_acceptance.specs.AcceptedCharts.{IsAcceptedTable};
ghost use Rattle.msc_base.specs.declared.limits.TheConstants.Limits.{BUDGET_MOST};
ghost use Rattle.msc_meaning.specs.Views.{table_view};
ghost use Rattle.msc_cmd.specs.Documents.{HasChartNamed};
ghost use Rattle.msc_cmd.specs.Failures.{FailedAt, CannotRead};
ghost use Rattle.msc_cmd.specs.LogJudging.{JudgeSetting};
ghost use Rattle.msc_cmd.specs.Outcomes.{EntryOutcome, FilesOutcome, IfTold, IsTheOne};
ghost use Rattle.msc_cmd.specs.SessionJudging.{AreJudged, IsToldOfSessions};
ghost use Rattle.msc_cmd.specs.SessionOutcomes.{SessionsAnswer, answer_line, has_status, sessions_list, worst_status};

use crate::answer::{Reply, make_reply, status_for};
use crate::document::has_chart;
use crate::opening::{Opened, open_document};
use crate::session_reading::{SessionsJudged, judge_sessions};
use entry_reading::ReadFault;
use event_log::LogForm;
use judge_report::{Fault, session_line, sessions_end};
use msc_acceptance::Accepted;
use msc_base::{NoMemory, Text};
use outside::Shelf;
use session_judge::{SessionVerdict, SessionVerdictList};
use std::alloc::Global;

/// Whether a session has a verdict of this status.
fn has_status(answers: &[SessionVerdict], status: u8) -> bool
    ensures { result ≡ has_status status answers.now }
{
    answers
        .iter()
        .any(|answer| status_for(&answer.verdict) == status)
}

/// The status of the gravest verdict: that of a session that fails, else of one that is too large, else of one that stops early.
fn worst_status(answers: &[SessionVerdict]) -> u8
    ensures status { result ≡ worst_status answers.now }
    ensures small { result < 7 }
    ensures not_two { result ≡ 2 → ⊥ }
{
    if has_status(answers, 1) {
        return 1;
    }
    if has_status(answers, 6) {
        return 6;
    }
    if has_status(answers, 3) {
        return 3;
    }
    0
}

/// Appends the line of a session.
fn push_answer(alloc: Global, answer: &SessionVerdict, bytes: &mut Vec<u8>) -> Result<(), NoMemory>
    ensures { OnOk result (bytes.new.items ≡ bytes.old.items ++ answer_line answer.now) }
{
    let line = session_line(alloc, answer.key.name(), &answer.verdict)?;
    bytes.extend_from_slice(line.bytes())?;
    Ok(())
}

#[tactic(auto, using(judge_report::proofs::ListTexts::more_items))]
/// The lines of sessions.
fn answer_lines(alloc: Global, answers: &[SessionVerdict]) -> Result<Vec<u8>, NoMemory>
    ensures { IfOk result (λ bytes. bytes.items ≡ flat_map answer_line answers.now) }
{
    let mut bytes = Vec::new(alloc);
    for answer in answers {
        push_answer(alloc, answer, &mut bytes)?;
    }
    Ok(bytes)
}

/// The line of each session, and how many they are.
fn sessions_text(alloc: Global, answers: &SessionVerdictList) -> Result<Text, NoMemory>
    ensures { IfOk result (λ text. text ≡ sessions_list answers.now) }
{
    let mut bytes = answer_lines(alloc, answers.as_slice())?;
    let last = sessions_end(alloc, answers.len() as u64)?;
    bytes.extend_from_slice(last.bytes())?;
    Ok(Text::from_vec(bytes))
}

/// The reply for a log of sessions that has been judged.
fn answer_sessions(alloc: Global, judged: &SessionsJudged) -> Result<Reply, NoMemory>
    requires told { IsToldOfSessions judged.now }
    ensures small { IfOk result (λ r. r.status < 7) }
    ensures not_two { IfOk result (λ r. r.status ≡ 2 → ⊥) }
    ensures outcome { (setting : JudgeSetting) (bytes : List ℕ) → AreJudged setting bytes judged.now
        → IfOk result (λ r. IsTheOne (SessionsAnswer setting.form setting.budget setting.chart setting.table bytes) r.status r.text) }
{
    match judged {
        SessionsJudged::Told(answers) => {
            let text = sessions_text(alloc, answers)?;
            Ok(Reply {
                status: worst_status(answers.as_slice()),
                text,
            })
        }
        SessionsJudged::Refused(fault) => {
            make_reply(alloc, 5, &Fault::Log { fault: *fault }, false)
        }
    }
}

/// The reply for the log of this name, whose sessions are judged by the chart of that.
fn sessions_log<S: Shelf>(
    alloc: Global,
    accepted: &Accepted,
    chart: &[u8],
    log: &Text,
    form: LogForm,
    budget: u64,
    shelf: &mut S,
) -> Result<Reply, NoMemory>
    requires accepted { IsAcceptedTable (table_view accepted.now) }
    requires there { HasChartNamed (table_view accepted.now) chart.now }
    requires least { 1 ≤ budget }
    requires most { budget ≤ BUDGET_MOST }
    ensures later { S.faults shelf.old ≤ S.faults shelf.new }
    ensures small { IfOk result (λ r. r.status ≤ 7) }
    ensures not_two { IfOk result (λ r. r.status ≡ 2 → ⊥) }
    ensures outcome { IfOk result (λ r. r.status < 7 → IfTold (S.files shelf.old) (λ f. IsTheOne (EntryOutcome f log.now (SessionsAnswer form budget chart.now (table_view accepted.now))) r.status r.text)) }
    ensures failed { IfOk result (λ r. r.status ≡ 7 → FailedAt (S.faults shelf.old) (S.faults shelf.new) (S.broken shelf.new) (S.last shelf.new) log.now) }
    ensures text { IfOk result (λ r. r.status ≡ 7 → r.text ≡ fault_line false LogRead) }
{
    let judged = match judge_sessions(alloc, shelf, accepted, chart, log, form, budget) {
        Ok(judged) => judged,
        Err(ReadFault::Failed) => return make_reply(alloc, 7, &Fault::LogRead, false),
        Err(ReadFault::NoMemory) => return Err(NoMemory),
    };
    answer_sessions(alloc, &judged)
}

/// The reply for the document, the chart and the log of sessions of these names. The budget is that of each session.
pub fn sessions_files<S: Shelf>(
    alloc: Global,
    document: &Text,
    name: &Text,
    log: &Text,
    form: LogForm,
    budget: u64,
    shelf: &mut S,
) -> Result<Reply, NoMemory>
    requires least { 1 ≤ budget }
    requires most { budget ≤ BUDGET_MOST }
    ensures small { IfOk result (λ r. r.status ≤ 7) }
    ensures not_two { IfOk result (λ r. r.status ≡ 2 → ⊥) }
    ensures outcome { IfOk result (λ r. r.status < 7 → IfTold (S.files shelf.old) (λ f. IsTheOne (FilesOutcome false f document.now name.now log.now (SessionsAnswer form budget name.now)) r.status r.text)) }
    ensures failed { IfOk result (λ r. r.status ≡ 7 → CannotRead false (S.files shelf.old) (S.faults shelf.old) (S.faults shelf.new) (S.broken shelf.new) (S.last shelf.new) document.now name.now log.now r.text) }
{
    let accepted = match open_document(alloc, document, false, shelf)? {
        Opened::Accepted(accepted) => accepted,
        Opened::Told(reply) => return Ok(reply),
    };
    if !has_chart(&accepted, name.bytes()) {
        return make_reply(alloc, 4, &Fault::NoChart, false);
    }
    sessions_log(alloc, &accepted, name.bytes(), log, form, budget, shelf)
}
