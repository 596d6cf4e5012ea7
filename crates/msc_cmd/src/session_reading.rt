//! Reads a log of many sessions from the shelf, piece by piece, and judges each session as it comes, up to the log's end or a fault: for `sessions`.

ghost use Rattle.std.specs.Prelude.{◌≡◌, ◌≤◌, ℕ, List, Option, Some, IfOk, IsErrOf, true};
ghost use Rattle.outside.specs.Causes.{Rose};
ghost use Rattle.outside.specs.Shelves.{Files};
ghost use Rattle.entry_reading.specs.Consuming.{HasTakenEntry};
ghost use Rattle.msc_base.specs.declared.limits.TheConstants.Limits.{BUDGET_MOST};
ghost use Rattle.msc_acceptance.specs.AcceptedCharts.{IsAcceptedTable};
ghost use Rattle.msc_meaning.specs.Views.{table_view};
ghost use Rattle.msc_cmd.specs.Documents.{HasChartNamed};
ghost use Rattle.msc_cmd.specs.LogJudging.{JudgeSetting};
ghost use Rattle.msc_cmd.specs.SessionJudging.{AreFed, IsJudgedEntry};

use chart_sessions::ChartSessions;
use entry_reading::{Consumer, ReadFault, read_entry};
use event_log::{LogFault, LogForm};
use log_judge::JudgeFault;
use msc_acceptance::Accepted;
use msc_base::{NoMemory, Text};
use outside::Shelf;
use session_judge::SessionVerdictList;
use std::alloc::Global;

/// What the bytes of a log of sessions come to for a chart.
#[derive(Drop)]
pub enum SessionsJudged {
    /// A log, with the verdict on each of its sessions.
    Told(SessionVerdictList),
    /// No log: this is their first fault.
    Refused(LogFault),
}

/// A judge of sessions, as what takes the log that is read.
#[derive(Drop)]
struct FedSessions {
    sessions: ChartSessions,
}

impl Consumer for FedSessions {
    type Refusal = LogFault;

    ghost use Rattle.msc_base.specs.declared.limits.TheConstants.Limits.{LOG_BYTES};
    ghost use Rattle.msc_cmd.specs.LogJudging.{JudgeSetting};
    ghost use Rattle.msc_cmd.specs.SessionJudging.{AreFed, AreRefused, fed_counts};

    ghost Setting = { JudgeSetting };

    ghost has_taken = { λ setting bytes fed. AreFed setting bytes fed.sessions };

    ghost refuses = { λ setting bytes fault. AreRefused setting.form bytes fault };

    ghost count = { λ fed. fed.sessions.reader.count };

    ghost most = { LOG_BYTES };

    ghost counts = { λ setting bytes fed taken. fed_counts setting bytes fed.sessions taken };

    fn take(&mut self, piece: &[u8]) -> Result<Option<LogFault>, NoMemory> {
        match self.sessions.feed(piece) {
            Ok(()) => Ok(None),
            Err(JudgeFault::Log(fault)) => Ok(Some(fault)),
            Err(JudgeFault::NoMemory) => Err(NoMemory),
        }
    }
}

/// The verdicts on the sessions of the log that has been read.
fn verdicts_of(sessions: ChartSessions) -> Result<SessionsJudged, ReadFault>
    ensures log { (setting : JudgeSetting) (files : Option Files) (name : List ℕ) → HasTakenEntry (AreFed setting) files name sessions
        → IfOk result (IsJudgedEntry setting files name) }
    ensures failed { IsErrOf result ReadFault.Failed → ⊥ }
{
    match sessions.finish() {
        Ok(verdicts) => Ok(SessionsJudged::Told(verdicts)),
        Err(JudgeFault::NoMemory) => Err(ReadFault::NoMemory),
        Err(JudgeFault::Log(fault)) => Ok(SessionsJudged::Refused(fault)),
    }
}

/// Reads the log of this name to its end, or to the piece in which a fault is decided, and judges its sessions by the chart of that name.
pub fn judge_sessions<S: Shelf>(
    alloc: Global,
    shelf: &mut S,
    accepted: &Accepted,
    chart: &[u8],
    name: &Text,
    form: LogForm,
    budget: u64,
) -> Result<SessionsJudged, ReadFault>
    requires accepted { IsAcceptedTable (table_view accepted.now) }
    requires there { HasChartNamed (table_view accepted.now) chart.now }
    requires least { 1 ≤ budget }
    requires most { budget ≤ BUDGET_MOST }
    ensures files { S.files shelf.new ≡ S.files shelf.old }
    ensures later { S.faults shelf.old ≤ S.faults shelf.new }
    ensures log { IfOk result (IsJudgedEntry (record { table = table_view accepted.now; chart = chart.now; form = form; budget = budget }) (S.files shelf.old) name.now) }
    ensures failed { IsErrOf result ReadFault.Failed → Rose (S.faults shelf.old) (S.faults shelf.new) }
    ensures broken { IsErrOf result ReadFault.Failed → S.broken shelf.new ≡ true }
    ensures last { IsErrOf result ReadFault.Failed → S.last shelf.new ≡ Some name.now }
{
    let sessions = ChartSessions::new(alloc, accepted, chart, form, budget)?;
    let mut fed = FedSessions { sessions };
    match read_entry(alloc, shelf, name, &mut fed)? {
        None => verdicts_of(fed.sessions),
        Some(fault) => Ok(SessionsJudged::Refused(fault)),
    }
}
