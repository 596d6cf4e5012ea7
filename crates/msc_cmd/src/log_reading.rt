//! Reads a log from the shelf, piece by piece, and judges it as it comes, up to its end or a fault: for `answer`.

ghost use Rattle.std.specs.Prelude.{◌≡◌, ◌≤◌, ℕ, List, Option, Some, IfOk, IsErrOf, true};
ghost use Rattle.outside.specs.Causes.{Rose};
ghost use Rattle.outside.specs.Shelves.{Files};
ghost use Rattle.msc_base.specs.declared.limits.TheConstants.Limits.{BUDGET_MOST};
ghost use Rattle.msc_acceptance.specs.AcceptedCharts.{IsAcceptedTable};
ghost use Rattle.msc_meaning.specs.Views.{table_view};
ghost use Rattle.msc_cmd.specs.Documents.{HasChartNamed};
ghost use Rattle.entry_reading.specs.Consuming.{HasTakenEntry};
ghost use Rattle.msc_cmd.specs.LogJudging.{IsFed, IsJudgedLog, IsWanted, JudgeSetting};
ghost use Rattle.msc_cmd.specs.declared.log_reading.Wanted.TheVariants.{TheVerdict, NextLabels};

use chart_judge::{ChartJudge, Next};
use entry_reading::{Consumer, ReadFault, read_entry};
use event_log::{LogFault, LogForm};
use log_judge::JudgeFault;
use msc_acceptance::Accepted;
use msc_base::{NoMemory, Text, Verdict};
use outside::Shelf;
use std::alloc::Global;

/// What is wanted of a log.
#[derive(Clone, Copy, Debug, PartialEq, Eq)]
pub enum Wanted {
    /// The verdict on its events.
    TheVerdict,
    /// The labels that may come next.
    NextLabels,
}

/// What the bytes of a log come to for a chart.
#[derive(Drop)]
pub enum Judged {
    /// A log, on whose events this is the verdict.
    Told(Verdict),
    /// A log, with the verdict on its events and the labels that may come next.
    Next(Next),
    /// No log: this is their first fault.
    Refused(LogFault),
}

/// A judge, as what takes the log that is read.
#[derive(Drop)]
struct FedJudge {
    judge: ChartJudge,
}

impl Consumer for FedJudge {
    type Refusal = LogFault;

    ghost use Rattle.msc_base.specs.declared.limits.TheConstants.Limits.{LOG_BYTES};
    ghost use Rattle.msc_cmd.specs.LogJudging.{JudgeSetting, IsFed, IsRefusedLog, fed_counts};

    ghost Setting = { JudgeSetting };

    ghost has_taken = { λ setting bytes fed. IsFed setting bytes fed.judge };

    ghost refuses = { λ setting bytes fault. IsRefusedLog setting.form bytes fault };

    ghost count = { λ fed. fed.judge.reader.count };

    ghost most = { LOG_BYTES };

    ghost counts = { λ setting bytes fed taken. fed_counts setting bytes fed.judge taken };

    fn take(&mut self, piece: &[u8]) -> Result<Option<LogFault>, NoMemory> {
        match self.judge.feed(piece) {
            Ok(()) => Ok(None),
            Err(JudgeFault::Log(fault)) => Ok(Some(fault)),
            Err(JudgeFault::NoMemory) => Err(NoMemory),
        }
    }
}

/// The verdict on the log that has been read.
fn verdict_of(judge: ChartJudge) -> Result<Judged, ReadFault>
    ensures log { (setting : JudgeSetting) (files : Option Files) (name : List ℕ) → HasTakenEntry (IsFed setting) files name judge
        → IfOk result (IsJudgedLog setting files name) }
    ensures wanted { IfOk result (IsWanted TheVerdict) }
    ensures failed { IsErrOf result ReadFault.Failed → ⊥ }
{
    match judge.finish() {
        Ok(verdict) => Ok(Judged::Told(verdict)),
        Err(JudgeFault::NoMemory) => Err(ReadFault::NoMemory),
        Err(JudgeFault::Log(fault)) => Ok(Judged::Refused(fault)),
    }
}

/// What may come next in the log that has been read.
fn next_of(judge: ChartJudge) -> Result<Judged, ReadFault>
    ensures log { (setting : JudgeSetting) (files : Option Files) (name : List ℕ) → HasTakenEntry (IsFed setting) files name judge
        → IfOk result (IsJudgedLog setting files name) }
    ensures wanted { IfOk result (IsWanted NextLabels) }
    ensures failed { IsErrOf result ReadFault.Failed → ⊥ }
{
    match judge.next() {
        Ok(next) => Ok(Judged::Next(next)),
        Err(JudgeFault::NoMemory) => Err(ReadFault::NoMemory),
        Err(JudgeFault::Log(fault)) => Ok(Judged::Refused(fault)),
    }
}

/// What the log that has been read comes to, by what is wanted of it.
fn ended(judge: ChartJudge, wanted: Wanted) -> Result<Judged, ReadFault>
    ensures log { (setting : JudgeSetting) (files : Option Files) (name : List ℕ) → HasTakenEntry (IsFed setting) files name judge
        → IfOk result (IsJudgedLog setting files name) }
    ensures wanted { IfOk result (IsWanted wanted) }
    ensures failed { IsErrOf result ReadFault.Failed → ⊥ }
{
    match wanted {
        Wanted::TheVerdict => verdict_of(judge),
        Wanted::NextLabels => next_of(judge),
    }
}

/// Reads the log of this name to its end, or to the piece in which a fault is decided, and judges it by the chart of that name.
pub fn judge_entry<S: Shelf>(
    alloc: Global,
    shelf: &mut S,
    accepted: &Accepted,
    chart: &[u8],
    name: &Text,
    form: LogForm,
    budget: u64,
    wanted: Wanted,
) -> Result<Judged, ReadFault>
    requires accepted { IsAcceptedTable (table_view accepted.now) }
    requires there { HasChartNamed (table_view accepted.now) chart.now }
    requires least { 1 ≤ budget }
    requires most { budget ≤ BUDGET_MOST }
    ensures files { S.files shelf.new ≡ S.files shelf.old }
    ensures later { S.faults shelf.old ≤ S.faults shelf.new }
    ensures log { IfOk result (IsJudgedLog (record { table = table_view accepted.now; chart = chart.now; form = form; budget = budget }) (S.files shelf.old) name.now) }
    ensures wanted { IfOk result (IsWanted wanted) }
    ensures failed { IsErrOf result ReadFault.Failed → Rose (S.faults shelf.old) (S.faults shelf.new) }
    ensures broken { IsErrOf result ReadFault.Failed → S.broken shelf.new ≡ true }
    ensures last { IsErrOf result ReadFault.Failed → S.last shelf.new ≡ Some name.now }
{
    let judge = ChartJudge::new(alloc, accepted, chart, form, budget)?;
    let mut fed = FedJudge { judge };
    match read_entry(alloc, shelf, name, &mut fed)? {
        None => ended(fed.judge, wanted),
        Some(fault) => Ok(Judged::Refused(fault)),
    }
}
