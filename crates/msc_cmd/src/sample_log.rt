//! The log of a sample, drawn turn by turn and judged as it comes: for `sampling`.

ghost use Rattle.std.specs.Prelude.{◌≡◌, ◌≤◌, ◌<◌, ◌+◌, ℕ, [], IfOk, IfErr, OnOk, false, if◌then◌else◌};
ghost use Rattle.event_log.specs.declared.event.LogForm.TheVariants.{Lines};
ghost use Rattle.msc_acceptance.specs.AcceptedCharts.{IsAcceptedTable};
ghost use Rattle.msc_base.specs.declared.limits.TheConstants.Limits.{BUDGET_DEFAULT};
ghost use Rattle.msc_meaning.specs.Tables.{Table};
ghost use Rattle.msc_meaning.specs.Views.{table_view};
ghost use Rattle.msc_cmd.specs.Documents.{HasChartNamed};
ghost use Rattle.log_judge.specs.Judged.{IsJudgeFault};
ghost use Rattle.chart_judge.specs.Judging.{IsJudging};
ghost use Rattle.msc_requests.specs.declared.request.TheConstants.{MOST_SEED, MOST_TURNS};
ghost use Rattle.msc_cmd.specs.Samples.{means_yes, next_drawn, sample_log, sample_name, turn_lines, yes_count};
ghost use Rattle.msc_cmd.specs.Sampling.{IsSampled};

use chart_judge::ChartJudge;
use event_log::{LogFault, LogForm};
use log_judge::JudgeFault;
use msc_acceptance::Accepted;
use msc_base::{Limits, NoMemory, Verdict};
use msc_requests::{MOST_SEED, MOST_TURNS};
use std::alloc::Global;

/// What the log of a sample comes to for its chart.
#[derive(Clone, Copy, Debug, PartialEq, Eq)]
pub enum Sampled {
    /// A log, on whose events this is the verdict.
    Told {
        verdict: Verdict,
        /// How many turns are answered `yes`.
        yes: u64,
        /// The largest weight of what was left of the chart.
        largest: u64,
    },
    /// No log: this is its first fault.
    Refused(LogFault),
}

/// The number that is drawn behind this one.
fn next_drawn(drawn: u64) -> u64
    requires { drawn ≤ MOST_SEED }
    ensures next { result ≡ next_drawn drawn }
    ensures small { result ≤ MOST_SEED }
{
    (drawn * 1_103_515_245 + 12_345) % 2_147_483_648
}

/// Whether a turn is answered `yes` where this number is drawn.
fn means_yes(drawn: u64) -> bool
    ensures { result ≡ means_yes drawn }
{
    (drawn / 65_536) % 2 == 0
}

/// The number, and one more where a turn is answered `yes`.
fn counted(number: u64, yes: bool) -> u64
    requires { number < MOST_TURNS }
    ensures { result ≡ number + (if yes then 1 else 0) }
{
    if yes { number + 1 } else { number }
}

/// The lines of a turn.
fn turn_lines(yes: bool) -> &'static str
    ensures { result.now ≡ turn_lines yes }
{
    if yes {
        "c: out req to s;\ns: in req from c;\ns: out yes to c;\nc: in yes from s;\n"
    } else {
        "c: out req to s;\ns: in req from c;\ns: out no to c;\nc: in no from s;\n"
    }
}

/// Lets the judge take the log of so many turns, and says how many of them are answered `yes`.
fn take_turns(judge: &mut ChartJudge, turns: u64, seed: u64) -> Result<u64, JudgeFault>
    requires few { turns ≤ MOST_TURNS }
    requires seed { seed ≤ MOST_SEED }
    ensures yes { IfOk result (λ yes. yes ≡ yes_count turns seed) }
    ensures fed { (table : Table) → IsJudging table sample_name Lines BUDGET_DEFAULT [] judge.old
        → OnOk result (IsJudging table sample_name Lines BUDGET_DEFAULT (sample_log turns seed) judge.new) }
    ensures refused { (table : Table) → IsJudging table sample_name Lines BUDGET_DEFAULT [] judge.old
        → IfErr result (IsJudgeFault Lines false (sample_log turns seed)) }
{
    let mut drawn = seed;
    let mut yes = 0;
    for _ in 0..turns {
        drawn = next_drawn(drawn);
        let answer = means_yes(drawn);
        yes = counted(yes, answer);
        judge.feed(turn_lines(answer).as_bytes())?;
    }
    Ok(yes)
}

/// What the judge, to which nothing has been fed, says of the log of so many turns.
fn told_turns(mut judge: ChartJudge, turns: u64, seed: u64) -> Result<Sampled, JudgeFault>
    requires few { turns ≤ MOST_TURNS }
    requires seed { seed ≤ MOST_SEED }
    ensures told { (table : Table) → IsJudging table sample_name Lines BUDGET_DEFAULT [] judge
        → IfOk result (IsSampled turns seed table) }
    ensures refused { (table : Table) → IsJudging table sample_name Lines BUDGET_DEFAULT [] judge
        → IfErr result (IsJudgeFault Lines false (sample_log turns seed)) }
{
    let yes = take_turns(&mut judge, turns, seed)?;
    let largest = judge.largest();
    let verdict = judge.finish()?;
    Ok(Sampled::Told {
        verdict,
        yes,
        largest,
    })
}

/// What the log of so many turns comes to for the sample's chart.
pub fn judge_turns(
    alloc: Global,
    accepted: &Accepted,
    turns: u64,
    seed: u64,
) -> Result<Sampled, NoMemory>
    requires accepted { IsAcceptedTable (table_view accepted.now) }
    requires there { HasChartNamed (table_view accepted.now) sample_name }
    requires few { turns ≤ MOST_TURNS }
    requires seed { seed ≤ MOST_SEED }
    ensures { IfOk result (IsSampled turns seed (table_view accepted.now)) }
{
    let name = "S".as_bytes();
    let judge = ChartJudge::new(
        alloc,
        accepted,
        name,
        LogForm::Lines,
        Limits::BUDGET_DEFAULT,
    )?;
    match told_turns(judge, turns, seed) {
        Ok(sampled) => Ok(sampled),
        Err(JudgeFault::Log(fault)) => Ok(Sampled::Refused(fault)),
        Err(JudgeFault::NoMemory) => Err(NoMemory),
    }
}
