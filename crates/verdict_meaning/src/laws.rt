//! The laws that lead from residual terms to runs of unfoldings. Each is the contract of a function that does nothing.

ghost use Rattle.verdict_meaning.specs.Budgets.{BudgetSuffices};
ghost use Rattle.verdict_meaning.specs.ChartsTold.{ChartsAreTold};
ghost use Rattle.verdict_meaning.specs.MeaningTells.{MeaningTells};
ghost use Rattle.verdict_meaning.specs.MessageTold.{MessageIsTold};
ghost use Rattle.verdict_meaning.specs.NumberedRuns.{StandingRuns};
ghost use Rattle.verdict_meaning.specs.SetsThere.{SetsAreThere};

use chart_term::laws::equality_is_exact;
use term_laws::laws::{lists_are_exact, one_residual, sets_are_exact};
use term_meaning::laws::tied_rows_mean;
use trace_judge::laws::{sets_go_on, sets_tell_runs, verdicts_tell_runs};

/// What has unfoldings: finished ones, and those where walks under way count.
pub trait HasUnfoldings {
    ghost use Rattle.msc_unfolding.specs.Unfoldings.{Unfolding};

    ghost finished: { Self → Unfolding → Type 0 };

    ghost begun: { Self → Unfolding → Type 0 };
}

/// A pattern has the runs of the unfolding for which it stands, by labels.
#[tactic(auto, using(crate::proofs::Telling::standing_runs))]
pub fn standing_patterns_run()
    ensures { StandingRuns }
{}

/// Where a term means a set of unfoldings, its sets of residual terms and its verdicts tell their runs.
#[tactic(auto, using(crate::proofs::Telling::meaning_tells))]
pub fn meanings_tell_runs<U: HasUnfoldings>()
    ensures { (chart : U) → MeaningTells (U.finished chart) (U.begun chart) }
{
    sets_tell_runs();
    verdicts_tell_runs();
}

/// Where a sound term means the unfoldings of a chart, its residual terms and its verdicts tell what conforms to the chart and begins.
#[tactic(auto, using(crate::proofs::Charts::charts_are_told))]
pub fn charts_are_told()
    ensures { ChartsAreTold }
{
    sets_tell_runs();
    verdicts_tell_runs();
}

/// The term of a message is such a term.
#[tactic(auto, using(crate::proofs::Charts::message_is_told))]
pub fn a_message_is_told()
    ensures { MessageIsTold }
{
    tied_rows_mean();
}

/// There is a set of residual terms after every list of labels.
#[tactic(auto, using(crate::proofs::SetsThere::sets_are_there))]
pub fn sets_are_there()
    ensures { SetsAreThere }
{
    lists_are_exact();
    sets_are_exact();
    equality_is_exact();
    sets_go_on();
}

/// A budget of 2·(n+1) times the weight of an unambiguous term is never passed by a log of n events.
#[tactic(auto, using(crate::proofs::Budgets::budget_suffices))]
pub fn budget_suffices()
    ensures { BudgetSuffices }
{
    one_residual();
    equality_is_exact();
}
