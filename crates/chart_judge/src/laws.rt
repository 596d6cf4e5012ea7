//! The laws of a chart's term and of the verdict by it. Each is the contract of a function that does nothing.

ghost use Rattle.chart_judge.specs.ChartBudgets.{ChartBudgetsSuffice};
ghost use Rattle.chart_judge.specs.ChartsTold.{ChartsHaveRuns, ChartsHaveTerms, VerdictsAreTold};
ghost use Rattle.chart_judge.specs.LargestWeights.{LargestIsTold};
ghost use Rattle.chart_judge.specs.NextLabels.{BeginningsAreTold};

use expanded_terms::nets_are_whole;
use gate_ends::ends_are_found;
use graph_rules::laws::walks_end;
use table_terms::laws::{
    table_terms_are_light, table_terms_are_placed, table_terms_are_sound, table_terms_mean,
};
use trace_judge::laws::{sets_go_on, verdicts_tell_runs};
use verdict_meaning::laws::budget_suffices;

/// A chart of an accepted table has one term, for which there is room; it means the chart's unfoldings, is sound, and weighs, with
/// the terms of the nodes of its nets, no more than the chart's expanded size and the limit of sizes.
pub fn charts_have_terms()
    ensures { ChartsHaveTerms }
{
    ends_are_found();
    nets_are_whole();
    walks_end();
    table_terms_mean();
    table_terms_are_sound();
    table_terms_are_placed();
    table_terms_are_light();
}

/// The verdict by what is left of a chart's term is the verdict by the chart, and there is no other.
pub fn verdicts_are_told()
    ensures { VerdictsAreTold }
{
    charts_have_terms();
    verdicts_tell_runs();
}

/// A run of a chart's term begins with labels exactly where a run of the chart does.
pub fn beginnings_are_told()
    ensures { BeginningsAreTold }
{
    charts_have_terms();
}

/// Where the term of a chart of an accepted table is unambiguous, no log of n events is too large for a budget of 2·(n+1) times its
/// weight.
pub fn budgets_suffice()
    ensures { ChartBudgetsSuffice }
{
    charts_have_terms();
    budget_suffices();
}

/// Each unfolding of a chart of an accepted table has a linear order, and a run of the chart begins with no label.
pub fn charts_have_runs()
    ensures { ChartsHaveRuns }
{
    charts_have_terms();
}

/// Where a log conforms, the largest weight that its judge tells is that over all events of the log.
pub fn largest_weights_are_told()
    ensures { LargestIsTold }
{
    charts_have_terms();
    sets_go_on();
}
