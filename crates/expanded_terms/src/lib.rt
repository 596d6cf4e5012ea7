//! The terms of charts with references, gates, joins and decomposed instances: which term it is, that it means the chart, and when it is
//! sound.
#![tactic(auto)]

ghost use Rattle.expanded_terms.specs.DeeperCharts.{DeeperIsSame};
ghost use Rattle.expanded_terms.specs.ExpandedLaws.{ExpandedTermsMean};
ghost use Rattle.expanded_terms.specs.ExpansionLaws.{ExpansionsHaveTerms, ExpansionsHold};
ghost use Rattle.expanded_terms.specs.ExpansionNumbers.{ExpansionsAreNumbered};
ghost use Rattle.expanded_terms.specs.ExpandedSizes.{ExpandedTermsWeigh};
ghost use Rattle.expanded_terms.specs.RankedTerms.{RankedExpansionsAreSound};
ghost use Rattle.expanded_terms.specs.FewPairs.{FewPairsHaveRoom};
ghost use Rattle.expanded_terms.specs.GraphWalks.{NetsAreWhole};
ghost use Rattle.expanded_terms.specs.JoinProducts.{ChartsAreLight};
ghost use Rattle.expanded_terms.specs.OperandTerms.{TakenItemsMean};
ghost use Rattle.expanded_terms.specs.PlacedTerms.{EventsArePlaced};
ghost use Rattle.expanded_terms.specs.WholeCharts.{WholeChartsAreFit};
ghost use Rattle.expanded_terms.specs.WorkedExpansion.{GateExpands};
ghost use Rattle.expanded_terms.specs.WorkedPremises.{PremisesAreMet};
ghost use Rattle.expanded_terms.specs.WorkedTerms.{TermsExpand};

use graph_walks::laws::walks_are_of_text;
use sound_terms::laws::{
    constructors_weigh, numbers_are_kept, tables_stay_sound, ties_are_once_by_form,
    walks_stay_within,
};
use term_laws::laws::{
    constructors_keep_soundness, fresh_terms_are_sound, later_tables_agree,
    normal_forms_keep_patterns,
};

/// The term of a chart means the chart, with all charts that it names.
#[tactic(auto, using(crate::proofs::ChartParts::expanded_terms_mean))]
pub fn expanded_terms_mean()
    ensures { ExpandedTermsMean }
{
    normal_forms_keep_patterns();
    later_tables_agree();
    fresh_terms_are_sound();
    constructors_keep_soundness();
    walks_stay_within();
    walks_are_of_text();
}

/// The term of items of a level where they stand means their unfoldings, tied as the level is.
#[tactic(auto, using(crate::proofs::OperandTerms::taken_items_mean))]
pub fn taken_items_mean()
    ensures { TakenItemsMean }
{
    normal_forms_keep_patterns();
    later_tables_agree();
    fresh_terms_are_sound();
    constructors_keep_soundness();
    walks_stay_within();
    walks_are_of_text();
}

/// The term of a chart is that of its expansion.
#[tactic(auto, using(crate::proofs::ExpansionTerms::expansions_have_terms))]
pub fn expansions_have_terms()
    ensures { ExpansionsHaveTerms }
{}

/// What the nodes of the walks of an expansion weigh together is told by the text of the chart and of those that it names.
#[tactic(auto, using(crate::proofs::HeldWeights::expansions_hold))]
pub fn expansions_hold()
    ensures { ExpansionsHold }
{}

/// The events of an expansion are numbered one after another, so each number stands once.
#[tactic(auto, using(crate::proofs::ExpansionNumbers::expansions_are_numbered))]
pub fn expansions_are_numbered()
    ensures { ExpansionsAreNumbered }
{}

/// The term of an expansion is sound where the expansion can be ranked.
#[tactic(auto, using(crate::proofs::RankedTerms::ranked_expansions_are_sound))]
pub fn ranked_expansions_are_sound()
    ensures { RankedExpansionsAreSound }
{
    constructors_keep_soundness();
    ties_are_once_by_form();
    numbers_are_kept();
    tables_stay_sound();
}

/// A chart that calls a gate through two levels: its term, and that it meets what the laws ask.
#[tactic(auto, using(crate::proofs::WorkedExpansion::gate_expands))]
pub fn a_gate_expands()
    ensures { GateExpands }
{}

/// A join between two references, a gate of an inline expression, and a decomposed instance: their terms.
#[tactic(auto, using(crate::proofs::WorkedTerms::terms_expand))]
pub fn terms_expand()
    ensures { TermsExpand }
{}

/// A join between two references, a gate of an inline expression, and a decomposed instance: they meet what the laws ask.
#[tactic(auto, using(crate::proofs::WorkedPremises::premises_are_met))]
pub fn premises_are_met()
    ensures { PremisesAreMet }
{}

/// An event stands where its label says.
#[tactic(auto, using(crate::proofs::PlacedTerms::events_are_placed))]
pub fn events_are_placed()
    ensures { EventsArePlaced }
{}

/// The term of a chart weighs no more than the chart's expanded size.
#[tactic(auto, using(crate::proofs::TermWeights::expanded_terms_weigh))]
pub fn expanded_terms_weigh()
    ensures { ExpandedTermsWeigh }
{
    constructors_weigh();
}

/// A level whose gates are called by one event at most has room for its pairs.
#[tactic(auto, using(crate::proofs::FewPairs::few_pairs_have_room))]
pub fn few_pairs_have_room()
    ensures { FewPairsHaveRoom }
{}

/// The term of a chart weighs no more than the chart's expanded size, by what its levels have.
#[tactic(auto, using(crate::proofs::LightCharts::charts_are_light))]
pub fn charts_are_light()
    ensures { ChartsAreLight }
{
    constructors_weigh();
}

/// A chart that is whole by its text and all of whose events can be named is fit.
#[tactic(auto, using(crate::proofs::WholeCharts::whole_charts_are_fit))]
pub fn whole_charts_are_fit()
    ensures { WholeChartsAreFit }
{}

/// What is counted and shown of a chart is the same at each depth that is enough for it.
#[tactic(auto, using(crate::proofs::DeeperCharts::deeper_is_same))]
pub fn deeper_is_same()
    ensures { DeeperIsSame }
{}

/// A graph with few lines, in which no label is unknown or stands twice, has its net.
pub fn nets_are_whole()
    ensures { NetsAreWhole }
{}
