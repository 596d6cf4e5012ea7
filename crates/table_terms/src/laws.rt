//! The laws of the term of a chart of a table. Each is the contract of a function that does nothing.

ghost use Rattle.table_terms.specs.TableLaws.{TableTermsAreLight, TableTermsArePlaced, TableTermsAreSound, TableTermsMean};
ghost use Rattle.table_terms.specs.WorkedPremises.{PremisesAreMet};

use expanded_terms::{
    charts_are_light, events_are_placed, expanded_terms_mean, expansions_have_terms,
    expansions_hold, whole_charts_are_fit,
};
use expansion_terms::laws::made_terms_agree;
use gate_ends::ends_are_found;
use made_terms::laws::{made_terms_are_sound, walks_are_drawn};
use node_ranks::laws::nodes_are_ranked;

/// The term of a whole chart means the chart.
pub fn table_terms_mean()
    ensures { TableTermsMean }
{
    made_terms_agree();
    expanded_terms_mean();
    expansions_have_terms();
    whole_charts_are_fit();
    walks_are_drawn();
    nodes_are_ranked();
    ends_are_found();
    made_terms_are_sound();
}

/// The term of a chart is sound where its expansion can be ranked.
pub fn table_terms_are_sound()
    ensures { TableTermsAreSound }
{
    walks_are_drawn();
    nodes_are_ranked();
    ends_are_found();
    made_terms_are_sound();
}

/// The term of a chart, with the terms of the nodes of its nets, weighs no more than the chart's expanded size.
pub fn table_terms_are_light()
    ensures { TableTermsAreLight }
{
    made_terms_agree();
    charts_are_light();
    expansions_have_terms();
    expansions_hold();
}

/// Events of one label have the same instances.
#[tactic(auto, using(crate::proofs::TableLaws::table_terms_are_placed))]
pub fn table_terms_are_placed()
    ensures { TableTermsArePlaced }
{
    events_are_placed();
}

/// A chart that uses another twice, once in a loop, meets what the laws ask.
#[tactic(auto, using(crate::proofs::WorkedPremises::premises_are_met))]
pub fn premises_are_met()
    ensures { PremisesAreMet }
{}
