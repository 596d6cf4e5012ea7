//! The laws of walks through the net of a graph. Each is the contract of a function that does nothing.

ghost use Rattle.graph_walks.specs.GraphLaws.{GraphTermsMean, TextWalksNet};
ghost use Rattle.graph_walks.specs.WorkedWalk.{WalkIsMet};

use sound_terms::laws::{tables_stay_sound, walks_stay_within};
use term_laws::laws::{
    constructors_keep_soundness, fresh_terms_are_sound, later_tables_agree,
    normal_forms_keep_patterns,
};

/// The walks of a graph's text are the walks through its net.
#[tactic(auto, using(crate::proofs::WalkSets::text_walks_net))]
pub fn walks_are_of_text()
    ensures { TextWalksNet }
{}

/// The walks through the net of a graph, whose node terms mean what the nodes do, mean the walks of the graph.
#[tactic(auto, using(crate::proofs::GraphMade::graph_terms_mean))]
pub fn graph_terms_mean()
    ensures { GraphTermsMean }
{
    normal_forms_keep_patterns();
    later_tables_agree();
    fresh_terms_are_sound();
    constructors_keep_soundness();
    tables_stay_sound();
    walks_stay_within();
}

/// A graph of two nodes, each of a chart of one action: the terms of its nodes and its net meet what the laws ask.
#[tactic(auto, using(crate::proofs::WorkedWalk::walk_is_met))]
pub fn a_walk_is_met()
    ensures { WalkIsMet }
{
    normal_forms_keep_patterns();
    later_tables_agree();
    constructors_keep_soundness();
    graph_terms_mean();
}
