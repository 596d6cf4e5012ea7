//! The law of walks, as the contract of a function that does nothing.

ghost use Rattle.hmsc_graph.specs.Graphs.{ReachIsExact};

/// The test for a walk through nodes that are allowed says yes exactly where there is one.
#[tactic(auto, using(crate::proofs::Reaching::reach_is_exact))]
pub fn reach_is_exact()
    ensures { ReachIsExact }
{}
