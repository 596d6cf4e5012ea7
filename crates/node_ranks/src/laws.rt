//! The laws.

ghost use Rattle.node_ranks.specs.NodeRanks.{DeeperIsSame, NodesAreRanked};

/// What the nodes of an expansion's graphs come to can be ranked, where each chart that is named can be by itself.
#[tactic(auto, using(crate::proofs::WalkRanks::nodes_are_ranked))]
pub fn nodes_are_ranked()
    ensures { NodesAreRanked }
{}

/// The expansion of a chart that is nested less deep is the same at each greater depth.
#[tactic(auto, using(crate::proofs::Deeper::deeper_is_same))]
pub fn deeper_is_same()
    ensures { DeeperIsSame }
{}
