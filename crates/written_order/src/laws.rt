//! The law of charts that are written in order, as the contract of a function that does nothing.

ghost use Rattle.written_order.specs.RisingLaws.{RisingChartsAreRanked};

/// The expansion of a chart that is written in order, as are those that it names, can be ranked.
#[tactic(auto, using(crate::proofs::RisingRanks::rising_charts_are_ranked))]
pub fn rising_charts_are_ranked()
    ensures { RisingChartsAreRanked }
{}
