//! The laws of what charts are woven to. Each is the contract of a function that does nothing.

ghost use Rattle.woven_laws.specs.BuiltCharts.{BuiltChartsAreKnown, WovenChartsAreKnown};
ghost use Rattle.woven_laws.specs.JoinedCharts.{GatheredChartsAreKnown};
ghost use Rattle.woven_laws.specs.NumberLaws.{WovenNumbersDiffer};

/// The events of the body that a chart is woven to have different numbers, at any depth.
#[tactic(auto, using(crate::proofs::Differing::woven_numbers_differ))]
pub fn woven_numbers_differ()
    ensures { WovenNumbersDiffer }
{}

/// What a chart whose forms are built is woven to is built.
#[tactic(auto, using(crate::proofs::BuiltLaws::built_charts_are_known))]
pub fn built_charts_are_known()
    ensures { BuiltChartsAreKnown }
{}

/// What a chart is woven to is no larger than its text and the charts of its links, which are those that it names; its events have different
/// numbers.
#[tactic(auto, using(crate::proofs::WovenSizes::woven_charts_are_known))]
pub fn woven_charts_are_known()
    ensures { WovenChartsAreKnown }
{
    woven_numbers_differ();
}

/// A level as it is woven has no more inner events of a gate than as it is gathered, and its joins add no more to the size of its chart; what
/// a chart is gathered to names the charts of its links.
#[tactic(auto, using(crate::proofs::GatheredJoins::gathered_charts_are_known))]
pub fn gathered_charts_are_known()
    ensures { GatheredChartsAreKnown }
{}
