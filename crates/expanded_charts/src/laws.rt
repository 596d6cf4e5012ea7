//! The laws of expansions. Each is the contract of a function that does nothing.

ghost use Rattle.expanded_charts.specs.WorkedExpansions.{ChartsExpand};

/// What a chart expands to that uses another twice, and one that calls a gate through two levels.
#[tactic(auto, using(crate::proofs::WorkedExpansions::charts_expand))]
pub fn charts_expand()
    ensures { ChartsExpand }
{}
