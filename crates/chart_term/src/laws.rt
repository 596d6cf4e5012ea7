//! Laws of patterns and of equality. Each is the contract of a function that does nothing.

ghost use Rattle.chart_term.specs.Equality.{SameTreeIsExact};
ghost use Rattle.chart_term.specs.Order.{TermsAreOrdered};
ghost use Rattle.chart_term.specs.TermRuns.{TakesMinimal};

/// The test of equality says yes exactly where the terms are equal.
#[tactic(auto, using(crate::proofs::Equal::same_tree_is_exact))]
pub fn equality_is_exact()
    ensures { SameTreeIsExact }
{}

/// Taking an event out of a pattern is taking out a minimal position, with its pairs.
#[tactic(auto, using(crate::proofs::Positions::takes_at))]
pub fn taking_is_at_minimal_positions()
    ensures { TakesMinimal }
{}

/// The order of terms is total, and only equal terms compare as equal.
#[tactic(auto, using(crate::specs::OrderLaws::terms_are_ordered))]
pub fn terms_are_ordered()
    ensures { TermsAreOrdered }
{}
