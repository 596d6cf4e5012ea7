//! The law. It is the contract of a function that does nothing.

ghost use Rattle.first_labels.specs.FirstLabels.{FirstLabelsAreTold};

use verdict_meaning::laws::HasUnfoldings;

/// Something is left of a term after an event with a label exactly where one of the unfoldings that it means may begin with it.
#[tactic(auto, using(crate::proofs::FirstLabels::first_labels_are_told))]
pub fn first_labels_are_told<U: HasUnfoldings>()
    ensures { (chart : U) → FirstLabelsAreTold (U.begun chart) }
{}
