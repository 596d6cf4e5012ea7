//! The laws of lists of labels. Each is the contract of a function that does nothing.

ghost use Rattle.next_labels.specs.NextLabels.{LabelListsAreOne};

/// There is one list of the same labels in their order.
#[tactic(auto, using(crate::proofs::Rising::label_lists_are_one))]
pub fn label_lists_are_one()
    ensures { LabelListsAreOne }
{}
