//! Laws of labels. Each is the contract of a function that does nothing.

ghost use Rattle.label_table.specs.Labels.{SameLabelIsExact};

/// The test of equality says yes exactly where the labels are equal.
#[tactic(auto, using(crate::proofs::Equality::same_label_is_exact))]
pub fn label_equality_is_exact()
    ensures { SameLabelIsExact }
{}
