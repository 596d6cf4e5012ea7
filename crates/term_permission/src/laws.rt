//! What the calls ask of terms. Each law is the contract of a function that does nothing.

ghost use Rattle.term_permission.specs.ReadyBySoundness.{ReadyBySoundness};
ghost use Rattle.term_permission.specs.ReadyLaws.{ReadyIsKept};

/// The normalising constructors make ready terms of ready terms, and a ready term stays ready when one more net is stored.
#[tactic(auto, using(crate::proofs::ReadyTerms::ready_is_kept))]
pub fn ready_terms_are_kept()
    ensures { ReadyIsKept }
{}

/// A term that is sound in full, and its tables, are those of which permission and taking can be computed.
#[tactic(auto, using(crate::proofs::SoundReady::ready_by_soundness))]
pub fn sound_terms_are_ready()
    ensures { ReadyBySoundness }
{}
