//! Which terms are made. Each law is the contract of a function that does nothing.

ghost use Rattle.expansion_terms.specs.MadeTerms.{MadeTermsAgree};

/// The term that is made is the expansion's, where each walk has the term that was made of it; and each of these is the walk to an end
/// through a net of the tables, whose nodes have the terms of the walk's parts. Where no number stands twice, each walk is found by its own.
#[tactic(auto, using(crate::proofs::MadeAgree::made_terms_agree))]
pub fn made_terms_agree()
    ensures { MadeTermsAgree }
{}
