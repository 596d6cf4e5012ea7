//! The law of chart terms, as the contract of a function that does nothing.

ghost use Rattle.empty_terms.specs.ChartTerms.{SoundTermsServe};

/// A sound term is one that can be asked, as soon as nothing of it and its nets has begun.
#[tactic(auto, using(crate::proofs::Serving::sound_terms_serve))]
pub fn sound_terms_serve()
    ensures { SoundTermsServe }
{}
