//! The laws of the terms and nets that are made of an expansion. Each is the contract of a function that does nothing.

ghost use Rattle.made_terms.specs.DrawnWalks.{WalksAreDrawn};
ghost use Rattle.made_terms.specs.MadeTerms.{MadeTermsAreSound};

use expanded_terms::ranked_expansions_are_sound;
use expansion_terms::laws::made_terms_agree;
use sound_terms::laws::tables_stay_sound;
use term_laws::laws::fresh_terms_are_sound;

/// Nets that are made over sound ones are sound, and so is the term of the judged expansion.
#[tactic(auto, using(crate::proofs::SoundNets::made_terms_are_sound))]
pub fn made_terms_are_sound()
    ensures { MadeTermsAreSound }
{
    made_terms_agree();
    ranked_expansions_are_sound();
    tables_stay_sound();
    fresh_terms_are_sound();
}

/// The walks of an expansion are through the graphs of the charts that it names, with a part for each line.
#[tactic(auto, using(crate::proofs::DrawnWalks::walks_are_drawn))]
pub fn walks_are_drawn()
    ensures { WalksAreDrawn }
{}
