//! Laws of choices. Each is the contract of a function that does nothing.

ghost use Rattle.choice_meaning.specs.FarEndLaws.{FarEndsChangeNothing};
ghost use Rattle.choice_meaning.specs.WorkedChoices.{BothMakeIt, ExceptionIsMade, OneMakesIt};

/// Where the gates of a level lead says nothing of what its unfoldings begin with.
#[tactic(auto, using(crate::proofs::FarEndLaws::far_ends_change_nothing))]
pub fn far_ends_change_nothing()
    ensures { FarEndsChangeNothing }
{}

/// An alternative that two instances make is listed, and one that a single instance makes is not; an exception is a choice between its
/// operand and what stands behind it.
#[tactic(auto, using(crate::proofs::WorkedChoices::both_make_it, crate::proofs::WorkedChoices::one_makes_it, crate::proofs::WorkedChoices::exception_is_made))]
pub fn choices_are_listed()
    ensures several { BothMakeIt }
    ensures one { OneMakesIt }
    ensures exception { ExceptionIsMade }
{}
