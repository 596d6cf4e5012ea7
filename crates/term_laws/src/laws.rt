//! The laws of terms. Each is the contract of a function that does nothing.

ghost use Rattle.term_laws.specs.Missed.{PermitOfMissed};
ghost use Rattle.term_laws.specs.ConstructorLaws.{PermitOnlyFalls, PermitOfNothing, NormalFormsKeepPatterns, ConstructorsKeepForm};
ghost use Rattle.term_laws.specs.LaterTables.{LaterTablesAgree};
ghost use Rattle.term_laws.specs.Listing.{ListIsExact, ResidualSetIsExact};
ghost use Rattle.term_laws.specs.FullSoundness.{FullSoundnessIsKept, FreshTermsAreSound, ConstructorsKeepSoundness};
ghost use Rattle.term_laws.specs.OneResidual.{OneResidual};
ghost use Rattle.term_laws.specs.Laws.{PermitIsExact, PermitFailsExactly, AfterIsExact, MayEndIsExact, RunsAreLinearOrders, SoundnessIsKept, NormalFormIsKept, SoundHasPattern, ResidualsAreExact};

/// What permission leaves of a term are exactly its patterns that avoid the block.
#[tactic(auto, using(crate::proofs::TermLaws::permit_is_exact))]
pub fn permission_is_exact()
    ensures { PermitIsExact }
{}

/// What is left after an event are exactly the patterns from which it was taken, with all patterns and with finished ones.
#[tactic(auto, using(crate::proofs::TermLaws::after_is_exact))]
pub fn taking_is_exact()
    ensures { AfterIsExact }
{}

/// A term may end exactly where the empty pattern is one of its finished patterns.
#[tactic(auto, using(crate::proofs::TermLaws::may_end_is_exact))]
pub fn ending_is_exact()
    ensures { MayEndIsExact }
{}

/// The runs of a pattern by taking out one minimal event after another are exactly the linear orders of its positions.
#[tactic(auto, using(crate::proofs::TermLaws::runs_are_linear_orders))]
pub fn readings_agree()
    ensures { RunsAreLinearOrders }
{}

/// Permission fails exactly where the term has no pattern that avoids the block.
#[tactic(auto, using(crate::proofs::SoundLaws::permit_fails_exactly))]
pub fn permission_fails_exactly()
    ensures { PermitFailsExactly }
{}

/// Permission by a block that fits, and taking, keep terms sound.
#[tactic(auto, using(crate::proofs::SoundLaws::soundness_is_kept))]
pub fn soundness_is_kept()
    ensures { SoundnessIsKept }
{}

/// Permission and taking keep terms in normal form.
#[tactic(auto, using(crate::proofs::SoundLaws::normal_form_is_kept))]
pub fn normal_form_is_kept()
    ensures { NormalFormIsKept }
{}

/// A sound term has a pattern.
#[tactic(auto, using(crate::proofs::SoundLaws::sound_has_pattern))]
pub fn sound_term_has_pattern()
    ensures { SoundHasPattern }
{}

/// A term is left after a list of labels exactly where a run begins with them, and one that may end exactly where they are a
/// run.
#[tactic(auto, using(crate::proofs::SoundLaws::residuals_are_exact))]
pub fn residuals_are_exact()
    ensures { ResidualsAreExact }
{}

/// Permission makes no term heavier and names no new net.
#[tactic(auto, using(crate::proofs::ConstructorProofs::permit_only_falls))]
pub fn permission_only_falls()
    ensures { PermitOnlyFalls }
{}

/// Permission by the empty block gives a term in normal form back.
#[tactic(auto, using(crate::proofs::ConstructorProofs::permit_of_nothing))]
pub fn permission_of_nothing()
    ensures { PermitOfNothing }
{}

/// Each normalising constructor has the patterns of its parts before they are normalised.
#[tactic(auto, using(crate::proofs::ConstructorProofs::normal_forms_keep_patterns))]
pub fn normal_forms_keep_patterns()
    ensures { NormalFormsKeepPatterns }
{}

/// The lists of residual terms have exactly what is left after an event.
#[tactic(auto, using(crate::proofs::ListingExact::list_is_exact))]
pub fn lists_are_exact()
    ensures { ListIsExact }
{}

/// The computed set of residual terms has exactly the terms that are left after the labels, each once.
#[tactic(auto, using(crate::proofs::SetExact::residual_set_is_exact))]
pub fn sets_are_exact()
    ensures { ResidualSetIsExact }
{}

/// The normalising constructors make tidy terms in normal form of such parts, and fail exactly where there is no pattern.
#[tactic(auto, using(crate::proofs::ConstructorForms::constructors_keep_form))]
pub fn constructors_keep_form()
    ensures { ConstructorsKeepForm }
{}

/// A term keeps its form, its patterns and what permission leaves of it where the tables get one more net.
#[tactic(auto, using(crate::proofs::Later::later_tables_agree))]
pub fn later_tables_agree()
    ensures { LaterTablesAgree }
{}

/// At most one term is left, after every list of labels, of a term whose labels all differ, which has no graph, and no loop of
/// which holds a choice or a loop; after k events it weighs at most 2·(k+1) times what the term weighs.
#[tactic(auto, using(crate::proofs::OneResidual::one_residual))]
pub fn one_residual()
    ensures { OneResidual }
{}

/// What the laws ask of a term holds of one that is sound in full, and permission by a block that fits, and taking, keep terms
/// sound in full.
#[tactic(auto, using(crate::proofs::FullSound::full_soundness_is_kept))]
pub fn full_soundness_is_kept()
    ensures { FullSoundnessIsKept }
{}

/// A loop that no turn has begun is there and sound in full where its operand is sound in full and holds no walk to any node, and
/// its lower count is at most the upper; so is a walk from the start, which fails exactly where no walk leads to its goal.
#[tactic(auto, using(crate::proofs::FreshTerms::fresh_terms_are_sound))]
pub fn fresh_terms_are_sound()
    ensures { FreshTermsAreSound }
{}

/// The normalising constructors make terms that are sound in full, and hold no walk to any node, of such terms.
#[tactic(auto, using(crate::proofs::SoundForms::constructors_keep_soundness))]
pub fn constructors_keep_soundness()
    ensures { ConstructorsKeepSoundness }
{}

/// Permission by a block that misses a term in normal form gives the term back.
#[tactic(auto, using(crate::proofs::Missed::permit_of_missed))]
pub fn permission_of_missed()
    ensures { PermitOfMissed }
{}
