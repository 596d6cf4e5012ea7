//! The laws of what terms mean. Each is the contract of a function that does nothing.

ghost use Rattle.term_meaning.specs.LoopedMessage.{LoopedMessageMeans};
ghost use Rattle.term_meaning.specs.MeaningRules.{MeaningRules};
ghost use Rattle.term_meaning.specs.ShapePaths.{PathsAreOfText};
ghost use Rattle.term_meaning.specs.StandingRules.{StandingRules};
ghost use Rattle.term_meaning.specs.TiedRows.{TiedRowsMean};
ghost use Rattle.term_meaning.specs.TwoMessages.{TwoMessagesMean};

use sound_terms::laws::rising_rows_are_sound;
use term_laws::laws::{
    constructors_keep_soundness, full_soundness_is_kept, later_tables_agree,
    normal_forms_keep_patterns,
};

/// When an event of a term and one of an unfolding agree, and sets of unfoldings: one, and one for each line of a graph.
pub trait Unfolds {
    ghost use Rattle.std.specs.Prelude.{ℕ};
    ghost use Rattle.chart_term.specs.Terms.{TermEvent};
    ghost use Rattle.msc_unfolding.specs.Unfoldings.{Happening, Unfolding};

    ghost agree: { Self → TermEvent → Happening → Type 0 };

    ghost unfolds: { Self → Unfolding → Type 0 };

    ghost lines: { Self → ℕ → Unfolding → Type 0 };
}

/// A pattern of a term stands for an unfolding by these rules, whatever makes events agree.
#[tactic(auto, using(crate::proofs::RuleLaws::standing_rules))]
pub fn standing_has_rules<U: Unfolds>()
    ensures { (below above : U) → StandingRules (U.agree below) (U.agree above) }
{}

/// What the constructors make means sets of unfoldings by these rules, whatever the sets are.
#[tactic(auto, using(crate::proofs::RuleLaws::meaning_rules))]
pub fn constructors_mean<U: Unfolds>()
    ensures { (below above : U) → MeaningRules (U.agree below) (U.agree above) (U.unfolds below) (U.unfolds above) (U.lines below) }
{
    normal_forms_keep_patterns();
    later_tables_agree();
}

/// The term of events in a row below a tie means their one unfolding, and is sound in full where the pairs rise.
#[tactic(auto, using(crate::proofs::TiedRows::tied_rows_mean))]
pub fn tied_rows_mean()
    ensures { TiedRowsMean }
{
    normal_forms_keep_patterns();
    constructors_keep_soundness();
    full_soundness_is_kept();
    rising_rows_are_sound();
}

/// The term of two messages means their one unfolding.
#[tactic(auto, using(crate::proofs::TwoMessages::two_messages_mean))]
pub fn two_messages_mean()
    ensures { TwoMessagesMean }
{
    tied_rows_mean();
}

/// The term of a loop of one message means one or two turns of it.
#[tactic(auto, using(crate::proofs::LoopedMessage::looped_message_means))]
pub fn looped_message_means()
    ensures { LoopedMessageMeans }
{
    normal_forms_keep_patterns();
}

/// The walks of a graph are those of the text that it was made from.
#[tactic(auto, using(crate::proofs::TextPaths::paths_are_of_text))]
pub fn paths_are_of_text()
    ensures { PathsAreOfText }
{}
