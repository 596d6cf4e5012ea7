//! The law. It is the contract of a function that does nothing.

ghost use Rattle.choice_terms.specs.ChoiceLaws.{ChoicesHaveParts};

use choice_meaning::laws::far_ends_change_nothing;
use expanded_terms::{events_are_placed, ranked_expansions_are_sound, taken_items_mean};
use expansion_terms::laws::made_terms_agree;
use gate_ends::ends_are_found;
use made_terms::laws::{made_terms_are_sound, walks_are_drawn};
use node_ranks::laws::nodes_are_ranked;

/// The choices of a chart are, side by side with the parts that are found in its expansion, choices between operands of which the terms of
/// these parts tell at which instances they may begin.
pub fn choices_have_parts()
    ensures { ChoicesHaveParts }
{
    far_ends_change_nothing();
    made_terms_agree();
    taken_items_mean();
    ranked_expansions_are_sound();
    made_terms_are_sound();
    events_are_placed();
    walks_are_drawn();
    nodes_are_ranked();
    ends_are_found();
}
