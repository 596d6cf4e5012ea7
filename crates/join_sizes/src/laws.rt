//! The laws of join sizes, as the contract of a function that does nothing.

ghost use Rattle.join_sizes.specs.JoinSizeLaws.{JoinSizesAreKnown};

use gate_ends::ends_are_found;
use level_gathering::laws::gathered_table_is_one;
use woven_laws::laws::gathered_charts_are_known;

/// There is one list of what joins add, and it has no less than what is counted in a table of woven charts.
#[tactic(auto, using(crate::proofs::JoinSizeLaws::join_sizes_are_known))]
pub fn join_sizes_are_known()
    ensures { JoinSizesAreKnown }
{
    ends_are_found();
    gathered_charts_are_known();
    gathered_table_is_one();
}
