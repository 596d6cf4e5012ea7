//! What the rules on gates give, as the contract of a function that does nothing.

ghost use Rattle.gate_rules.specs.GateLaws.{LevelsHaveGates};

use gate_ends::ends_are_found;

/// Where a table breaks no rule on gates, its levels have what meanings, terms and sizes ask of called gates.
#[tactic(auto, using(crate::proofs::HeldLaws::levels_have_gates))]
pub fn levels_have_gates()
    ensures { LevelsHaveGates }
{
    ends_are_found()
}
