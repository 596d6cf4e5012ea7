//! Unions of blocks: for `asking` and `permission`, and for term_step.

ghost use Rattle.std.specs.Prelude.{◌≡◌, [], IfOk};
ghost use Rattle.chart_term.specs.Terms.{◌∪◌};
ghost use Rattle.term_laws.specs.Normality.{IsSet};

use bit_sets::Block;
use msc_base::NoMemory;
use std::alloc::Global;

/// A block of the instances of both.
#[tactic(auto, using(crate::proofs::BlockFacts::blocks))]
pub fn widened(alloc: Global, block: &Block, other: &Block) -> Result<Block, NoMemory>
    requires { IsSet block.now.instances }
    ensures { IfOk result (λ wide. wide ≡ record { instances = block.now.instances ∪ other.now.instances; events = [] }) }
{
    let mut wide = Block::empty(alloc);
    wide.add_instances(block)?;
    wide.add_instances(other)?;
    Ok(wide)
}
