//! What stands behind an exception on its level, by itself.

ghost use Rattle.std.specs.Prelude.{◌≡◌, IfOk};
ghost use Rattle.expansion_tree.specs.Views.{expansion_view, expansions_view};
ghost use Rattle.choice_parts.specs.ChoiceParts.{part_behind as plain_behind};

use crate::copies::{copied_pairs, copied_parts};
use expansion_tree::Expansion;
use msc_base::{NoMemory, Pair};
use std::alloc::Global;

/// A copy of these parts of a row, tied by the pairs of the level. It fails only for want of memory.
pub fn part_behind(
    alloc: Global,
    parts: &[Expansion],
    pairs: &[Pair],
) -> Result<Expansion, NoMemory>
    ensures { IfOk result (λ part. expansion_view part ≡ plain_behind (expansions_view parts.now) pairs.now) }
{
    let parts = copied_parts(alloc, parts)?;
    let pairs = copied_pairs(alloc, pairs)?;
    let row = Box::new(alloc, Expansion::InRow(parts))?;
    Ok(Expansion::Tied(row, pairs))
}
