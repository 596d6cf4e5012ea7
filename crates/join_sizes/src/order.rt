//! In which order the gates of charts are looked at, and how deep references stand in each other: for `sizes`.

ghost use Rattle.std.specs.Prelude.{◌+◌, ◌<◌, ◌≤◌, ℕ, IfOk, slice_index_or};

use msc_base::{NoMemory, number_of};
use std::alloc::Global;

/// The highest of the ranks.
fn highest(ranks: &[usize]) -> usize
    ensures { (i : ℕ) → slice_index_or ranks.now i 0 ≤ result }
{
    let mut most = 0;
    for rank in ranks {
        most = most.max(*rank);
    }
    most
}

/// A depth that charts of these ranks don't reach.
pub fn depth_of(ranks: &[usize]) -> Result<u32, NoMemory>
    ensures { IfOk result (λ depth. (i : ℕ) → slice_index_or ranks.now i 0 + 1 < depth) }
{
    let most = number_of(highest(ranks))?;
    match most.checked_add(2) {
        Some(depth) => Ok(depth),
        None => Err(NoMemory),
    }
}

/// Adds the numbers of the charts of that rank.
fn add_rank(order: &mut Vec<usize>, ranks: &[usize], rank: usize) -> Result<(), NoMemory> {
    for number in 0..ranks.len() {
        if ranks[number] == rank {
            order.push(number)?;
        }
    }
    Ok(())
}

/// The numbers of the charts, those of lower ranks first. Nothing is proved of the order: by it alone the recursion through references stays
/// shallow, and what is found is the same in any.
pub fn rank_order(alloc: Global, ranks: &[usize]) -> Result<Vec<usize>, NoMemory> {
    let mut order = Vec::new(alloc);
    let most = highest(ranks);
    for rank in 0..most {
        add_rank(&mut order, ranks, rank)?;
    }
    add_rank(&mut order, ranks, most)?;
    Ok(order)
}
