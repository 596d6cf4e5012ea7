//! Pairs the k-th end with the k-th, class by class: level_weaving pairs outputs with inputs by it.

ghost use Rattle.std.specs.Prelude.{◌≡◌, ◌<◌, ◌++◌, ◌↔◌, All, IfOk, OnOk, ℕ, slice_get};
ghost use Rattle.column_order.specs.Counts.{EdgeLeads};
ghost use Rattle.column_order.specs.Pairing.{IsPair, RiseFrom, RiseTo, pair_with};

use crate::Edge;
use crate::sorting::targets_of;
use msc_base::NoMemory;
use std::alloc::Global;

/// Appends the pair of an output with the input behind so many others, where there is one.
fn push_pair(
    pairs: &mut Vec<Edge>,
    output: u32,
    inputs: &[u32],
    before: usize,
) -> Result<(), NoMemory>
    ensures { OnOk result (pairs.new.items ≡ pairs.old.items ++ pair_with output (slice_get inputs.now before)) }
{
    match inputs.get(before) {
        Some(input) => {
            pairs.push(Edge {
                from: output,
                to: *input,
            })?;
            Ok(())
        }
        None => Ok(()),
    }
}

/// The pairs of the k-th output and the k-th input of each class, in the order of the outputs. Each end leads from its class to its
/// event.
pub fn pair_up(
    alloc: Global,
    classes: u32,
    outs: &[Edge],
    ins: &[Edge],
) -> Result<Vec<Edge>, NoMemory>
    requires outs { All (λ end. end.from < classes) outs.now }
    requires ins { All (λ end. end.from < classes) ins.now }
    ensures pairs { IfOk result (λ pairs. (p : ℕ) (q : ℕ) → EdgeLeads pairs.items p q ↔ IsPair outs.now ins.now p q) }
    ensures rising { RiseTo 0 outs.now → IfOk result (λ pairs. RiseFrom 0 pairs.items) }
{
    let inputs = targets_of(alloc, classes, ins)?;
    let mut taken = vec![in alloc; 0usize; classes as usize]?;
    let mut pairs = Vec::new(alloc);
    for end in outs {
        let class = end.from as usize;
        push_pair(&mut pairs, end.to, &inputs[class], taken[class])?;
        taken[class] += 1;
    }
    Ok(pairs)
}
