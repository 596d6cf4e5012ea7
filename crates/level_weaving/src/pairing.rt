//! The pairs of a level by the numbers of its events, in the order of the outputs: for `levels`.

ghost use Rattle.std.specs.Prelude.{◌≡◌, ◌<◌, All, IfOk, OnOk, length, map};
ghost use Rattle.std.specs.List.Sorted.{IsNonDecreasingBy, IsPermutation};
ghost use Rattle.column_order.specs.Pairing.{RiseFrom};
ghost use Rattle.column_order.specs.declared.edge.Edge.{Edge as PlainEdge};
ghost use Rattle.level_weaving.specs.LevelPairs.{edges_at, number_of, pair_of};
ghost use Rattle.level_weaving.specs.Marks.{LeadsPairs};
ghost use Rattle.level_weaving.specs.EventViews.{event_view};
ghost use Rattle.msc_base.specs.Lists.{AreDifferent};
ghost use Rattle.msc_meaning.specs.Pairing.{ArePairs};

use crate::PlacedEvent;
use column_order::Edge;
use msc_base::{Items, NoMemory, Pair, PairList};
use std::alloc::Global;

/// Pairs by the numbers of the events, of pairs by their positions.
fn numbered(
    alloc: Global,
    events: &[PlacedEvent<'_>],
    pairs: &[Edge],
) -> Result<Vec<Edge>, NoMemory>
    requires { All (λ e. (e.from < length events.now) × (e.to < length events.now)) pairs.now }
    ensures { IfOk result (λ edges. edges.items ≡ edges_at (map event_view events.now) pairs.now) }
{
    let mut edges = Vec::with_capacity(alloc, pairs.len())?;
    for pair in pairs {
        edges.push(Edge {
            from: events[pair.from as usize].number,
            to: events[pair.to as usize].number,
        })?;
    }
    Ok(edges)
}

/// Brings pairs into the order of their outputs.
fn sort_pairs(edges: &mut Vec<Edge>) -> Result<(), NoMemory>
    ensures permutation { IsPermutation edges.old.items edges.new.items }
    ensures sorted { OnOk result (IsNonDecreasingBy (λ (e : PlainEdge). e.from) edges.new.items) }
{
    edges.sort_by_key(|edge| edge.from)?;
    Ok(())
}

/// The pairs as a list.
fn listed(alloc: Global, edges: &[Edge]) -> Result<PairList, NoMemory>
    ensures { IfOk result (λ list. list ≡ map pair_of edges.now) }
{
    let mut list = Items::new(alloc);
    for edge in edges {
        list.push(Pair {
            first: edge.from,
            second: edge.to,
        })?;
    }
    Ok(list)
}

/// The pairs of a level, whose pairs by positions are known.
pub fn level_pairs(
    alloc: Global,
    events: &[PlacedEvent<'_>],
    pairs: &[Edge],
) -> Result<PairList, NoMemory>
    requires different { AreDifferent (map number_of (map event_view events.now)) }
    requires pairs { LeadsPairs (map event_view events.now) pairs.now }
    requires rising { RiseFrom 0 pairs.now }
    ensures { IfOk result (ArePairs (map event_view events.now)) }
{
    let mut edges = numbered(alloc, events, pairs)?;
    sort_pairs(&mut edges)?;
    listed(alloc, edges.as_slice())
}
