//! Of each direction and text the k-th event of a decomposed instance with the k-th event of the refining chart.

ghost use Rattle.std.specs.List.{count_by};
ghost use Rattle.std.specs.Option.{option_copied};
ghost use Rattle.std.specs.Prelude.{◌≡◌, ◌↔◌, ◌++◌, ◌∷◌, [], List, IfOk, IsTrue, OnOk, false, option_map, slice_get, true};
ghost use Rattle.msc_meaning.specs.Bodies.{EventNode as PlainNode, events};
ghost use Rattle.msc_meaning.specs.ItemViews.{items_view};
ghost use Rattle.msc_meaning.specs.Refinements.{all_like, is_like, match_list, matches, matches_behind};
ghost use Rattle.msc_meaning.specs.Views.{node_view};
ghost use Rattle.refined_events.specs.MatchViews.{matches_view, nodes_view};
ghost use Rattle.refined_events.specs.Mismatches.{Mismatches};
ghost use Rattle.refined_events.specs.Sorted.{AreCounts, AreSorted, HasOther, HaveOther};

use crate::counts::Counts;
use crate::keys::EventKey;
use crate::nodes::{env_nodes, nodes_at};
use crate::placed::PlacedEvents;
use msc_base::{Name, NoMemory};
use msc_meaning::{EventNode, Item};
use std::alloc::Global;

/// An event of a decomposed instance, and the event that stands for it.
#[derive(Clone, Copy)]
pub struct EventMatch<'a> {
    /// The event of the instance.
    pub event: &'a EventNode,
    /// The event of the refining chart.
    pub inner: &'a EventNode,
}

/// The event of the refining chart that stands for an event of the instance, behind those that are counted; it is counted then.
fn next_inner<'a>(
    alloc: Global,
    before: &mut Counts,
    inner: &PlacedEvents<'a>,
    node: &EventNode,
) -> Result<Option<&'a EventNode>, NoMemory>
    ensures found { IfOk result (λ found. (es ds : List PlainNode) → AreCounts es before.old → AreSorted ds inner.now → option_map node_view (option_copied found) ≡ slice_get (all_like (node_view node.now) ds) (count_by (is_like (node_view node.now)) es)) }
    ensures counted { OnOk result ((es : List PlainNode) → AreCounts es before.old → AreCounts (es ++ node_view node.now ∷ []) before.new) }
{
    match EventKey::of(alloc, node)? {
        None => Ok(None),
        Some(key) => {
            let found = inner.at(key.copy(alloc)?, before.at(&key));
            before.add(key)?;
            Ok(found)
        }
    }
}

/// Appends the match of an event, where one stands for it.
fn push_match<'a>(
    list: &mut Vec<EventMatch<'a>>,
    event: &'a EventNode,
    inner: Option<&'a EventNode>,
) -> Result<(), NoMemory>
    ensures { OnOk result (matches_view list.new.items ≡ matches_view list.old.items ++ match_list (node_view event.now) (option_map node_view (option_copied inner.entry))) }
{
    match inner {
        None => Ok(()),
        Some(inner) => {
            list.push(EventMatch { event, inner })?;
            Ok(())
        }
    }
}

/// The events, each with the one that stands for it.
fn matched<'a>(
    alloc: Global,
    nodes: &[&'a EventNode],
    inner: &PlacedEvents<'a>,
) -> Result<Vec<EventMatch<'a>>, NoMemory>
    ensures { IfOk result (λ ms. (ds : List PlainNode) → AreSorted ds inner.now → matches_view ms.items ≡ matches_behind ds [] (nodes_view nodes.now)) }
{
    let mut list = Vec::new(alloc);
    let mut before = Counts::new(alloc);
    for node in nodes {
        let found = next_inner(alloc, &mut before, inner, node)?;
        push_match(&mut list, node, found)?;
    }
    Ok(list)
}

/// The events of an instance of a level of these items, each with the one of the refining chart's own events that stands for it: of each
/// direction and text the k-th with the k-th. An event without such a one is left out. It fails only for want of memory.
pub fn matches_of<'a>(
    alloc: Global,
    instance: &Name,
    items: &'a [Item],
    inner: &'a [Item],
) -> Result<Vec<EventMatch<'a>>, NoMemory>
    ensures { IfOk result (λ ms. matches_view ms.items ≡ matches instance.now (items_view items.now) (items_view inner.now)) }
{
    let nodes = nodes_at(alloc, instance, items)?;
    let env = env_nodes(alloc, inner)?;
    let placed = PlacedEvents::of(alloc, env.as_slice())?;
    let list = matched(alloc, nodes.as_slice(), &placed)?;
    Ok(list)
}

/// Whether the event is a message event of a direction and text of which there are other numbers.
fn has_other(
    alloc: Global,
    node: &EventNode,
    counts: &Counts,
    others: &Counts,
) -> Result<bool, NoMemory>
    ensures has { IfOk result (λ told. told ≡ true → HasOther counts.now others.now (node_view node.now)) }
    ensures lacks { IfOk result (λ told. told ≡ false → HasOther counts.now others.now (node_view node.now) → ⊥) }
{
    match EventKey::of(alloc, node)? {
        None => Ok(false),
        Some(key) => Ok(counts.at(&key) != others.at(&key)),
    }
}

/// Whether one of the events is.
fn have_other(
    alloc: Global,
    nodes: &[&EventNode],
    counts: &Counts,
    others: &Counts,
) -> Result<bool, NoMemory>
    ensures has { IfOk result (λ told. told ≡ true → HaveOther counts.now others.now (nodes_view nodes.now)) }
    ensures lack { IfOk result (λ told. told ≡ false → HaveOther counts.now others.now (nodes_view nodes.now) → ⊥) }
{
    for node in nodes {
        if has_other(alloc, node, counts, others)? {
            return Ok(true);
        }
    }
    Ok(false)
}

/// Whether of some direction and text the instance has another number of events than the refining chart has, whose items those are. It
/// fails only for want of memory.
pub fn mismatches(
    alloc: Global,
    instance: &Name,
    items: &[Item],
    inner: &[Item],
) -> Result<bool, NoMemory>
    ensures { IfOk result (λ told. IsTrue told ↔ Mismatches instance.now (events (items_view items.now)) (events (items_view inner.now))) }
{
    let nodes = nodes_at(alloc, instance, items)?;
    let env = env_nodes(alloc, inner)?;
    let counts = Counts::of(alloc, nodes.as_slice())?;
    let others = Counts::of(alloc, env.as_slice())?;
    if have_other(alloc, nodes.as_slice(), &counts, &others)? {
        return Ok(true);
    }
    let told = have_other(alloc, env.as_slice(), &counts, &others)?;
    Ok(told)
}
