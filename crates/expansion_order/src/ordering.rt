//! Whether the order of an expansion's events is cyclic: what is drawn of it is sorted, and so is the turn of each loop by itself.

ghost use Rattle.std.specs.Prelude.{◌≡◌, ◌<◌, ◌≤◌, ◌+◌, ◌^◌, ℕ, true, false, IfOk, OnOk};
ghost use Rattle.column_order.specs.Counts.{EdgeLeads};
ghost use Rattle.expansion_tree.specs.Views.{expansion_view, expansions_view};
ghost use Rattle.expansion_order.specs.Precedence.{HasLoopRound, HasRank, HasRound, HasSomeLoopRound, HaveAllLoopsRank, HaveLoopsRank};
ghost use Rattle.expansion_order.specs.Ranks.{CanBeRanked};
ghost use Rattle.expansion_order.specs.Webs.{AreAdded, AreBelow, AreEdges, IsTidy};

use crate::drawing::draw;
use crate::web::{Web, nothing};
use column_order::{Edge, Sorted, sort_edges};
use expansion_tree::Expansion;
use msc_base::{Items, NoMemory};
use std::alloc::Global;

/// The least number that is no lower than this and above the other.
fn above(least: u64, number: u32) -> u64
    requires { least ≤ 2 ^ 32 }
    ensures least { least ≤ result }
    ensures above { number < result }
    ensures most { result ≤ 2 ^ 32 }
{
    if least <= number as u64 {
        number as u64 + 1
    } else {
        least
    }
}

/// A number above those from which edges lead, and no lower than this.
fn above_from(least: u64, edges: &[Edge]) -> u64
    requires { least ≤ 2 ^ 32 }
    ensures least { least ≤ result }
    ensures above { (y x : ℕ) → EdgeLeads edges.now y x → y < result }
    ensures most { result ≤ 2 ^ 32 }
{
    let mut number = least;
    for edge in edges {
        number = above(number, edge.from);
    }
    number
}

/// A number above those to which edges lead, and no lower than this.
fn above_to(least: u64, edges: &[Edge]) -> u64
    requires { least ≤ 2 ^ 32 }
    ensures least { least ≤ result }
    ensures above { (y x : ℕ) → EdgeLeads edges.now y x → x < result }
    ensures most { result ≤ 2 ^ 32 }
{
    let mut number = least;
    for edge in edges {
        number = above(number, edge.to);
    }
    number
}

/// A number above those of the events that are drawn.
fn above_events(web: &Web) -> u64
    ensures below { AreBelow result web.now }
    ensures most { result ≤ 2 ^ 32 }
{
    let first = above_from(0, web.pairs.as_slice());
    let second = above_to(first, web.pairs.as_slice());
    let before = above_from(second, web.before.as_slice());
    above_to(before, web.behind.as_slice())
}

/// Appends the edges, with numbers that are so much higher.
fn add_edges(
    list: &mut Items<Edge>,
    edges: &[Edge],
    from_by: u32,
    to_by: u32,
) -> Result<(), NoMemory>
    requires { (y x : ℕ) → EdgeLeads edges.now y x → (y + from_by < 2 ^ 32) × (x + to_by < 2 ^ 32) }
    ensures { OnOk result (AreAdded edges.now from_by to_by list.old list.new) }
{
    for edge in edges {
        list.push(Edge {
            from: edge.from + from_by,
            to: edge.to + to_by,
        })?;
    }
    Ok(())
}

/// What is drawn as edges between numbers: those of the bars stand behind those of the events.
fn edges_of(alloc: Global, web: &Web, events: u32) -> Result<Items<Edge>, NoMemory>
    requires tidy { IsTidy web.now }
    requires below { AreBelow events web.now }
    requires room { events + web.now.bars < 2 ^ 32 }
    ensures { IfOk result (AreEdges web.now events) }
{
    let mut list = Items::new(alloc);
    add_edges(&mut list, web.pairs.as_slice(), 0, 0)?;
    add_edges(&mut list, web.before.as_slice(), 0, events)?;
    add_edges(&mut list, web.behind.as_slice(), events, 0)?;
    Ok(list)
}

/// Whether one comes from an event back to itself, where each loop and each walk counts as one event; if not, they have ranks.
fn has_round(alloc: Global, part: &Expansion) -> Result<bool, NoMemory>
    ensures cyclic { IfOk result (λ cyclic. cyclic ≡ true → HasRound (expansion_view part.now)) }
    ensures ranked { IfOk result (λ cyclic. cyclic ≡ false → HasRank (expansion_view part.now)) }
{
    let mut web = nothing(alloc);
    draw(alloc, &mut web, part)?;
    let events = above_events(&web);
    let all = events + web.bars as u64;
    if all > u32::MAX as u64 {
        return Err(NoMemory);
    }
    let edges = edges_of(alloc, &web, events as u32)?;
    if edges.len() > u32::MAX as usize {
        return Err(NoMemory);
    }
    match sort_edges(alloc, all as u32, edges.as_slice())? {
        Sorted::Whole(_) => Ok(false),
        Sorted::Stuck(_) => Ok(true),
    }
}

/// Whether one comes back so in the turn of a loop, at any depth outside walks; if not, the events of each turn have ranks.
#[cycle(loops)]
fn has_loop_round(alloc: Global, part: &Expansion) -> Result<bool, NoMemory>
    ensures cyclic { IfOk result (λ cyclic. cyclic ≡ true → HasLoopRound (expansion_view part.now)) }
    ensures ranked { IfOk result (λ cyclic. cyclic ≡ false → HaveLoopsRank (expansion_view part.now)) }
{
    match part {
        Expansion::Event(_) => Ok(false),
        Expansion::InRow(parts) => have_loop_round(alloc, parts.as_slice()),
        Expansion::Aside(parts) => have_loop_round(alloc, parts.as_slice()),
        Expansion::OneOf(parts) => have_loop_round(alloc, parts.as_slice()),
        Expansion::Exception(inner) => has_loop_round(alloc, inner),
        Expansion::Turns(_, _, _, inner) => {
            if has_round(alloc, inner)? {
                return Ok(true);
            }
            has_loop_round(alloc, inner)
        }
        Expansion::Tied(inner, _) => has_loop_round(alloc, inner),
        Expansion::Walk(_, _, _) => Ok(false),
    }
}

/// The same of expansions.
#[cycle(loops)]
fn have_loop_round(alloc: Global, parts: &[Expansion]) -> Result<bool, NoMemory>
    ensures cyclic { IfOk result (λ cyclic. cyclic ≡ true → HasSomeLoopRound (expansions_view parts.now)) }
    ensures ranked { IfOk result (λ cyclic. cyclic ≡ false → HaveAllLoopsRank (expansions_view parts.now)) }
{
    for part in parts {
        if has_loop_round(alloc, part)? {
            return Ok(true);
        }
    }
    Ok(false)
}

/// Whether the order of an expansion's events is cyclic, or that of a loop's turn by itself, what stands in walks apart; if not, they can
/// be ranked. It fails only for
/// want of memory, for which it takes 2^32 edges, or events and bars, of what is sorted at once too. It takes n log n time, n being the
/// events, each as often as parts hold it, and that again for each loop that it stands in.
pub fn is_cyclic(alloc: Global, part: &Expansion) -> Result<bool, NoMemory>
    ensures cyclic { IfOk result (λ cyclic. cyclic ≡ true → CanBeRanked (expansion_view part.now) → ⊥) }
    ensures ranked { IfOk result (λ cyclic. cyclic ≡ false → CanBeRanked (expansion_view part.now)) }
{
    if has_round(alloc, part)? {
        return Ok(true);
    }
    let cyclic = has_loop_round(alloc, part)?;
    Ok(cyclic)
}
