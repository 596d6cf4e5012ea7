//! What is drawn of an expansion: pairs of events, and bars, each at one instance, with the events before it and those behind it. So the
//! order between many events and many takes one bar, and as many edges as there are events.

ghost use Rattle.std.specs.BTreeMap.{get};
ghost use Rattle.std.specs.Ordering.{nat_cmp};
ghost use Rattle.std.specs.Prelude.{◌≡◌, ◌<◌, [], ℕ, IfOk, OnOk, Some};
ghost use Rattle.expansion_order.specs.Precedence.{HasPair};
ghost use Rattle.expansion_order.specs.Webs.{AreDrawn, AreEntered, AreLeft, IsBarAt, IsTidy};

use crate::stops::Stop;
use column_order::Edge;
use msc_base::{Items, NoMemory, Pair};
use std::alloc::Global;
use std::collections::BTreeMap;

/// What is drawn.
#[derive(Drop)]
pub(crate) struct Web {
    /// How many bars there are.
    pub bars: u32,
    /// The first event of each pair before the second.
    pub pairs: Items<Edge>,
    /// Events before bars.
    pub before: Items<Edge>,
    /// Bars before events.
    pub behind: Items<Edge>,
}

/// Nothing is drawn. It takes no memory.
pub(crate) fn nothing(alloc: Global) -> Web
    ensures pairs { result.pairs ≡ [] }
    ensures before { result.before ≡ [] }
    ensures behind { result.behind ≡ [] }
{
    Web {
        bars: 0,
        pairs: Items::new(alloc),
        before: Items::new(alloc),
        behind: Items::new(alloc),
    }
}

/// Draws the pairs.
pub(crate) fn draw_pairs(web: &mut Web, pairs: &[Pair]) -> Result<(), NoMemory>
    requires { IsTidy web.old }
    ensures { OnOk result (AreDrawn (HasPair pairs.now) web.old web.new) }
{
    for pair in pairs {
        web.pairs.push(Edge {
            from: pair.first,
            to: pair.second,
        })?;
    }
    Ok(())
}

/// Draws the last bar of their instances before the stops.
pub(crate) fn enter(
    web: &mut Web,
    last: &BTreeMap<u32, u32>,
    stops: &[Stop],
) -> Result<(), NoMemory>
    ensures { OnOk result (AreEntered web.old web.new (get nat_cmp last.now) stops.now) }
{
    for stop in stops {
        if let Some(bar) = last.get(&stop.column).copied() {
            web.behind.push(Edge {
                from: bar,
                to: stop.number,
            })?;
        }
    }
    Ok(())
}

/// The instance's bar, where it isn't below the first; else a new one.
fn bar_at(
    web: &mut Web,
    last: &mut BTreeMap<u32, u32>,
    first: u32,
    column: u32,
) -> Result<u32, NoMemory>
    ensures { IfOk result (IsBarAt web.old web.new (get nat_cmp last.old) (get nat_cmp last.new) first column) }
{
    if let Some(bar) = last.get(&column).copied() {
        if bar >= first {
            return Ok(bar);
        }
    }
    let bar = web.bars;
    if bar == u32::MAX {
        return Err(NoMemory);
    }
    web.bars += 1;
    last.insert(column, bar)?;
    Ok(bar)
}

/// Draws the stops before a new bar at their instance, which is its last from then on.
pub(crate) fn leave(
    web: &mut Web,
    last: &mut BTreeMap<u32, u32>,
    stops: &[Stop],
) -> Result<(), NoMemory>
    requires tidy { IsTidy web.old }
    requires low { (k b : ℕ) → get nat_cmp last.old k ≡ Some b → b < web.old.bars }
    ensures { OnOk result (AreLeft web.old web.new (get nat_cmp last.old) (get nat_cmp last.new) stops.now) }
{
    let first = web.bars;
    for stop in stops {
        let bar = bar_at(web, last, first, stop.column)?;
        web.before.push(Edge {
            from: stop.number,
            to: bar,
        })?;
    }
    Ok(())
}
