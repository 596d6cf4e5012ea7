//! What is left of a walk after an event in a node: the walk up to it, the node, the walk on from it: for `ascent`.

ghost use Rattle.std.specs.Prelude.{◌≡◌, ◌<◌, IfOk};
ghost use Rattle.chart_term.specs.Terms.{Walk};
ghost use Rattle.chart_term.specs.Views.{event_of};
ghost use Rattle.hmsc_graph.specs.Nets.{size_of};
ghost use Rattle.hmsc_graph.specs.Spots.{spot_of, goal_of, IsSpotBelow, IsGoalBelow};
ghost use Rattle.chart_term.specs.Tables.{net_count, net_of};
ghost use Rattle.term_step.specs.Children.{put};
ghost use Rattle.term_laws.specs.Normality.{IsSet};
ghost use Rattle.term_laws.specs.Permission.{permits_of};
ghost use Rattle.term_permission.specs.Ready.{AreReadyTables};
ghost use Rattle.term_step.specs.Searches.{IsTaken};

use super::Taken;
use bit_sets::Block;
use chart_term::{Term, TermList, seq};
use hmsc_graph::{Goal, Spot};
use msc_base::NoMemory;
use std::alloc::Global;
use term_permission::{WalkParts, widened_walk};
use term_tables::Nets;

/// What is left of a walk, where the term of a node leaves this: the walk to the node, and the walk on from it.
#[tactic(auto, using(crate::proofs::Ascending::ascending))]
pub(super) fn put_on_walk(
    alloc: Global,
    nets: &Nets,
    taken: &Taken,
    way: WalkParts<'_>,
    node: u32,
    left: Term,
) -> Result<Option<Term>, NoMemory>
    requires tables { AreReadyTables nets.now.tables }
    requires taken { IsTaken taken.now }
    requires net { way.net < net_count nets.now.tables }
    requires from { IsSpotBelow (size_of (net_of nets.now.tables way.net)) way.from }
    requires to { IsGoalBelow (size_of (net_of nets.now.tables way.net)) way.to }
    requires own { IsSet way.own.now.instances }
    requires node { node < size_of (net_of nets.now.tables way.net) }
    ensures { IfOk result (λ whole. whole ≡ put (permits_of nets.now.tables) (event_of taken.now.event) (Walk way.entry.net (spot_of way.entry.from) (goal_of way.entry.to) way.entry.own.now.instances) node left) }
{
    let there = WalkParts {
        net: way.net,
        from: way.from,
        to: Goal::Node(node),
        own: way.own,
    };
    let Some(before) = widened_walk(alloc, nets, there, &taken.at)? else {
        return Ok(None);
    };
    let onward = WalkParts {
        net: way.net,
        from: Spot::Node(node),
        to: way.to,
        own: way.own,
    };
    let none = Block::empty(alloc);
    let Some(behind) = widened_walk(alloc, nets, onward, &none)? else {
        return Ok(None);
    };
    let mut parts = TermList::new(alloc);
    parts.push(before)?;
    parts.push(left)?;
    parts.push(behind)?;
    Ok(Some(seq(alloc, parts)?))
}
