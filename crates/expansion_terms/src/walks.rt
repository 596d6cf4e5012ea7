//! The net of a graph with the terms of its nodes, and the walk through it: for `terms`.

ghost use Rattle.std.specs.Prelude.{◌≡◌, ◌≤◌, IfOk, OnOk, length};
ghost use Rattle.std.specs.Option.{unwrap_or};
ghost use Rattle.chart_term.specs.Properties.{Each};
ghost use Rattle.chart_term.specs.Tables.{net_count};
ghost use Rattle.chart_term.specs.Terms.{Nil};
ghost use Rattle.expansion_terms.specs.MadeTerms.{net_of_shape, newest_walk};
ghost use Rattle.expansion_terms.specs.PartTerms.{one_net_more};
ghost use Rattle.hmsc_graph.specs.Shapes.{IsFaulty};
ghost use Rattle.hmsc_graph.specs.Spots.{IsGoalBelow, goal_of};
ghost use Rattle.msc_base.specs.declared.limits.TheConstants.Limits.{NODE_LINES};
ghost use Rattle.msc_base.specs.declared.place.Place.{Place as PlaceValue};
ghost use Rattle.term_permission.specs.Ready.{AreReadyTables, IsReady};

use chart_term::{Term, TermList};
use hmsc_graph::{Goal, Net, NetFault, Shape};
use msc_base::NoMemory;
use std::alloc::Global;
use term_permission::fresh_walk;
use term_tables::Nets;

/// The net of a graph whose labels are all known and stand once.
fn net_of(alloc: Global, shape: &Shape) -> Result<Net, NoMemory>
    requires few { length shape.now.lines ≤ NODE_LINES }
    requires faultless { (place : PlaceValue) → IsFaulty shape.now place → ⊥ }
    ensures { IfOk result (λ net. net ≡ net_of_shape shape.now) }
{
    match Net::build(alloc, shape) {
        Ok(net) => Ok(net),
        Err(NetFault::NoMemory) => Err(NoMemory),
        Err(NetFault::UnknownLabel(_)) => unreachable!(),
        Err(NetFault::TwiceLabel(_)) => unreachable!(),
    }
}

/// Appends the net of the graph, with the terms of its nodes, and gives its number. It fails for want of memory, and where no number is
/// left.
fn added(alloc: Global, nets: &mut Nets, shape: &Shape, nodes: TermList) -> Result<u32, NoMemory>
    requires few { length shape.now.lines ≤ NODE_LINES }
    requires faultless { (place : PlaceValue) → IsFaulty shape.now place → ⊥ }
    requires each { length nodes ≡ length shape.now.lines }
    ensures number { IfOk result (λ number. number ≡ net_count nets.old.tables) }
    ensures added { OnOk result (nets.new ≡ record nets.old { tables = one_net_more shape.now nodes nets.old.tables }) }
{
    if nets.count() == u32::MAX {
        return Err(NoMemory);
    }
    let net = net_of(alloc, shape)?;
    let number = nets.add_net(net, nodes)?;
    Ok(number)
}

/// The walk, or nothing where there is none.
fn or_nothing(alloc: Global, walk: Option<Term>) -> Result<Term, NoMemory>
    ensures { IfOk result (λ term. term ≡ unwrap_or walk Nil) }
{
    match walk {
        Some(term) => Ok(term),
        None => Term::nil(alloc),
    }
}

/// The walk to the goal through the graph whose nodes have these terms; nothing where none leads there. Its net is behind those that
/// were there. It fails for want of memory, and where no number is left for the net.
pub(crate) fn walk_of(
    alloc: Global,
    nets: &mut Nets,
    goal: Goal,
    shape: &Shape,
    nodes: TermList,
) -> Result<Term, NoMemory>
    requires few { length shape.now.lines ≤ NODE_LINES }
    requires faultless { (place : PlaceValue) → IsFaulty shape.now place → ⊥ }
    requires each { length nodes ≡ length shape.now.lines }
    requires goal { IsGoalBelow (length shape.now.lines) goal }
    requires tables { AreReadyTables nets.old.tables }
    requires ready { Each (IsReady nets.old.tables) nodes }
    ensures term { IfOk result (λ term. term ≡ newest_walk (goal_of goal) (one_net_more shape.now nodes nets.old.tables)) }
    ensures tables { OnOk result (nets.new ≡ record nets.old { tables = one_net_more shape.now nodes nets.old.tables }) }
{
    let net = added(alloc, nets, shape, nodes)?;
    let walk = fresh_walk(alloc, nets, net, goal)?;
    let term = or_nothing(alloc, walk)?;
    Ok(term)
}
