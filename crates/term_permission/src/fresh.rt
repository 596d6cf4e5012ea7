//! A loop before its first turn and a walk at its start, in normal form: for who makes the terms of charts.

ghost use Rattle.std.specs.Prelude.{◌≡◌, ◌<◌, ◌↔◌, [], None, IfOk, true, false};
ghost use Rattle.chart_term.specs.NormalForms.{walk_of};
ghost use Rattle.chart_term.specs.Properties.{MayHave};
ghost use Rattle.chart_term.specs.Tables.{net_count, net_of};
ghost use Rattle.hmsc_graph.specs.Graphs.{Start};
ghost use Rattle.hmsc_graph.specs.Nets.{size_of};
ghost use Rattle.hmsc_graph.specs.Spots.{goal_of, IsGoalBelow};
ghost use Rattle.term_permission.specs.Fresh.{IsFreshLoop, IsUnreached, MayTurn, MayNotTurn};
ghost use Rattle.term_laws.specs.Permission.{permits_of};
ghost use Rattle.term_permission.specs.Ready.{IsReady, AreReadyTables};

use crate::permission::walk;
use crate::row_end::is_empty;
use bit_sets::Block;
use chart_term::{PartList, RowPart, Term};
use hmsc_graph::{Goal, Spot};
use msc_base::NoMemory;
use std::alloc::Global;
use term_tables::Nets;

/// Whether the counts of a loop allow a turn.
fn may_turn(lower: u64, upper: Option<u64>) -> bool
    ensures yes { result ≡ true → MayTurn lower upper }
    ensures no { result ≡ false → MayNotTurn lower upper }
{
    match upper {
        None => true,
        Some(upper) => upper > 0 && lower <= upper,
    }
}

/// The loop whose row is one gap where any turn may begin.
#[tactic(auto, using(crate::proofs::FreshFacts::fresh))]
fn unbegun_loop(
    alloc: Global,
    nets: &Nets,
    body: Term,
    lower: u64,
    upper: Option<u64>,
) -> Result<Term, NoMemory>
    requires { IsReady nets.now.tables body }
    ensures { IfOk result (λ term. IsFreshLoop nets.now.tables body lower upper term) }
{
    let _ = nets;
    if !may_turn(lower, upper) || is_empty(&body) {
        return Term::nil(alloc);
    }
    let row = PartList::one(alloc, RowPart::Gap(Block::empty(alloc)))?;
    Term::loop_of(alloc, body, lower, upper, row)
}

/// The loop of this operand before its first turn, in normal form. It is Nil where `lower` is above `upper`.
pub fn fresh_loop(
    alloc: Global,
    nets: &Nets,
    body: Term,
    lower: u64,
    upper: Option<u64>,
) -> Result<Term, NoMemory>
    requires tables { AreReadyTables nets.now.tables }
    requires body { IsReady nets.now.tables body }
    ensures fresh { IfOk result (λ term. IsFreshLoop nets.now.tables body lower upper term) }
    ensures ready { IfOk result (λ term. IsReady nets.now.tables term) }
{
    let term = unbegun_loop(alloc, nets, body, lower, upper)?;
    Ok(term)
}

/// The walk from the start of the net to the goal, in normal form.
///
/// None comes exactly where the goal isn't `Any` and no walk leads to it.
#[tactic(auto, using(crate::proofs::FreshFacts::fresh))]
pub fn fresh_walk(
    alloc: Global,
    nets: &Nets,
    net: u32,
    goal: Goal,
) -> Result<Option<Term>, NoMemory>
    requires tables { AreReadyTables nets.now.tables }
    requires net { net < net_count nets.now.tables }
    requires goal { IsGoalBelow (size_of (net_of nets.now.tables net)) goal }
    ensures walk { IfOk result (λ left. left ≡ walk_of (permits_of nets.now.tables) net Start (goal_of goal) []) }
    ensures ready { IfOk result (λ left. MayHave (IsReady nets.now.tables) left) }
    ensures none { IfOk result (λ left. (left ≡ None) ↔ IsUnreached nets.now.tables net (goal_of goal)) }
{
    let left = walk(alloc, nets, net, Spot::Start, goal, Block::empty(alloc))?;
    Ok(left)
}
