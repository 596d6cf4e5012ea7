//! Whether a term may end: trace_judge asks it at a log's end. It takes no event and looks at no block.

ghost use Rattle.std.specs.Prelude.{◌≡◌, ◌+◌, ◌<◌, ◌↔◌, ◌⊎◌, ℕ, IfOk, IsTrue, length, true};
ghost use Rattle.chart_term.specs.NormalForms.{begun};
ghost use Rattle.chart_term.specs.PartLists.{AreTurns};
ghost use Rattle.chart_term.specs.Properties.{Each};
ghost use Rattle.chart_term.specs.Rows.{part_of};
ghost use Rattle.chart_term.specs.Tables.{net_count, net_of, terms_over};
ghost use Rattle.chart_term.specs.TermMeanings.{aim};
ghost use Rattle.chart_term.specs.Terms.{Loop, row_of};
ghost use Rattle.msc_base.specs.Lists.{IsIn};
ghost use Rattle.hmsc_graph.specs.Nets.{IsNet, size_of};
ghost use Rattle.hmsc_graph.specs.Spots.{spot_of, goal_of, IsSpotBelow, IsGoalBelow};
ghost use Rattle.term_permission.specs.Endings.{AreEnding, EndsAs, MayPartEnd};
ghost use Rattle.term_permission.specs.Ready.{IsReady, AreReadyTables, IsReadyPart, AreReadyParts, IsReadyLoop};
ghost use Rattle.term_laws.proofs.Measures.{rank_all, rank_in};
ghost use Rattle.term_laws.specs.Taking.{MayEnd, EndAll, EndOne, EndLoop, EndWalk};

use bit_sets::NodeSet;
use chart_term::{Look, PartList, RowPart, Term};
use hmsc_graph::{Goal, Spot, has_walk};
use msc_base::NoMemory;
use std::alloc::Global;
use term_tables::Nets;

/// Whether a term may end, as far as it is told without a look into one of its parts.
#[derive(Drop)]
pub(crate) enum Ending<'a> {
    /// Whether it may.
    Told(bool),
    /// It may exactly if this part may.
    As(&'a Term),
}

/// Whether the term may end: whether the empty pattern is one of its finished patterns. It goes down the first or the last
/// parts of lists, whichever is heavier, and below ties, in a loop.
#[cycle(may_end)]
pub fn may_end(alloc: Global, nets: &Nets, term: &Term) -> Result<bool, NoMemory>
    requires tables { AreReadyTables nets.now.tables }
    requires term { IsReady nets.now.tables term.now }
    ensures { IfOk result (λ ends. IsTrue ends ↔ MayEnd (terms_over nets.now.tables) term.now) }
{
    let mut part = term;
    loop {
        match ending_of(alloc, nets, part) {
            Ok(Ending::Told(ends)) => return Ok(ends),
            Ok(Ending::As(last)) => part = last,
            Err(NoMemory) => return Err(NoMemory),
        }
    }
}

/// The same, but that a part is left to whom it is told.
#[cycle(may_end)]
#[tactic(auto, using(crate::proofs::EndingFacts::endings))]
fn ending_of<'a>(alloc: Global, nets: &Nets, term: &'a Term) -> Result<Ending<'a>, NoMemory>
    requires tables { AreReadyTables nets.now.tables }
    requires term { IsReady nets.now.tables term.now }
    ensures { IfOk result (EndsAs nets.now.tables (MayEnd (terms_over nets.now.tables) term.now) (rank_in nets.now.tables term.now)) }
{
    match term.look() {
        Look::Nil => Ok(Ending::Told(true)),
        Look::Event { .. } => Ok(Ending::Told(false)),
        Look::Seq(parts) => all_may_end(alloc, nets, parts),
        Look::Par(parts) => all_may_end(alloc, nets, parts),
        Look::Choice(parts) => one_may_end(alloc, nets, parts),
        Look::Tied(inner, _) => Ok(Ending::As(inner)),
        Look::Loop {
            body,
            lower,
            upper,
            row,
        } => Ok(Ending::Told(loop_may_end(alloc, nets, body, lower, upper, row)?)),
        Look::Walk { net, from, to, .. } => {
            Ok(Ending::Told(walk_may_end(alloc, nets, net, from, to)?))
        }
    }
}

/// The index of the heavier of the first and the last part.
fn heavier_end(parts: &PartList) -> usize
    requires turns { AreTurns parts.now }
    requires some { 0 < length parts.now }
    ensures { result < length parts.now }
{
    let last = parts.len() - 1;
    if parts.term_at(0).weight() > parts.term_at(last).weight() {
        0
    } else {
        last
    }
}

/// Whether all parts may end; the heavier of the first and the last is left to whom it is told.
#[cycle(may_end)]
#[tactic(auto, using(crate::proofs::EndingFacts::endings))]
fn all_may_end<'a>(alloc: Global, nets: &Nets, parts: &'a PartList) -> Result<Ending<'a>, NoMemory>
    requires tables { AreReadyTables nets.now.tables }
    requires turns { AreTurns parts.now }
    requires parts { Each (IsReady nets.now.tables) (begun parts.now) }
    ensures { IfOk result (EndsAs nets.now.tables (EndAll (terms_over nets.now.tables) (begun parts.now)) (rank_all nets.now.tables (begun parts.now) + 1)) }
{
    let count = parts.len();
    if count == 0 {
        return Ok(Ending::Told(true));
    }
    let heavy = heavier_end(parts);
    for index in 0..count {
        if index != heavy && !may_end(alloc, nets, parts.term_at(index))? {
            return Ok(Ending::Told(false));
        }
    }
    Ok(Ending::As(parts.term_at(heavy)))
}

/// Whether one of the parts may end; the heavier of the first and the last is left to whom it is told.
#[cycle(may_end)]
#[tactic(auto, using(crate::proofs::EndingFacts::endings))]
fn one_may_end<'a>(alloc: Global, nets: &Nets, parts: &'a PartList) -> Result<Ending<'a>, NoMemory>
    requires tables { AreReadyTables nets.now.tables }
    requires turns { AreTurns parts.now }
    requires parts { Each (IsReady nets.now.tables) (begun parts.now) }
    ensures { IfOk result (EndsAs nets.now.tables (EndOne (terms_over nets.now.tables) (begun parts.now)) (rank_all nets.now.tables (begun parts.now) + 1)) }
{
    let count = parts.len();
    if count == 0 {
        return Ok(Ending::Told(false));
    }
    let heavy = heavier_end(parts);
    for index in 0..count {
        if index != heavy && may_end(alloc, nets, parts.term_at(index))? {
            return Ok(Ending::Told(true));
        }
    }
    Ok(Ending::As(parts.term_at(heavy)))
}

/// Whether all begun turns of a loop may end, and the operand besides where a turn is owed.
#[cycle(may_end)]
#[tactic(auto, using(crate::proofs::EndingFacts::endings))]
fn loop_may_end(
    alloc: Global,
    nets: &Nets,
    body: &Term,
    lower: u64,
    upper: Option<u64>,
    row: &PartList,
) -> Result<bool, NoMemory>
    requires tables { AreReadyTables nets.now.tables }
    requires row { IsReadyLoop nets.now.tables body.now upper row.now }
    ensures { IfOk result (λ ends. IsTrue ends ↔ MayEnd (terms_over nets.now.tables) (Loop body.now lower upper (row_of row.now))) }
{
    if !turns_may_end(alloc, nets, row)? {
        return Ok(false);
    }
    if lower == 0 {
        return Ok(true);
    }
    may_end(alloc, nets, body)
}

/// Whether all begun turns of the row may end.
#[cycle(may_end)]
#[tactic(auto, using(crate::proofs::EndingFacts::endings))]
fn turns_may_end(alloc: Global, nets: &Nets, row: &PartList) -> Result<bool, NoMemory>
    requires tables { AreReadyTables nets.now.tables }
    requires row { AreReadyParts nets.now.tables row.now }
    ensures { IfOk result (λ ends. IsTrue ends ↔ EndLoop (terms_over nets.now.tables) row.now) }
{
    for index in 0..row.len() {
        if !part_may_end(alloc, nets, row.at(index))? {
            return Ok(false);
        }
    }
    Ok(true)
}

/// Whether the part of a row is a gap, or a begun turn that may end.
#[cycle(may_end)]
#[tactic(auto, using(crate::proofs::EndingFacts::endings))]
fn part_may_end(alloc: Global, nets: &Nets, part: &RowPart) -> Result<bool, NoMemory>
    requires tables { AreReadyTables nets.now.tables }
    requires part { IsReadyPart nets.now.tables (part_of part.now) }
    ensures { IfOk result (λ ends. IsTrue ends ↔ MayPartEnd (terms_over nets.now.tables) (part_of part.now)) }
{
    match part {
        RowPart::Gap(_) => Ok(true),
        RowPart::Turn(turn) => may_end(alloc, nets, turn),
    }
}

/// Where a finished walk leads.
fn finish(to: Goal) -> Goal
    ensures { goal_of result ≡ aim (goal_of to) }
{
    match to {
        Goal::Any => Goal::End,
        Goal::End => Goal::End,
        Goal::Node(node) => Goal::Node(node),
    }
}

/// Whether a walk leads there, to an end where it is to lead anywhere, through nodes whose terms may end.
#[cycle(may_end)]
#[tactic(auto, using(crate::proofs::EndingFacts::endings))]
fn walk_may_end(
    alloc: Global,
    nets: &Nets,
    net: u32,
    from: Spot,
    to: Goal,
) -> Result<bool, NoMemory>
    requires tables { AreReadyTables nets.now.tables }
    requires net { net < net_count nets.now.tables }
    requires from { IsSpotBelow (size_of (net_of nets.now.tables net)) from }
    requires to { IsGoalBelow (size_of (net_of nets.now.tables net)) to }
    ensures { IfOk result (λ ends. IsTrue ends ↔ EndWalk (terms_over nets.now.tables) net (spot_of from) (goal_of to)) }
{
    let ending = ending_nodes(alloc, nets, net)?;
    has_walk(alloc, nets.net(net), from, finish(to), &ending)
}

/// The nodes of the net whose terms may end.
#[cycle(may_end)]
#[tactic(auto, using(crate::proofs::EndingFacts::endings))]
fn ending_nodes(alloc: Global, nets: &Nets, net: u32) -> Result<NodeSet, NoMemory>
    requires tables { AreReadyTables nets.now.tables }
    requires net { net < net_count nets.now.tables }
    ensures size { IfOk result (λ nodes. nodes.size ≡ size_of (net_of nets.now.tables net)) }
    ensures net { IfOk result (λ nodes. IsNet (net_of nets.now.tables net)) }
    ensures nodes { IfOk result (λ nodes. AreEnding nets.now.tables net (size_of (net_of nets.now.tables net)) nodes.nodes) }
{
    let size = nets.net(net).size();
    let mut nodes = NodeSet::empty(alloc, size)?;
    for node in 0..size {
        let ends = may_end(alloc, nets, nets.node(net, node))?;
        add_where(&mut nodes, node, ends);
    }
    Ok(nodes)
}

/// Adds the node where the test says yes.
fn add_where(nodes: &mut NodeSet, node: u32, test: bool)
    requires { node < nodes.old.size }
    ensures size { nodes.new.size ≡ nodes.old.size }
    ensures nodes { (n : ℕ) → IsIn n nodes.new.nodes ↔ (IsIn n nodes.old.nodes ⊎ ((n ≡ node) × (test ≡ true))) }
{
    if test {
        nodes.add(node);
    }
}
