//! What permission leaves of a term, asked without making it: for `permission` and term_step.

ghost use Rattle.std.specs.Prelude.{◌≡◌, ◌<◌, IfOk, List, ℕ};
ghost use Rattle.chart_term.specs.NormalForms.{allowed, begun, only, walk_cut};
ghost use Rattle.chart_term.specs.PartLists.{AreTurns};
ghost use Rattle.chart_term.specs.Properties.{EachTurn};
ghost use Rattle.chart_term.specs.Rows.{part_of, parts_of};
ghost use Rattle.chart_term.specs.Tables.{net_count, net_of};
ghost use Rattle.chart_term.specs.Terms.{Choice, Loop, trees, row_of};
ghost use Rattle.hmsc_graph.specs.Nets.{IsNet, size_of};
ghost use Rattle.hmsc_graph.specs.Spots.{spot_of, goal_of, IsSpotBelow, IsGoalBelow};
ghost use Rattle.term_permission.specs.Lefts.{mode_of, opened_left};
ghost use Rattle.term_permission.specs.Passing.{ArePassable};
ghost use Rattle.term_permission.specs.Ready.{IsReady, AreReadyTables, IsReadyPart, AreReadyParts, IsReadyLoop};
ghost use Rattle.term_permission.specs.Remnants.{RemnantSays, SaysParts, Tallies, TalliesSome};
ghost use Rattle.term_permission.specs.RowRests.{RowRest, open_before, keep_part, keep_parts};
ghost use Rattle.term_laws.specs.Normality.{IsNotNil, IsPartOf};
ghost use Rattle.term_laws.specs.Permission.{permits_of, permit as permitted};
ghost use Rattle.term_laws.specs.Values.{block_of};

use crate::blocks::widened;
use crate::left::Joint;
use crate::parts::{LoopBlock, LoopParts};
use crate::passing::{Passable, has_one_of, is_aimed, visit};
use crate::remnant::{Remnant, RowTally};
use bit_sets::Block;
use chart_term::{Look, PartList, PartLook, RowPart, Term};
use hmsc_graph::{Goal, Spot, Traversal, leads, reach_back};
use msc_base::NoMemory;
use std::alloc::Global;
use term_tables::Nets;

/// What is left of the term where no event of the block may happen.
#[cycle(ask)]
#[tactic(auto, using(crate::proofs::Permits::permits))]
pub fn ask_term(alloc: Global, nets: &Nets, term: &Term, block: &Block) -> Result<Remnant, NoMemory>
    requires tables { AreReadyTables nets.now.tables }
    requires term { IsReady nets.now.tables term.now }
    ensures { IfOk result (λ left. RemnantSays left (permitted (permits_of nets.now.tables) (block_of block.now) term.now)) }
{
    if term.misses(block) {
        return Ok(Remnant::of(term));
    }
    match term.look() {
        Look::Nil | Look::Event { .. } => Ok(Remnant::Fails),
        Look::Seq(parts) => {
            let left = ask_parts(alloc, nets, Joint::Row, parts, block)?;
            Ok(left)
        }
        Look::Par(parts) => {
            let left = ask_parts(alloc, nets, Joint::Aside, parts, block)?;
            Ok(left)
        }
        Look::Choice(parts) => {
            let left = ask_choice(alloc, nets, parts, block)?;
            Ok(left)
        }
        Look::Tied(inner, _) => {
            let left = ask_term(alloc, nets, inner, block)?;
            Ok(left)
        }
        Look::Loop {
            body,
            lower,
            upper,
            row,
        } => {
            let turns = LoopParts {
                body,
                lower,
                upper,
                row,
            };
            let left = ask_loop(alloc, nets, turns, block)?;
            Ok(left)
        }
        Look::Walk {
            net,
            from,
            to,
            block: own,
        } => {
            let wide = widened(alloc, own, block)?;
            let narrow = wide.common(alloc, nets.spread(net))?;
            let left = ask_walk(alloc, nets, net, from, to, &narrow)?;
            Ok(left)
        }
    }
}

/// What is left of the parts of a join.
#[cycle(ask)]
#[tactic(auto, using(crate::proofs::Permits::permits))]
pub fn ask_parts(
    alloc: Global,
    nets: &Nets,
    joint: Joint,
    parts: &PartList,
    block: &Block,
) -> Result<Remnant, NoMemory>
    requires tables { AreReadyTables nets.now.tables }
    requires turns { AreTurns parts.now }
    requires ready { EachTurn (IsReady nets.now.tables) parts.now }
    requires open { EachTurn (IsPartOf (mode_of joint)) parts.now }
    ensures { IfOk result (λ left. SaysParts left (opened_left (permits_of nets.now.tables) (block_of block.now) (mode_of joint) (begun parts.now))) }
{
    if parts.misses(block) {
        return Ok(Remnant::of_parts(parts));
    }
    match parts.look() {
        PartLook::Leaf(items) => ask_items(alloc, nets, joint, items, block),
        PartLook::Fork(first, second) => {
            let behind = ask_parts(alloc, nets, joint, second, block)?;
            if behind.fails() {
                return Ok(Remnant::Fails);
            }
            let before = ask_parts(alloc, nets, joint, first, block)?;
            Ok(before.and(behind))
        }
    }
}

/// The same of parts that lie side by side in memory.
#[cycle(ask)]
#[tactic(auto, using(crate::proofs::Permits::permits))]
fn ask_items(
    alloc: Global,
    nets: &Nets,
    joint: Joint,
    items: &[RowPart],
    block: &Block,
) -> Result<Remnant, NoMemory>
    requires tables { AreReadyTables nets.now.tables }
    requires turns { AreTurns (parts_of items.now) }
    requires ready { EachTurn (IsReady nets.now.tables) (parts_of items.now) }
    ensures { IfOk result (λ left. SaysParts left (opened_left (permits_of nets.now.tables) (block_of block.now) (mode_of joint) (begun (parts_of items.now)))) }
{
    let _ = joint;
    let mut kept = Remnant::Empty;
    let mut index = items.len();
    while index > 0 {
        index -= 1;
        let term = match &items[index] {
            RowPart::Turn(term) => term,
            RowPart::Gap(_) => continue,
        };
        let left = ask_term(alloc, nets, term, block)?;
        if left.fails() {
            return Ok(Remnant::Fails);
        }
        kept = left.and(kept);
    }
    Ok(kept)
}

/// What is left of a choice.
#[cycle(ask)]
#[tactic(auto, using(crate::proofs::Permits::permits))]
fn ask_choice(
    alloc: Global,
    nets: &Nets,
    parts: &PartList,
    block: &Block,
) -> Result<Remnant, NoMemory>
    requires tables { AreReadyTables nets.now.tables }
    requires turns { AreTurns parts.now }
    requires choice { IsReady nets.now.tables (Choice (trees (begun parts.now))) }
    ensures { IfOk result (λ left. RemnantSays left (permitted (permits_of nets.now.tables) (block_of block.now) (Choice (trees (begun parts.now))))) }
{
    let mut kept = Remnant::Fails;
    for index in 0..parts.len() {
        let left = ask_term(alloc, nets, parts.term_at(index), block)?;
        kept = kept.or(left);
    }
    Ok(kept)
}

/// What is left of a loop.
#[cycle(ask)]
#[tactic(auto, using(crate::proofs::Permits::permits))]
fn ask_loop(
    alloc: Global,
    nets: &Nets,
    turns: LoopParts<'_>,
    block: &Block,
) -> Result<Remnant, NoMemory>
    requires tables { AreReadyTables nets.now.tables }
    requires row { IsReadyLoop nets.now.tables turns.body.now turns.upper turns.row.now }
    ensures { IfOk result (λ left. RemnantSays left (permitted (permits_of nets.now.tables) (block_of block.now) (Loop turns.entry.body.now turns.entry.lower turns.entry.upper (row_of turns.entry.row.now)))) }
{
    let all = nets.touched(alloc, turns.body)?;
    let narrow = block.common(alloc, &all)?;
    let by = LoopBlock {
        whole: block,
        narrow: &narrow,
    };
    match ask_row(alloc, nets, turns, turns.row, by, RowTally::none())? {
        None => Ok(Remnant::Fails),
        Some(tally) => Ok(tally.end(turns.lower)),
    }
}

/// What is left of these parts of a row in front of its end, or None where permission fails for one.
#[cycle(ask)]
#[tactic(auto, using(crate::proofs::PermitRows::rows))]
fn ask_row(
    alloc: Global,
    nets: &Nets,
    turns: LoopParts<'_>,
    parts: &PartList,
    by: LoopBlock<'_>,
    tally: RowTally,
) -> Result<Option<RowTally>, NoMemory>
    requires tables { AreReadyTables nets.now.tables }
    requires body { IsReady nets.now.tables turns.body.now }
    requires row { AreReadyParts nets.now.tables parts.now }
    requires over { EachTurn IsNotNil parts.now }
    ensures { IfOk result (λ after. (r : RowRest) → Tallies tally r → TalliesSome after
        (keep_parts (λ c. permitted (permits_of nets.now.tables) (only c) turns.entry.body.now) (λ y. permitted (permits_of nets.now.tables) (block_of by.entry.whole.now) y) turns.entry.upper by.entry.narrow.now.instances parts.now r)) }
{
    if !parts.has_gap() && parts.misses(by.whole) {
        return Ok(Some(tally.with_turns(Remnant::of_parts(parts))));
    }
    match parts.look() {
        PartLook::Leaf(items) => ask_row_items(alloc, nets, turns, items, by, tally),
        PartLook::Fork(first, second) => {
            match ask_row(alloc, nets, turns, second, by, tally)? {
                None => Ok(None),
                Some(behind) => ask_row(alloc, nets, turns, first, by, behind),
            }
        }
    }
}

/// The same of parts that lie side by side in memory.
#[cycle(ask)]
#[tactic(auto, using(crate::proofs::PermitRows::rows))]
fn ask_row_items(
    alloc: Global,
    nets: &Nets,
    turns: LoopParts<'_>,
    items: &[RowPart],
    by: LoopBlock<'_>,
    tally: RowTally,
) -> Result<Option<RowTally>, NoMemory>
    requires tables { AreReadyTables nets.now.tables }
    requires body { IsReady nets.now.tables turns.body.now }
    requires row { AreReadyParts nets.now.tables (parts_of items.now) }
    ensures { IfOk result (λ after. (r : RowRest) → Tallies tally r → TalliesSome after
        (keep_parts (λ c. permitted (permits_of nets.now.tables) (only c) turns.entry.body.now) (λ y. permitted (permits_of nets.now.tables) (block_of by.entry.whole.now) y) turns.entry.upper by.entry.narrow.now.instances (parts_of items.now) r)) }
{
    let mut kept = tally;
    let mut index = items.len();
    while index > 0 {
        index -= 1;
        match ask_row_part(alloc, nets, turns, &items[index], by, kept)? {
            None => return Ok(None),
            Some(more) => kept = more,
        }
    }
    Ok(Some(kept))
}

/// The same of one part.
#[cycle(ask)]
#[tactic(auto, using(crate::proofs::PermitRows::rows))]
fn ask_row_part(
    alloc: Global,
    nets: &Nets,
    turns: LoopParts<'_>,
    part: &RowPart,
    by: LoopBlock<'_>,
    tally: RowTally,
) -> Result<Option<RowTally>, NoMemory>
    requires tables { AreReadyTables nets.now.tables }
    requires body { IsReady nets.now.tables turns.body.now }
    requires part { IsReadyPart nets.now.tables (part_of part.now) }
    ensures { IfOk result (λ after. (r : RowRest) → Tallies tally r → TalliesSome after
        (keep_part (λ c. permitted (permits_of nets.now.tables) (only c) turns.entry.body.now) (λ y. permitted (permits_of nets.now.tables) (block_of by.entry.whole.now) y) turns.entry.upper by.entry.narrow.now.instances (part_of part.now) r)) }
{
    match part {
        RowPart::Gap(gap) => {
            let wide = widened(alloc, gap, by.narrow)?;
            let more = ask_gap(alloc, nets, turns.body, turns.upper, &wide, tally)?;
            Ok(Some(more))
        }
        RowPart::Turn(turn) => {
            let left = ask_term(alloc, nets, turn, by.whole)?;
            if left.fails() {
                return Ok(None);
            }
            Ok(Some(tally.with_turns(left)))
        }
    }
}

/// The same of a gap, where further turns may begin and the gap leaves something of the operand.
#[cycle(ask)]
#[tactic(auto, using(crate::proofs::PermitRows::rows))]
fn ask_gap(
    alloc: Global,
    nets: &Nets,
    body: &Term,
    upper: Option<u64>,
    block: &Block,
    tally: RowTally,
) -> Result<RowTally, NoMemory>
    requires tables { AreReadyTables nets.now.tables }
    requires body { IsReady nets.now.tables body.now }
    requires block { block_of block.now ≡ only block.now.instances }
    ensures { IfOk result (λ more. (r : RowRest) → Tallies tally r → Tallies more
        (open_before upper (permitted (permits_of nets.now.tables) (only block.now.instances) body.now) block.now.instances r)) }
{
    if upper == Some(0) {
        return Ok(tally);
    }
    let left = ask_term(alloc, nets, body, block)?;
    Ok(tally.with_gap(left))
}

/// What is left of a walk, whose block is one of the net's instances.
#[cycle(ask)]
#[tactic(auto, using(crate::proofs::PermitWalks::walks))]
pub(crate) fn ask_walk(
    alloc: Global,
    nets: &Nets,
    net: u32,
    from: Spot,
    to: Goal,
    block: &Block,
) -> Result<Remnant, NoMemory>
    requires tables { AreReadyTables nets.now.tables }
    requires net { net < net_count nets.now.tables }
    requires from { IsSpotBelow (size_of (net_of nets.now.tables net)) from }
    requires to { IsGoalBelow (size_of (net_of nets.now.tables net)) to }
    requires block { block_of block.now ≡ only block.now.instances }
    ensures { IfOk result (λ left. RemnantSays left (walk_cut (permits_of nets.now.tables) net (spot_of from) (goal_of to) block.now.instances)) }
{
    if !is_aimed(to) {
        return Ok(Remnant::More);
    }
    let graph = nets.net(net);
    let nodes = passable(alloc, nets, net, from, block)?;
    let leading = reach_back(alloc, graph, to, &nodes.passed)?;
    if !leads(graph, from, to, &nodes.passed, &leading) {
        return Ok(Remnant::Fails);
    }
    if has_one_of(&leading, nodes.full.as_slice()) {
        Ok(Remnant::More)
    } else {
        Ok(Remnant::Empty)
    }
}

/// The nodes of the net that a walk reaches from there and can pass, where nothing may happen at the instances of the block.
///
/// Permission is asked once of each node that is reached, and of no other.
#[cycle(ask)]
#[tactic(auto, using(crate::proofs::PermitWalks::walks))]
pub(crate) fn passable(
    alloc: Global,
    nets: &Nets,
    net: u32,
    from: Spot,
    block: &Block,
) -> Result<Passable, NoMemory>
    requires tables { AreReadyTables nets.now.tables }
    requires net { net < net_count nets.now.tables }
    requires from { IsSpotBelow (size_of (net_of nets.now.tables net)) from }
    requires block { block_of block.now ≡ only block.now.instances }
    ensures size { IfOk result (λ nodes. nodes.passed.size ≡ size_of (net_of nets.now.tables net)) }
    ensures net { IfOk result (λ nodes. IsNet (net_of nets.now.tables net)) }
    ensures nodes { IfOk result (λ nodes. ArePassable (net_of nets.now.tables net) (allowed (permits_of nets.now.tables) net block.now.instances)
        (λ m. (permits_of nets.now.tables).kept net m block.now.instances) (spot_of from) nodes.passed.nodes nodes.full) }
{
    let graph = nets.net(net);
    let mut nodes = Passable::none(alloc, graph.size())?;
    let mut search = Traversal::from(alloc, graph, from)?;
    while let Some(node) = search.next() {
        let left = ask_term(alloc, nets, nets.node(net, node), block)?;
        visit(&mut search, &mut nodes, graph, node, left)?;
    }
    Ok(nodes)
}
