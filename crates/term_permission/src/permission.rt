//! What permission by a block leaves of a term, part by part. term_step asks it for what is before an event.

ghost use Rattle.std.specs.Prelude.{◌≡◌, ◌<◌, IfOk, OnOk, Some, None, if◌then◌else◌};
ghost use Rattle.chart_term.specs.NormalForms.{begun, choice_of, only, walk_of, walk_cut};
ghost use Rattle.chart_term.specs.PartLists.{AreTurns};
ghost use Rattle.chart_term.specs.Properties.{EachTurn, MayHave};
ghost use Rattle.chart_term.specs.Rows.{part_of, parts_of};
ghost use Rattle.chart_term.specs.Tables.{net_count, net_of};
ghost use Rattle.chart_term.specs.Terms.{Choice, Loop, trees, row_of, ◌∪◌};
ghost use Rattle.hmsc_graph.specs.Nets.{size_of};
ghost use Rattle.hmsc_graph.specs.Spots.{spot_of, goal_of, IsSpotBelow, IsGoalBelow};
ghost use Rattle.term_laws.specs.Normality.{IsNotNil, IsPartOf, IsSet};
ghost use Rattle.term_permission.specs.Lefts.{left_of, mode_of, opened_left, ArePartsLeft};
ghost use Rattle.term_laws.specs.Permission.{permits_of, permit as permitted};
ghost use Rattle.term_permission.specs.Ready.{IsReady, AreReadyTables, IsReadyPart, AreReadyParts, IsReadyLoop};
ghost use Rattle.term_permission.specs.RowRests.{open_before, keep_part, keep_parts};
ghost use Rattle.term_laws.specs.Values.{block_of};

use crate::asking::{ask_term, ask_walk};
use crate::blocks::widened;
use crate::left::{Joint, Left, PartsLeft, both, opened_after, whole};
use crate::loops::loop_end;
use crate::parts::{LoopBlock, LoopParts, WalkParts};
use crate::remnant::Remnant;
use crate::row_end::RowEnd;
use crate::ties::retied;
use bit_sets::Block;
use chart_term::{Look, PartList, PartLook, RowPart, Term, TermList, choice, par_of, seq_of};
use hmsc_graph::{Goal, Spot};
use msc_base::NoMemory;
use std::alloc::Global;
use term_tables::Nets;

/// What is left of the term where no event of the block may happen, or None where permission fails.
///
/// Where the block misses the term, its node is handed on.
pub fn permit(
    alloc: Global,
    nets: &Nets,
    term: &Term,
    block: &Block,
) -> Result<Option<Term>, NoMemory>
    requires tables { AreReadyTables nets.now.tables }
    requires term { IsReady nets.now.tables term.now }
    ensures left { IfOk result (λ left. left ≡ permitted (permits_of nets.now.tables) (block_of block.now) term.now) }
    ensures ready { IfOk result (λ left. MayHave (IsReady nets.now.tables) left) }
{
    let left = permit_term(alloc, nets, term, block)?;
    let left = whole(alloc, term, left)?;
    Ok(left)
}

/// The same, where a term that stays as it is isn't made anew.
#[cycle(permit)]
#[tactic(auto, using(crate::proofs::Permits::permits))]
pub fn permit_term(alloc: Global, nets: &Nets, term: &Term, block: &Block) -> Result<Left, NoMemory>
    requires tables { AreReadyTables nets.now.tables }
    requires term { IsReady nets.now.tables term.now }
    ensures { IfOk result (λ left. left_of left term.now ≡ permitted (permits_of nets.now.tables) (block_of block.now) term.now) }
{
    if term.misses(block) {
        return Ok(Left::Unchanged);
    }
    match term.look() {
        Look::Nil | Look::Event { .. } => Ok(Left::Fails),
        Look::Seq(parts) => match permit_parts(alloc, nets, Joint::Row, parts, block)? {
            PartsLeft::Fails => Ok(Left::Fails),
            PartsLeft::Unchanged => Ok(Left::Unchanged),
            PartsLeft::Changed(left) => Ok(Left::Changed(seq_of(alloc, left)?)),
        },
        Look::Par(parts) => match permit_parts(alloc, nets, Joint::Aside, parts, block)? {
            PartsLeft::Fails => Ok(Left::Fails),
            PartsLeft::Unchanged => Ok(Left::Unchanged),
            PartsLeft::Changed(left) => Ok(Left::Changed(par_of(alloc, left)?)),
        },
        Look::Choice(parts) => permit_choice(alloc, nets, parts, block),
        Look::Tied(inner, pairs) => match permit_term(alloc, nets, inner, block)? {
            Left::Fails => Ok(Left::Fails),
            Left::Unchanged => Ok(Left::Unchanged),
            Left::Changed(left) => {
                let gone = inner.facts().range();
                Ok(Left::Changed(retied(alloc, left, pairs, gone)?))
            }
        },
        Look::Loop {
            body,
            lower,
            upper,
            row,
        } => {
            let turns = LoopParts {
                body,
                lower,
                upper,
                row,
            };
            let left = permit_loop(alloc, nets, turns, block)?;
            Ok(Left::of(left))
        }
        Look::Walk {
            net,
            from,
            to,
            block: own,
        } => {
            let way = WalkParts { net, from, to, own };
            let left = widened_walk(alloc, nets, way, block)?;
            Ok(Left::of(left))
        }
    }
}

/// One of the parts, or None where there is none.
fn chosen(alloc: Global, parts: TermList) -> Result<Option<Term>, NoMemory>
    ensures { IfOk result (λ term. term ≡ choice_of parts) }
{
    if parts.len() == 0 {
        return Ok(None);
    }
    Ok(Some(choice(alloc, parts)?))
}

/// What is left of the parts of a join, opened. The last of them is tried first, since events of one label are mostly held by the
/// nearest part that has it too.
#[cycle(permit)]
#[tactic(auto, using(crate::proofs::Permits::permits))]
pub fn permit_parts(
    alloc: Global,
    nets: &Nets,
    joint: Joint,
    parts: &PartList,
    block: &Block,
) -> Result<PartsLeft, NoMemory>
    requires tables { AreReadyTables nets.now.tables }
    requires turns { AreTurns parts.now }
    requires ready { EachTurn (IsReady nets.now.tables) parts.now }
    requires open { EachTurn (IsPartOf (mode_of joint)) parts.now }
    ensures { IfOk result (λ left. ArePartsLeft (opened_left (permits_of nets.now.tables) (block_of block.now) (mode_of joint) (begun parts.now)) parts.now left) }
{
    if parts.misses(block) {
        return Ok(PartsLeft::Unchanged);
    }
    match parts.look() {
        PartLook::Leaf(items) => permit_items(alloc, nets, joint, items, block),
        PartLook::Fork(first, second) => {
            let behind = permit_parts(alloc, nets, joint, second, block)?;
            if behind.fails() {
                return Ok(PartsLeft::Fails);
            }
            let before = permit_parts(alloc, nets, joint, first, block)?;
            let left = both(alloc, first, before, second, behind)?;
            Ok(left)
        }
    }
}

/// The same of parts that lie side by side in memory.
#[cycle(permit)]
#[tactic(auto, using(crate::proofs::Permits::permits))]
fn permit_items(
    alloc: Global,
    nets: &Nets,
    joint: Joint,
    items: &[RowPart],
    block: &Block,
) -> Result<PartsLeft, NoMemory>
    requires tables { AreReadyTables nets.now.tables }
    requires turns { AreTurns (parts_of items.now) }
    requires ready { EachTurn (IsReady nets.now.tables) (parts_of items.now) }
    requires open { EachTurn (IsPartOf (mode_of joint)) (parts_of items.now) }
    ensures { IfOk result (λ left. ArePartsLeft (opened_left (permits_of nets.now.tables) (block_of block.now) (mode_of joint) (begun (parts_of items.now))) (parts_of items.now) left) }
{
    let mut kept = PartList::empty(alloc)?;
    let mut changed = false;
    let mut index = items.len();
    while index > 0 {
        index -= 1;
        let term = match &items[index] {
            RowPart::Turn(term) => term,
            RowPart::Gap(_) => continue,
        };
        let left = permit_term(alloc, nets, term, block)?;
        changed |= left.is_changed();
        let Some(front) = opened_after(alloc, joint, term, left)? else {
            return Ok(PartsLeft::Fails);
        };
        kept = PartList::concat(alloc, &front, &kept)?;
    }
    if changed {
        Ok(PartsLeft::Changed(kept))
    } else {
        Ok(PartsLeft::Unchanged)
    }
}

/// What is left of a choice.
#[cycle(permit)]
#[tactic(auto, using(crate::proofs::Permits::permits))]
fn permit_choice(
    alloc: Global,
    nets: &Nets,
    parts: &PartList,
    block: &Block,
) -> Result<Left, NoMemory>
    requires tables { AreReadyTables nets.now.tables }
    requires turns { AreTurns parts.now }
    requires choice { IsReady nets.now.tables (Choice (trees (begun parts.now))) }
    ensures { IfOk result (λ left. left_of left (Choice (trees (begun parts.now))) ≡ permitted (permits_of nets.now.tables) (block_of block.now) (Choice (trees (begun parts.now)))) }
{
    let mut kept = TermList::new(alloc);
    let mut changed = false;
    for index in 0..parts.len() {
        let part = parts.term_at(index);
        match permit_term(alloc, nets, part, block)? {
            Left::Fails => changed = true,
            Left::Unchanged => kept.push(part.copy(alloc)?)?,
            Left::Changed(left) => {
                changed = true;
                kept.push(left)?;
            }
        }
    }
    if !changed {
        return Ok(Left::Unchanged);
    }
    let left = chosen(alloc, kept)?;
    Ok(Left::of(left))
}

/// What is left of a loop.
#[cycle(permit)]
#[tactic(auto, using(crate::proofs::Permits::permits))]
fn permit_loop(
    alloc: Global,
    nets: &Nets,
    turns: LoopParts<'_>,
    block: &Block,
) -> Result<Option<Term>, NoMemory>
    requires tables { AreReadyTables nets.now.tables }
    requires row { IsReadyLoop nets.now.tables turns.body.now turns.upper turns.row.now }
    ensures { IfOk result (λ left. left ≡ permitted (permits_of nets.now.tables) (block_of block.now) (Loop turns.entry.body.now turns.entry.lower turns.entry.upper (row_of turns.entry.row.now))) }
{
    let all = nets.touched(alloc, turns.body)?;
    let narrow = block.common(alloc, &all)?;
    let by = LoopBlock {
        whole: block,
        narrow: &narrow,
    };
    let mut end = RowEnd::new(alloc)?;
    if keep_parts(alloc, nets, turns, turns.row, by, &mut end)? {
        loop_end(alloc, turns.body, turns.lower, turns.upper, end)
    } else {
        Ok(None)
    }
}

/// Puts what is left of these parts of a row in front of its end, and says whether permission failed for none. Turns that the block
/// misses are handed on as they are.
#[cycle(permit)]
#[tactic(auto, using(crate::proofs::PermitRows::rows))]
pub fn keep_parts(
    alloc: Global,
    nets: &Nets,
    turns: LoopParts<'_>,
    parts: &PartList,
    by: LoopBlock<'_>,
    end: &mut RowEnd,
) -> Result<bool, NoMemory>
    requires tables { AreReadyTables nets.now.tables }
    requires body { IsReady nets.now.tables turns.body.now }
    requires row { AreReadyParts nets.now.tables parts.now }
    requires over { EachTurn IsNotNil parts.now }
    ensures { IfOk result (λ kept. (if kept then Some end.new else None)
        ≡ keep_parts (λ c. permitted (permits_of nets.now.tables) (only c) turns.entry.body.now) (λ y. permitted (permits_of nets.now.tables) (block_of by.entry.whole.now) y) turns.entry.upper by.entry.narrow.now.instances parts.now end.old) }
{
    if !parts.has_gap() && parts.misses(by.whole) {
        end.put_all(alloc, parts)?;
        return Ok(true);
    }
    match parts.look() {
        PartLook::Leaf(items) => keep_items(alloc, nets, turns, items, by, end),
        PartLook::Fork(first, second) => {
            if !keep_parts(alloc, nets, turns, second, by, end)? {
                return Ok(false);
            }
            keep_parts(alloc, nets, turns, first, by, end)
        }
    }
}

/// The same of parts that lie side by side in memory.
#[cycle(permit)]
#[tactic(auto, using(crate::proofs::PermitRows::rows))]
fn keep_items(
    alloc: Global,
    nets: &Nets,
    turns: LoopParts<'_>,
    items: &[RowPart],
    by: LoopBlock<'_>,
    end: &mut RowEnd,
) -> Result<bool, NoMemory>
    requires tables { AreReadyTables nets.now.tables }
    requires body { IsReady nets.now.tables turns.body.now }
    requires row { AreReadyParts nets.now.tables (parts_of items.now) }
    ensures { IfOk result (λ kept. (if kept then Some end.new else None)
        ≡ keep_parts (λ c. permitted (permits_of nets.now.tables) (only c) turns.entry.body.now) (λ y. permitted (permits_of nets.now.tables) (block_of by.entry.whole.now) y) turns.entry.upper by.entry.narrow.now.instances (parts_of items.now) end.old) }
{
    let mut index = items.len();
    while index > 0 {
        index -= 1;
        if !keep_part(alloc, nets, turns, &items[index], by, end)? {
            return Ok(false);
        }
    }
    Ok(true)
}

/// Puts what is left of the part in front of the row's end, and says whether permission didn't fail for it.
#[cycle(permit)]
#[tactic(auto, using(crate::proofs::PermitRows::rows))]
fn keep_part(
    alloc: Global,
    nets: &Nets,
    turns: LoopParts<'_>,
    part: &RowPart,
    by: LoopBlock<'_>,
    end: &mut RowEnd,
) -> Result<bool, NoMemory>
    requires tables { AreReadyTables nets.now.tables }
    requires body { IsReady nets.now.tables turns.body.now }
    requires part { IsReadyPart nets.now.tables (part_of part.now) }
    ensures { IfOk result (λ kept. (if kept then Some end.new else None)
        ≡ keep_part (λ c. permitted (permits_of nets.now.tables) (only c) turns.entry.body.now) (λ y. permitted (permits_of nets.now.tables) (block_of by.entry.whole.now) y) turns.entry.upper by.entry.narrow.now.instances (part_of part.now) end.old) }
{
    match part {
        RowPart::Gap(gap) => {
            let wide = widened(alloc, gap, by.narrow)?;
            put_gap(alloc, nets, turns.body, turns.upper, wide, end)?;
            Ok(true)
        }
        RowPart::Turn(turn) => match permit_term(alloc, nets, turn, by.whole)? {
            Left::Fails => Ok(false),
            Left::Unchanged => {
                end.put_turn(alloc, turn.copy(alloc)?)?;
                Ok(true)
            }
            Left::Changed(left) => {
                end.put_turn(alloc, left)?;
                Ok(true)
            }
        },
    }
}

/// Puts a gap in front of the row's end, where further turns may begin and the gap leaves something of the operand.
fn put_gap(
    alloc: Global,
    nets: &Nets,
    body: &Term,
    upper: Option<u64>,
    block: Block,
    end: &mut RowEnd,
) -> Result<(), NoMemory>
    requires tables { AreReadyTables nets.now.tables }
    requires body { IsReady nets.now.tables body.now }
    requires block { block_of block ≡ only block.instances }
    ensures { OnOk result (end.new
        ≡ open_before upper (permitted (permits_of nets.now.tables) (only block.instances) body.now) block.instances end.old) }
{
    if upper == Some(0) {
        return Ok(());
    }
    match ask_term(alloc, nets, body, &block)? {
        Remnant::Fails => Ok(()),
        Remnant::Empty => {
            end.drop_free_gap();
            Ok(())
        }
        Remnant::More => end.put_gap(alloc, block),
    }
}

/// The walk in normal form, with the instances of another block besides its own.
pub fn widened_walk(
    alloc: Global,
    nets: &Nets,
    way: WalkParts<'_>,
    block: &Block,
) -> Result<Option<Term>, NoMemory>
    requires tables { AreReadyTables nets.now.tables }
    requires net { way.net < net_count nets.now.tables }
    requires from { IsSpotBelow (size_of (net_of nets.now.tables way.net)) way.from }
    requires to { IsGoalBelow (size_of (net_of nets.now.tables way.net)) way.to }
    requires own { IsSet way.own.now.instances }
    ensures { IfOk result (λ left. left ≡ walk_of (permits_of nets.now.tables) way.entry.net (spot_of way.entry.from) (goal_of way.entry.to) (way.entry.own.now.instances ∪ block.now.instances)) }
{
    let wide = widened(alloc, way.own, block)?;
    let narrow = wide.common(alloc, nets.spread(way.net))?;
    walk(alloc, nets, way.net, way.from, way.to, narrow)
}

/// The walk in normal form, whose block is one of the net's instances.
pub(crate) fn walk(
    alloc: Global,
    nets: &Nets,
    net: u32,
    from: Spot,
    to: Goal,
    block: Block,
) -> Result<Option<Term>, NoMemory>
    requires tables { AreReadyTables nets.now.tables }
    requires net { net < net_count nets.now.tables }
    requires from { IsSpotBelow (size_of (net_of nets.now.tables net)) from }
    requires to { IsGoalBelow (size_of (net_of nets.now.tables net)) to }
    requires block { block_of block ≡ only block.instances }
    ensures { IfOk result (λ left. left ≡ walk_cut (permits_of nets.now.tables) net (spot_of from) (goal_of to) block.instances) }
{
    match ask_walk(alloc, nets, net, from, to, &block)? {
        Remnant::Fails => Ok(None),
        Remnant::Empty => Ok(Some(Term::nil(alloc)?)),
        Remnant::More => Ok(Some(Term::walk_of(alloc, net, from, to, block)?)),
    }
}
