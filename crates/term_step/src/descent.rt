//! The children of a term from which an event with a label may be taken, one by one: the way down of `search`.

ghost use Rattle.std.specs.Prelude.{◌≡◌, ◌<◌, ◌+◌, [], IfOk, IfSome, IfNone, Some, None, true};
ghost use Rattle.bit_sets.specs.Blocks.{BlockValue};
ghost use Rattle.chart_term.specs.NormalForms.{begun};
ghost use Rattle.chart_term.specs.PartLists.{AreTurns};
ghost use Rattle.chart_term.specs.Rows.{part_of};
ghost use Rattle.chart_term.specs.Tables.{net_count, net_of};
ghost use Rattle.chart_term.specs.Terms.{Join, Loop as LoopTree, Walk as WalkTree, row_of, trees};
ghost use Rattle.hmsc_graph.specs.Nets.{size_of};
ghost use Rattle.msc_base.specs.Patterns.{seq};
ghost use Rattle.hmsc_graph.specs.Spots.{spot_of, goal_of};
ghost use Rattle.term_step.specs.Children.{row_child};
ghost use Rattle.term_laws.specs.Normality.{IsSet};
ghost use Rattle.term_laws.specs.Permission.{kept_of, permits_of};
ghost use Rattle.term_permission.specs.Ready.{IsReady, AreReadyTables, IsReadyPart, AreReadyParts, IsReadyLoop};
ghost use Rattle.term_step.specs.Searches.{IsNext, IsTaken, child_count, is_gap};
ghost use Rattle.term_step.specs.Skips.{ArePlaced, IsBelowTie, IsChildOr, HoldsOne, IsHolding, IsNextPart};

use crate::ascent::Taken;
use crate::nodes::next_node;
use bit_sets::Block;
use chart_term::{Event, Look, PartList, RowPart, Term};
use msc_base::NoMemory;
use std::alloc::Global;
use term_permission::{Joint, LoopParts, WalkParts, ask_parts, ask_term, permit, widened};
use term_tables::Nets;

/// A child of a term, and its index.
#[derive(Drop)]
pub struct Step {
    /// The index.
    pub index: usize,
    /// The child.
    pub inner: Term,
}

/// The next child from the index on from which an event with the label may be taken, if there is one.
///
/// `met` is the last event with the label that was found, if there is one. Where a part before the index lets no event happen at its
/// instances, parts behind that have no other instance are passed over; and all parts behind, where `one_place` says that events of
/// one label have the same instances.
#[tactic(auto, using(crate::proofs::Passes::passes, crate::proofs::Descending::descending))]
pub fn next_child(
    alloc: Global,
    nets: &Nets,
    label: u32,
    term: &Term,
    from: usize,
    met: &Option<Taken>,
    one_place: bool,
) -> Result<Option<Step>, NoMemory>
    requires tables { AreReadyTables nets.now.tables }
    requires term { IsReady nets.now.tables term.now }
    requires met { IfSome met.now IsTaken }
    requires placed { one_place ≡ true → ArePlaced nets.now.tables label term.now met.now }
    ensures { IfOk result (λ next. IsNext nets.now.tables label term.now from next) }
{
    match term.look() {
        Look::Nil => Ok(None),
        Look::Event { .. } => Ok(None),
        Look::Seq(parts) => {
            let next = next_in_row(alloc, nets, label, parts, from, met, one_place)?;
            Ok(next)
        }
        Look::Par(parts) => {
            let next = next_part(alloc, parts, from, label, &Block::empty(alloc))?;
            Ok(next)
        }
        Look::Choice(parts) => {
            let next = next_part(alloc, parts, from, label, &Block::empty(alloc))?;
            Ok(next)
        }
        Look::Tied(inner, _) => {
            let next = below_tie(alloc, inner, label, from)?;
            Ok(next)
        }
        Look::Loop {
            body,
            lower,
            upper,
            row,
        } => {
            let turns = LoopParts {
                body,
                lower,
                upper,
                row,
            };
            next_turn(alloc, nets, label, turns, from, met, one_place)
        }
        Look::Walk {
            net,
            from: begin,
            to,
            block: own,
        } => {
            let way = WalkParts {
                net,
                from: begin,
                to,
                own,
            };
            next_node(alloc, nets, label, way, from, met, one_place)
        }
    }
}

/// The term below a tie, where it may have the label and the index is its.
fn below_tie(alloc: Global, inner: &Term, label: u32, from: usize) -> Result<Option<Step>, NoMemory>
    ensures { IfOk result (λ next. IsBelowTie label inner.now from next) }
{
    if from > 0 {
        return Ok(None);
    }
    if !inner.may_have(label) {
        return Ok(None);
    }
    let inner = inner.copy(alloc)?;
    Ok(Some(Step { index: 0, inner }))
}

/// The next part of a row from the index on from which an event with the label may be taken.
#[tactic(auto, using(crate::proofs::Passes::passes, crate::proofs::Descending::descending))]
fn next_in_row(
    alloc: Global,
    nets: &Nets,
    label: u32,
    parts: &PartList,
    from: usize,
    met: &Option<Taken>,
    one_place: bool,
) -> Result<Option<Step>, NoMemory>
    requires tables { AreReadyTables nets.now.tables }
    requires turns { AreTurns parts.now }
    requires row { IsReady nets.now.tables (Join seq (trees (begun parts.now))) }
    requires met { IfSome met.now IsTaken }
    requires placed { one_place ≡ true → ArePlaced nets.now.tables label (Join seq (trees (begun parts.now))) met.now }
    ensures { IfOk result (λ next. IsNext nets.now.tables label (Join seq (trees (begun parts.now))) from next) }
{
    let held = blocked(alloc, nets, parts, from, met)?;
    let Some(skip) = skip_of(alloc, held, one_place) else {
        return Ok(None);
    };
    let next = next_part(alloc, parts, from, label, &skip)?;
    let Some(step) = next else {
        return Ok(None);
    };
    if is_held(alloc, nets, parts, from, met, one_place)? {
        return Ok(None);
    }
    Ok(Some(step))
}

/// Whether the parts before the index let nothing happen at the instances of the event, where that serves.
#[tactic(auto, using(crate::proofs::Passes::passes))]
fn is_held(
    alloc: Global,
    nets: &Nets,
    parts: &PartList,
    from: usize,
    met: &Option<Taken>,
    one_place: bool,
) -> Result<bool, NoMemory>
    requires tables { AreReadyTables nets.now.tables }
    requires turns { AreTurns parts.now }
    requires row { IsReady nets.now.tables (Join seq (trees (begun parts.now))) }
    requires met { IfSome met.now IsTaken }
    ensures { IfOk result (λ held. held ≡ true → (one_place ≡ true) × HoldsOne (permits_of nets.now.tables) parts.now from met.now) }
{
    let Some(met) = met else {
        return Ok(false);
    };
    if !one_place {
        return Ok(false);
    }
    if from > parts.len() {
        return Ok(false);
    }
    if !is_alone(&met.event) {
        return Ok(false);
    }
    let before = parts.front(alloc, from)?;
    let left = ask_parts(alloc, nets, Joint::Row, &before, &met.at)?;
    Ok(left.fails())
}

/// The next of the turns from the index on that a search for the label doesn't pass over.
#[tactic(auto, using(crate::proofs::Passes::passes, crate::proofs::Descending::descending))]
fn next_part(
    alloc: Global,
    parts: &PartList,
    from: usize,
    label: u32,
    skip: &Block,
) -> Result<Option<Step>, NoMemory>
    requires { AreTurns parts.now }
    ensures { IfOk result (λ next. IsNextPart parts.now from label skip.now.instances next) }
{
    let Some(index) = parts.next_with(from, label, skip) else {
        return Ok(None);
    };
    let inner = parts.term_at(index).copy(alloc)?;
    Ok(Some(Step { index, inner }))
}

/// The instances of the event, where the part before the index lets nothing happen at them.
#[tactic(auto, using(crate::proofs::Passes::passes))]
fn blocked(
    alloc: Global,
    nets: &Nets,
    parts: &PartList,
    from: usize,
    met: &Option<Taken>,
) -> Result<Option<Block>, NoMemory>
    requires tables { AreReadyTables nets.now.tables }
    requires parts { AreReadyParts nets.now.tables parts.now }
    requires met { IfSome met.now IsTaken }
    ensures { IfOk result (λ held. IfSome held (λ skip. IsHolding (permits_of nets.now.tables) parts.now from met.now skip.instances)) }
{
    let Some(met) = met else {
        return Ok(None);
    };
    if from == 0 {
        return Ok(None);
    }
    if from >= parts.len() {
        return Ok(None);
    }
    if !is_alone(&met.event) {
        return Ok(None);
    }
    match parts.at(from - 1) {
        RowPart::Gap(_) => Ok(None),
        RowPart::Turn(turn) => {
            let left = ask_term(alloc, nets, turn, &met.at)?;
            if !left.fails() {
                return Ok(None);
            }
            let skip = met.at.copy(alloc)?;
            Ok(Some(skip))
        }
    }
}

/// The instances at which parts behind the index are passed over; none, where all of them are: where one is held at its instances,
/// and events of one label have the same.
fn skip_of(alloc: Global, held: Option<Block>, one_place: bool) -> Option<Block>
    ensures all { IfNone result ((one_place ≡ true) × (c : BlockValue) × (held ≡ Some c)) }
    ensures some { IfSome result (λ skip. IfSome held (λ c. skip ≡ c)) }
    ensures none { IfSome result (λ skip. IfNone held (skip.instances ≡ [])) }
{
    match held {
        None => Some(Block::empty(alloc)),
        Some(skip) => {
            if one_place {
                return None;
            }
            Some(skip)
        }
    }
}

/// Whether the event has one instance alone.
fn is_alone(event: &Event) -> bool
    ensures { result ≡ true → event.now.also ≡ None }
{
    match event.also {
        None => true,
        Some(_) => false,
    }
}

/// The next turn of a loop from the index on: one that has begun, or one that may begin in a gap.
#[tactic(auto, using(crate::proofs::Passes::passes, crate::proofs::Descending::descending))]
fn next_turn(
    alloc: Global,
    nets: &Nets,
    label: u32,
    turns: LoopParts<'_>,
    from: usize,
    met: &Option<Taken>,
    one_place: bool,
) -> Result<Option<Step>, NoMemory>
    requires tables { AreReadyTables nets.now.tables }
    requires row { IsReadyLoop nets.now.tables turns.body.now turns.upper turns.row.now }
    requires met { IfSome met.now IsTaken }
    requires placed { one_place ≡ true
        → ArePlaced nets.now.tables label (LoopTree turns.body.now turns.lower turns.upper (row_of turns.row.now)) met.now }
    ensures { IfOk result (λ next. IsNext nets.now.tables label (LoopTree turns.entry.body.now turns.entry.lower turns.entry.upper (row_of turns.entry.row.now)) from next) }
{
    let held = blocked(alloc, nets, turns.row, from, met)?;
    let Some(skip) = skip_of(alloc, held, one_place) else {
        return Ok(None);
    };
    let _count = turns.row.len();
    let mut at = from;
    'rows: loop {
        let Some(index) = turns.row.next_with(at, label, &skip) else {
            return Ok(None);
        };
        let part = turns.row.at(index);
        if let Some(inner) = turn_of(alloc, nets, label, turns.body, turns.upper, part)? {
            return Ok(Some(Step { index, inner }));
        }
        at = index + 1;
    }
}

/// The begun turn, or the turn that may begin in a gap, if there is one that may have the label.
#[tactic(auto, using(crate::proofs::Passes::passes))]
fn turn_of(
    alloc: Global,
    nets: &Nets,
    label: u32,
    body: &Term,
    upper: Option<u64>,
    part: &RowPart,
) -> Result<Option<Term>, NoMemory>
    requires tables { AreReadyTables nets.now.tables }
    requires body { IsReady nets.now.tables body.now }
    requires part { IsReadyPart nets.now.tables (part_of part.now) }
    ensures { IfOk result (λ turn. IsChildOr label (row_child (permits_of nets.now.tables) body.now upper (Some (part_of part.now))) turn) }
{
    if is_gap(part) {
        if !body.may_have(label) {
            return Ok(None);
        }
    }
    let left = turn_in(alloc, nets, body, upper, part)?;
    Ok(left)
}

/// Whether the part is a gap.
pub(crate) fn is_gap(part: &RowPart) -> bool
    ensures { result ≡ is_gap (part_of part.now) }
{
    matches!(part, RowPart::Gap(_))
}

/// The begun turn, or the turn that may begin in a gap, if there is one.
#[tactic(auto, using(crate::proofs::Descending::descending))]
fn turn_in(
    alloc: Global,
    nets: &Nets,
    body: &Term,
    upper: Option<u64>,
    part: &RowPart,
) -> Result<Option<Term>, NoMemory>
    requires tables { AreReadyTables nets.now.tables }
    requires body { IsReady nets.now.tables body.now }
    requires part { IsReadyPart nets.now.tables (part_of part.now) }
    ensures { IfOk result (λ turn. turn ≡ row_child (permits_of nets.now.tables) body.now upper (Some (part_of part.now))) }
{
    match part {
        RowPart::Turn(turn) => Ok(Some(turn.copy(alloc)?)),
        RowPart::Gap(gap) => {
            if upper == Some(0) {
                return Ok(None);
            }
            let own = widened(alloc, gap, &Block::empty(alloc))?;
            let left = permit(alloc, nets, body, &own)?;
            Ok(left)
        }
    }
}

/// From how many places of the term an event may be taken.
#[tactic(auto, using(crate::proofs::Passes::passes, crate::proofs::Descending::descending))]
fn child_count(nets: &Nets, term: &Term) -> usize
    requires tables { AreReadyTables nets.now.tables }
    requires term { IsReady nets.now.tables term.now }
    ensures { result ≡ child_count nets.now.tables term.now }
{
    match term.look() {
        Look::Nil => 0,
        Look::Event { .. } => 0,
        Look::Seq(parts) => parts.len(),
        Look::Par(parts) => parts.len(),
        Look::Choice(parts) => parts.len(),
        Look::Tied(_, _) => 1,
        Look::Loop { row, .. } => row.len(),
        Look::Walk { net, .. } => nets.net(net).size() as usize,
    }
}

/// The index behind that of a child.
pub fn behind(nets: &Nets, term: &Term, index: usize) -> usize
    requires tables { AreReadyTables nets.now.tables }
    requires term { IsReady nets.now.tables term.now }
    requires index { index < child_count nets.now.tables term.now }
    ensures { result ≡ index + 1 }
{
    let _count = child_count(nets, term);
    index + 1
}
