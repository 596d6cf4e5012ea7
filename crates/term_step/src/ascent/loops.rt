//! What is left of a loop after an event in a begun turn, or in one that begins in a gap: for `ascent`.

ghost use Rattle.std.specs.Prelude.{◌≡◌, ◌<◌, ◌+◌, IfOk, OnOk, Some, length, if◌then◌else◌};
ghost use Rattle.chart_term.specs.Rows.{part_of};
ghost use Rattle.chart_term.specs.Terms.{Loop, row_of};
ghost use Rattle.chart_term.specs.Views.{event_of};
ghost use Rattle.term_step.specs.Children.{put};
ghost use Rattle.term_laws.specs.Permission.{permits_of};
ghost use Rattle.term_permission.specs.Ready.{IsReady, AreReadyTables, IsReadyLoop};
ghost use Rattle.term_step.specs.Searches.{IsTaken, part_before, tail_of};
ghost use Rattle.term_laws.specs.Listing.{may_begin};
ghost use Rattle.term_laws.specs.Taking.{down, fewer};
ghost use Rattle.chart_term.specs.Properties.{EachTurn};
ghost use Rattle.term_permission.specs.RowRests.{no_rest};
ghost use Rattle.term_laws.specs.Normality.{AreApart, IsNotNil};

use super::Taken;
use crate::descent::is_gap;
use chart_term::{PartList, RowPart, Term};
use msc_base::NoMemory;
use std::alloc::Global;
use term_permission::{LoopBlock, LoopParts, RowEnd, keep_parts, loop_end};
use term_tables::Nets;

/// What is left of a loop, where a begun turn leaves this or a turn begins in a gap.
///
/// No earlier turn may do anything at the event's instances from now on.
#[tactic(auto, using(crate::proofs::Ascending::ascending))]
pub(super) fn put_in_loop(
    alloc: Global,
    nets: &Nets,
    taken: &Taken,
    turns: LoopParts<'_>,
    index: usize,
    left: Term,
) -> Result<Option<Term>, NoMemory>
    requires tables { AreReadyTables nets.now.tables }
    requires taken { IsTaken taken.now }
    requires row { IsReadyLoop nets.now.tables turns.body.now turns.upper turns.row.now }
    requires index { index < length turns.row.now }
    requires left { IsReady nets.now.tables left }
    ensures { IfOk result (λ whole. whole ≡ put (permits_of nets.now.tables) (event_of taken.now.event) (Loop turns.entry.body.now turns.entry.lower turns.entry.upper (row_of turns.entry.row.now)) index left) }
{
    let count = turns.row.len();
    let begins = is_gap(turns.row.at(index));
    if !may_begin(begins, turns.upper) {
        return Ok(None);
    }
    let onward = LoopParts {
        body: turns.body,
        lower: down(begins, turns.lower),
        upper: fewer(begins, turns.upper),
        row: turns.row,
    };
    let behind = first_behind(begins, index, count);
    let before = last_before(begins, index, count);
    let all = nets.touched(alloc, onward.body)?;
    let narrow = taken.at.common(alloc, &all)?;
    let mut end = RowEnd::new(alloc)?;
    let tail = onward.row.behind(alloc, behind)?;
    put_tail(alloc, onward.upper, &tail, &mut end)?;
    end.put_turn(alloc, left)?;
    let front = onward.row.front(alloc, before)?;
    let by = LoopBlock {
        whole: &taken.at,
        narrow: &narrow,
    };
    if keep_parts(alloc, nets, onward, &front, by, &mut end)? {
        loop_end(alloc, onward.body, onward.lower, onward.upper, end)
    } else {
        Ok(None)
    }
}

/// Puts the parts into the empty end of a row, as they are; gaps only where further turns may begin.
#[tactic(auto, using(crate::proofs::Ascending::ascending))]
fn put_tail(
    alloc: Global,
    upper: Option<u64>,
    tail: &PartList,
    end: &mut RowEnd,
) -> Result<(), NoMemory>
    requires none { end.old ≡ no_rest }
    requires apart { AreApart tail.now }
    requires over { EachTurn IsNotNil tail.now }
    ensures { OnOk result (end.new ≡ tail_of upper tail.now no_rest) }
{
    if upper == Some(0) {
        put_turns(alloc, tail, end)
    } else {
        end.put_all(alloc, tail)
    }
}

/// Puts the turns in front of the row's end, as they are.
#[tactic(auto, using(crate::proofs::Ascending::ascending))]
fn put_turns(alloc: Global, parts: &PartList, end: &mut RowEnd) -> Result<(), NoMemory>
    ensures { OnOk result (end.new ≡ tail_of (Some 0) parts.now end.old) }
{
    let mut index = parts.len();
    while index > 0 {
        index -= 1;
        put_turn(alloc, parts.at(index), end)?;
    }
    Ok(())
}

/// Puts the part in front of the row's end as it is, where it is a turn.
fn put_turn(alloc: Global, part: &RowPart, end: &mut RowEnd) -> Result<(), NoMemory>
    ensures { OnOk result (end.new ≡ part_before (Some 0) (part_of part.now) end.old) }
{
    match part {
        RowPart::Turn(turn) => end.put_turn(alloc, turn.copy(alloc)?),
        RowPart::Gap(_) => Ok(()),
    }
}

/// One less, where there is an end.
fn fewer(begins: bool, upper: Option<u64>) -> Option<u64>
    ensures { result ≡ fewer begins upper }
{
    match upper {
        None => None,
        Some(count) => Some(if begins {
            count.saturating_sub(1)
        } else {
            count
        }),
    }
}

/// One less, but not below 0.
fn down(begins: bool, lower: u64) -> u64
    ensures { result ≡ down begins lower }
{
    if begins {
        lower.saturating_sub(1)
    } else {
        lower
    }
}

/// Whether a further turn may begin, where one does.
fn may_begin(begins: bool, upper: Option<u64>) -> bool
    ensures { result ≡ may_begin begins upper }
{
    match upper {
        None => true,
        Some(count) => !begins || count > 0,
    }
}

/// From which index on the parts of a row stay as they are: where a turn begins, its gap stays behind it.
fn first_behind(begins: bool, index: usize, count: usize) -> usize
    requires { index < count }
    ensures { result ≡ (if begins then index else index + 1) }
{
    let _ = count;
    if begins { index } else { index + 1 }
}

/// How many parts of a row stand before the turn: where one begins, its gap stands before it too.
fn last_before(begins: bool, index: usize, count: usize) -> usize
    requires { index < count }
    ensures { result ≡ (if begins then index + 1 else index) }
{
    let _ = count;
    if begins { index + 1 } else { index }
}
