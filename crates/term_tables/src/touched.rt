//! The instances that a term touches, with those of its nets: for `Nets::touched` and the spread of each net.

ghost use Rattle.std.specs.Prelude.{◌≡◌, OnOk};
ghost use Rattle.chart_term.specs.Rows.{part_of};
ghost use Rattle.chart_term.specs.Spreads.{touch, touch_all, touch_part, touch_row};
ghost use Rattle.chart_term.specs.Terms.{row_of, trees};
ghost use Rattle.term_tables.specs.NetTables.{spread_at};
ghost use Rattle.term_tables.specs.Unions.{IsUnion};

use crate::nets::StoredNet;
use bit_sets::Block;
use chart_term::{Look, PartList, PartLook, RowPart, Term, TermList};
use msc_base::NoMemory;

/// Adds the instances of the events of the term, of its loop operands, begun turns and nets.
#[cycle(touched)]
#[tactic(auto, using(crate::proofs::TouchFacts::touching))]
pub(crate) fn add_term(stored: &[StoredNet], term: &Term, block: &mut Block) -> Result<(), NoMemory>
    ensures { OnOk result (IsUnion block.old.instances (touch (spread_at stored.now) term.now) block.new.instances) }
{
    if !term.holds_walk() {
        return block.add_instances(term.instances());
    }
    match term.look() {
        Look::Nil => Ok(()),
        Look::Event { .. } => block.add_instances(term.instances()),
        Look::Seq(parts) => add_row(stored, parts, block),
        Look::Par(parts) => add_row(stored, parts, block),
        Look::Choice(parts) => add_row(stored, parts, block),
        Look::Tied(inner, _) => add_term(stored, inner, block),
        Look::Loop { body, row, .. } => {
            add_term(stored, body, block)?;
            add_row(stored, row, block)
        }
        Look::Walk { net, .. } => add_net(stored, net, block),
    }
}

/// Adds the instances of the turns of the list.
#[cycle(touched)]
#[tactic(auto, using(crate::proofs::TouchFacts::touching))]
fn add_row(stored: &[StoredNet], row: &PartList, block: &mut Block) -> Result<(), NoMemory>
    ensures { OnOk result (IsUnion block.old.instances (touch_row (spread_at stored.now) (row_of row.now)) block.new.instances) }
{
    if !row.holds_walk() {
        return block.add_instances(row.instances());
    }
    match row.look() {
        PartLook::Leaf(parts) => {
            for part in parts {
                add_part(stored, part, block)?;
            }
            Ok(())
        }
        PartLook::Fork(first, second) => {
            add_row(stored, first, block)?;
            add_row(stored, second, block)
        }
    }
}

/// Adds the instances of a begun turn.
#[cycle(touched)]
#[tactic(auto, using(crate::proofs::TouchFacts::touching))]
fn add_part(stored: &[StoredNet], part: &RowPart, block: &mut Block) -> Result<(), NoMemory>
    ensures { OnOk result (IsUnion block.old.instances (touch_part (spread_at stored.now) (part_of part.now)) block.new.instances) }
{
    match part {
        RowPart::Gap(_) => Ok(()),
        RowPart::Turn(turn) => add_term(stored, turn, block),
    }
}

/// Adds the instances that are stored with a net.
#[tactic(auto, using(crate::proofs::TouchFacts::touching))]
fn add_net(stored: &[StoredNet], net: u32, block: &mut Block) -> Result<(), NoMemory>
    ensures { OnOk result (IsUnion block.old.instances (spread_at stored.now net) block.new.instances) }
{
    match stored.get(net as usize) {
        Some(older) => block.add_instances(&older.spread),
        None => Ok(()),
    }
}

/// Adds the instances of the terms.
#[tactic(auto, using(crate::proofs::TouchFacts::touching))]
pub(crate) fn add_all(
    stored: &[StoredNet],
    terms: &TermList,
    block: &mut Block,
) -> Result<(), NoMemory>
    ensures { OnOk result (IsUnion block.old.instances (touch_all (spread_at stored.now) (trees terms.now)) block.new.instances) }
{
    for index in 0..terms.len() {
        add_term(stored, terms.at(index), block)?;
    }
    Ok(())
}
