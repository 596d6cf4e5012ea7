//! The children of a term, from which its events are taken: for `firsts`.

ghost use Rattle.std.specs.Prelude.{◌≡◌, ◌<◌, IfOk, Some, length, slice_get};
ghost use Rattle.chart_term.specs.NormalForms.{begun};
ghost use Rattle.chart_term.specs.PartLists.{AreTurns};
ghost use Rattle.chart_term.specs.Rows.{part_of};
ghost use Rattle.chart_term.specs.Tables.{net_count, net_of};
ghost use Rattle.chart_term.specs.Terms.{Tree};
ghost use Rattle.hmsc_graph.specs.Nets.{size_of};
ghost use Rattle.term_laws.specs.Normality.{IsSet};
ghost use Rattle.term_laws.specs.Permission.{kept_of, permits_of};
ghost use Rattle.term_permission.specs.Ready.{AreReadyTables, IsReady, IsReadyPart};
ghost use Rattle.term_step.specs.Children.{child, row_child};
ghost use Rattle.term_step.specs.Searches.{child_count};

use bit_sets::Block;
use chart_term::{Look, PartList, RowPart, Term};
use msc_base::NoMemory;
use std::alloc::Global;
use term_permission::{permit, widened};
use term_tables::Nets;

/// From how many places of the term an event may be taken.
#[tactic(auto, using(term_step::proofs::Descending::descending))]
pub(crate) fn child_count(nets: &Nets, term: &Term) -> usize
    requires tables { AreReadyTables nets.now.tables }
    requires term { IsReady nets.now.tables term.now }
    ensures { result ≡ child_count nets.now.tables term.now }
{
    match term.look() {
        Look::Nil | Look::Event { .. } => 0,
        Look::Seq(parts) | Look::Par(parts) | Look::Choice(parts) => parts.len(),
        Look::Tied(_, _) => 1,
        Look::Loop { row, .. } => row.len(),
        Look::Walk { net, .. } => nets.net(net).size() as usize,
    }
}

/// The child of that index, if there is one: a part, a begun turn, what a gap leaves of a loop's operand, or what a walk's block leaves of
/// the term of a node.
#[tactic(auto, using(term_step::proofs::Descending::descending))]
pub(crate) fn child_at(
    alloc: Global,
    nets: &Nets,
    term: &Term,
    index: usize,
) -> Result<Option<Term>, NoMemory>
    requires tables { AreReadyTables nets.now.tables }
    requires term { IsReady nets.now.tables term.now }
    requires index { index < child_count nets.now.tables term.now }
    ensures { IfOk result (λ inner. inner ≡ child (permits_of nets.now.tables) term.now index) }
{
    match term.look() {
        Look::Nil | Look::Event { .. } => Ok(None),
        Look::Seq(parts) => {
            let part = part_at(alloc, parts, index)?;
            Ok(part)
        }
        Look::Par(parts) => {
            let part = part_at(alloc, parts, index)?;
            Ok(part)
        }
        Look::Choice(parts) => {
            let part = part_at(alloc, parts, index)?;
            Ok(part)
        }
        Look::Tied(inner, _) => Ok(Some(inner.copy(alloc)?)),
        Look::Loop {
            body,
            upper,
            row,
            ..
        } => turn_at(alloc, nets, body, upper, row.at(index)),
        Look::Walk {
            net,
            block: own,
            ..
        } => node_at(alloc, nets, net, own, index),
    }
}

/// The part of that index.
fn part_at(alloc: Global, parts: &PartList, index: usize) -> Result<Option<Term>, NoMemory>
    requires turns { AreTurns parts.now }
    requires index { index < length parts.now }
    ensures { IfOk result (λ part. part ≡ slice_get (begun parts.now) index) }
{
    Ok(Some(parts.term_at(index).copy(alloc)?))
}

/// The begun turn, or the turn that may begin in a gap, if there is one.
#[tactic(auto, using(term_step::proofs::Descending::descending))]
fn turn_at(
    alloc: Global,
    nets: &Nets,
    body: &Term,
    upper: Option<u64>,
    part: &RowPart,
) -> Result<Option<Term>, NoMemory>
    requires tables { AreReadyTables nets.now.tables }
    requires body { IsReady nets.now.tables body.now }
    requires part { IsReadyPart nets.now.tables (part_of part.now) }
    ensures { IfOk result (λ turn. turn ≡ row_child (permits_of nets.now.tables) body.now upper (Some (part_of part.now))) }
{
    match part {
        RowPart::Turn(turn) => Ok(Some(turn.copy(alloc)?)),
        RowPart::Gap(gap) => {
            if upper == Some(0) {
                return Ok(None);
            }
            let own = widened(alloc, gap, &Block::empty(alloc))?;
            let left = permit(alloc, nets, body, &own)?;
            Ok(left)
        }
    }
}

/// The number of the net's node of that index.
fn number_of(nets: &Nets, net: u32, index: usize) -> u32
    requires net { net < net_count nets.now.tables }
    requires index { index < size_of (net_of nets.now.tables net) }
    ensures { result ≡ index }
{
    let size = nets.net(net).size() as usize;
    index.min(size) as u32
}

/// What the block leaves of the term of a net's node of that index.
fn node_at(
    alloc: Global,
    nets: &Nets,
    net: u32,
    own: &Block,
    index: usize,
) -> Result<Option<Term>, NoMemory>
    requires tables { AreReadyTables nets.now.tables }
    requires net { net < net_count nets.now.tables }
    requires own { IsSet own.now.instances }
    requires index { index < size_of (net_of nets.now.tables net) }
    ensures { IfOk result (λ node. node ≡ kept_of nets.now.tables net index own.now.instances) }
{
    let node = number_of(nets, net, index);
    let term = nets.node(net, node);
    let own = widened(alloc, own, &Block::empty(alloc))?;
    let left = permit(alloc, nets, term, &own)?;
    Ok(left)
}
