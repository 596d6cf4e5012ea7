//! Rebuilds a term around what an event left of one child, from the event upwards: for `search`.

ghost use Rattle.std.specs.Prelude.{◌≡◌, ◌<◌, IfOk, IfSome, Some};
ghost use Rattle.chart_term.specs.Properties.{MayHave};
ghost use Rattle.chart_term.specs.Terms.{Event as EventTree, Nil, Tree};
ghost use Rattle.chart_term.specs.Views.{event_of};
ghost use Rattle.term_step.specs.Children.{child, put};
ghost use Rattle.term_step.specs.Kept.{AreKept, AreLinked};
ghost use Rattle.term_laws.specs.Permission.{permits_of};
ghost use Rattle.term_permission.specs.Ready.{IsReady, AreReadyTables};
ghost use Rattle.term_step.specs.Searches.{IsTaken, AreReadyFrames, child_count, put_all};

mod loops;
mod rows;
mod ties;
mod walks;

use self::loops::put_in_loop;
use self::rows::{put_in_par, put_in_row};
use self::ties::put_below_tie;
use self::walks::put_on_walk;
use crate::nodes::node_at;
use bit_sets::Block;
use chart_term::{Event, Look, Term};
use msc_base::NoMemory;
use std::alloc::Global;
use term_facts::Span;
use term_permission::{LoopParts, WalkParts};
use term_tables::Nets;

/// A term, and the index in it from which an event is taken.
#[derive(Drop)]
pub struct Frame {
    /// The term.
    pub parent: Term,
    /// The index of its child: of a part, of a part of its row, of a node; 0 below a tie.
    pub index: usize,
}

/// An event that is taken, and a block of its instances.
#[derive(Drop)]
pub struct Taken {
    /// The event.
    pub event: Event,
    /// Its instances.
    pub at: Block,
}

/// What is left of the whole term from which the event at the end of the path is taken, or None where a part before it doesn't
/// let it pass.
#[tactic(auto, using(crate::proofs::Ascending::ascending))]
pub fn rebuilt(
    alloc: Global,
    nets: &Nets,
    taken: &Taken,
    path: &Vec<Frame>,
) -> Result<Option<Term>, NoMemory>
    requires tables { AreReadyTables nets.now.tables }
    requires taken { IsTaken taken.now }
    requires path { AreReadyFrames nets.now.tables path.now.items }
    requires linked { AreLinked (permits_of nets.now.tables) path.now.items (EventTree (event_of taken.now.event)) }
    ensures left { IfOk result (λ left. left ≡ put_all (permits_of nets.now.tables) (event_of taken.now.event) path.now.items Nil) }
    ensures ready { IfOk result (λ left. MayHave (IsReady nets.now.tables) left) }
{
    let mut left = Term::nil(alloc)?;
    let mut gone = Span::of(taken.event.number);
    let mut index = path.len();
    while index > 0 {
        index -= 1;
        let frame = &path[index];
        match put(
            alloc,
            nets,
            taken,
            &frame.parent,
            frame.index,
            left,
            &mut gone,
        )? {
            Some(term) => left = term,
            None => return Ok(None),
        }
    }
    Ok(Some(left))
}

/// What is left of the term whose child at the index leaves this, or None where another part doesn't let the event pass.
///
/// Numbers of the child that `gone` hasn't are numbers of what it leaves; so it is with the whole then.
#[tactic(auto, using(crate::proofs::Ascending::ascending))]
pub fn put(
    alloc: Global,
    nets: &Nets,
    taken: &Taken,
    parent: &Term,
    index: usize,
    left: Term,
    gone: &mut Span,
) -> Result<Option<Term>, NoMemory>
    requires tables { AreReadyTables nets.now.tables }
    requires taken { IsTaken taken.now }
    requires parent { IsReady nets.now.tables parent.now }
    requires index { index < child_count nets.now.tables parent.now }
    requires left { IsReady nets.now.tables left }
    requires kept { (y : Tree) → child (permits_of nets.now.tables) parent.now index ≡ Some y → AreKept gone.old y left }
    ensures whole { IfOk result (λ whole. whole ≡ put (permits_of nets.now.tables) (event_of taken.now.event) parent.now index left) }
    ensures kept { IfOk result (λ whole. IfSome whole (AreKept gone.new parent.now)) }
{
    match parent.look() {
        Look::Nil | Look::Event { .. } => Ok(None),
        Look::Seq(parts) => put_in_row(alloc, nets, taken, parts, index, &left, gone),
        Look::Par(parts) => Ok(Some(put_in_par(alloc, nets, taken, parts, index, &left)?)),
        Look::Choice(_) => {
            *gone = gone.wider(parent.facts().range());
            Ok(Some(left))
        }
        Look::Tied(inner, pairs) => put_below_tie(alloc, nets, taken, inner, pairs, left, gone),
        Look::Loop {
            body,
            lower,
            upper,
            row,
        } => {
            let turns = LoopParts {
                body,
                lower,
                upper,
                row,
            };
            *gone = gone.wider(parent.facts().range());
            let whole = put_in_loop(alloc, nets, taken, turns, index, left)?;
            Ok(whole)
        }
        Look::Walk {
            net,
            from,
            to,
            block: own,
        } => {
            let way = WalkParts { net, from, to, own };
            let node = node_at(nets, net, index);
            put_on_walk(alloc, nets, taken, way, node, left)
        }
    }
}
