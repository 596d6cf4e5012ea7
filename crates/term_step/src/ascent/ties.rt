//! What is left below a tie, where none of the events that come before this one may be left out: for `ascent`.

ghost use Rattle.std.specs.Prelude.{◌≡◌, ℕ, [], IfOk, IfSome};
ghost use Rattle.chart_term.specs.NormalForms.{numbers};
ghost use Rattle.chart_term.specs.TermPatterns.{before_in};
ghost use Rattle.chart_term.specs.Terms.{Nil, Tied, has};
ghost use Rattle.chart_term.specs.Views.{event_of, pairs_of};
ghost use Rattle.term_step.specs.Children.{put};
ghost use Rattle.term_step.specs.Kept.{AreKept};
ghost use Rattle.term_laws.specs.Normality.{ArePairsOnce, AreShown};
ghost use Rattle.term_laws.specs.Permission.{permits_of};
ghost use Rattle.term_permission.specs.Ready.{IsReady, AreReadyTables};
ghost use Rattle.term_step.specs.Searches.{IsTaken};

use super::Taken;
use bit_sets::Block;
use chart_term::Term;
use msc_base::NoMemory;
use std::alloc::Global;
use term_facts::Span;
use term_permission::{Left, permit_term, retied};
use term_tables::Nets;
use tie_list::TieList;

/// A block of the numbers that the pairs put before this one.
#[tactic(auto, using(crate::proofs::Ascending::ascending))]
fn earlier(alloc: Global, pairs: &TieList, number: u32) -> Result<Block, NoMemory>
    ensures instances { IfOk result (λ block. block.instances ≡ []) }
    ensures events { IfOk result (λ block. (n : ℕ) → has block.events n ≡ has (before_in (pairs_of pairs.now) number) n) }
{
    let _count = pairs.len();
    let mut block = Block::empty(alloc);
    let mut from = 0;
    while let Some(at) = pairs.next_second(from, number) {
        block.add_event(pairs.at(at).first)?;
        from = at + 1;
    }
    Ok(block)
}

/// What is left of a term below a tie, where no event of it is to come before this one.
///
/// Numbers of the term below the tie that `gone` hasn't are numbers of what is left of it.
#[tactic(auto, using(crate::proofs::Ascending::ascending))]
pub(super) fn put_below_tie(
    alloc: Global,
    nets: &Nets,
    taken: &Taken,
    inner: &Term,
    pairs: &TieList,
    left: Term,
    gone: &mut Span,
) -> Result<Option<Term>, NoMemory>
    requires tables { AreReadyTables nets.now.tables }
    requires taken { IsTaken taken.now }
    requires left { IsReady nets.now.tables left }
    requires once { ArePairsOnce (pairs_of pairs.now) }
    requires shown { AreShown (numbers inner.now) (pairs_of pairs.now) }
    requires kept { AreKept gone.old inner.now left }
    ensures whole { IfOk result (λ whole. whole ≡ put (permits_of nets.now.tables) (event_of taken.now.event) (Tied Nil (pairs_of pairs.now)) 0 left) }
    ensures kept { IfOk result (λ whole. IfSome whole (AreKept gone.new inner.now)) }
{
    let block = earlier(alloc, pairs, taken.event.number)?;
    match permit_term(alloc, nets, &left, &block)? {
        Left::Fails => Ok(None),
        Left::Unchanged => {
            let whole = retied(alloc, left, pairs, *gone)?;
            Ok(Some(whole))
        }
        Left::Changed(kept) => {
            *gone = gone.wider(inner.facts().range());
            let whole = retied(alloc, kept, pairs, *gone)?;
            Ok(Some(whole))
        }
    }
}
