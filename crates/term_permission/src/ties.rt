//! A tie put back over a term that may have lost numbers: for `permission` and term_step.

ghost use Rattle.std.specs.Prelude.{◌≡◌, IfOk};
ghost use Rattle.chart_term.specs.NormalForms.{numbers, tie_of};
ghost use Rattle.chart_term.specs.Views.{pairs_of};
ghost use Rattle.term_permission.specs.Gone.{AreShownBut};
ghost use Rattle.term_laws.specs.Normality.{ArePairsOnce};

use chart_term::Term;
use msc_base::NoMemory;
use std::alloc::Global;
use term_facts::Span;
use tie_list::TieList;

/// The term below a tie of the pairs, in normal form, where no pair stands twice. Only those with an end in the span are looked at;
/// the others are known to have both ends in the term.
pub fn retied(alloc: Global, inner: Term, pairs: &TieList, gone: Span) -> Result<Term, NoMemory>
    requires once { ArePairsOnce (pairs_of pairs.now) }
    requires shown { AreShownBut gone (numbers inner) pairs.now }
    ensures { IfOk result (λ term. term ≡ tie_of inner (pairs_of pairs.now)) }
{
    let mut kept = pairs.copy(alloc)?;
    let mut from = 0;
    while let Some(at) = kept.next_naming(from, gone.least, gone.greatest) {
        let _count = kept.len();
        let pair = kept.at(at);
        if inner.has_number(pair.first) & inner.has_number(pair.second) {
            from = at + 1;
        } else {
            kept = kept.remove(alloc, at)?;
            from = at;
        }
    }
    if kept.is_empty() {
        return Ok(inner);
    }
    Term::tie_of(alloc, inner, kept)
}
