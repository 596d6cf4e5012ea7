//! A term below a tie in normal form, without dead or repeated pairs: as charts are built.

ghost use Rattle.std.specs.Prelude.{◌≡◌, IfOk};
ghost use Rattle.chart_term.specs.NormalForms.{tie_of, kept_pairs, numbers};
ghost use Rattle.chart_term.specs.Views.{pairs_of};

use crate::Term;
use msc_base::{NoMemory, PairList};
use std::alloc::Global;
use std::collections::BTreeSet;
use tie_list::TieList;

/// The pairs whose ends both occur in the term, each once.
fn kept_pairs(alloc: Global, term: &Term, pairs: &PairList) -> Result<PairList, NoMemory>
    ensures { IfOk result (λ kept.
        pairs_of kept ≡ kept_pairs (numbers term.now) (pairs_of pairs.now)) }
{
    let mut seen = BTreeSet::new(alloc);
    let mut kept = PairList::new(alloc);
    for pair in pairs.as_slice() {
        let occurs = term.has_number(pair.first) & term.has_number(pair.second);
        let new = seen.insert((pair.first, pair.second))?;
        if occurs & new {
            kept.push(*pair)?;
        }
    }
    Ok(kept)
}

/// The term below a tie of the pairs, in normal form: a pair equal to an earlier one is dropped,
/// and so is a pair with an end that doesn't occur in the term, in its loop operands or begun
/// turns; without pairs it is the term itself.
pub fn tied(alloc: Global, inner: Term, pairs: PairList) -> Result<Term, NoMemory>
    ensures { IfOk result (λ term. term ≡ tie_of inner (pairs_of pairs)) }
{
    let kept = kept_pairs(alloc, &inner, &pairs)?;
    if kept.len() == 0 {
        return Ok(inner);
    }
    let ties = TieList::from_pairs(alloc, &kept)?;
    Term::tie_of(alloc, inner, ties)
}
