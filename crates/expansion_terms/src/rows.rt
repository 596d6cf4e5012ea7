//! The term of parts in a row, side by side or one of them, by the terms of the parts: for `terms`.

ghost use Rattle.std.specs.Prelude.{◌≡◌, IfOk, length};
ghost use Rattle.expansion_terms.specs.Constructors.{one_of};
ghost use Rattle.expansion_terms.specs.MadeTerms.{in_row, side_by_side};
ghost use Rattle.expansion_terms.specs.PartTerms.{AreNormal};
ghost use Rattle.expansion_tree.specs.Expansions.{is_exception as exception};
ghost use Rattle.expansion_tree.specs.Views.{expansion_view, expansions_view};

use crate::runs::{both, closed, no_run, placed};
use chart_term::{Term, TermList, choice, par};
use expansion_tree::Expansion;
use msc_base::NoMemory;
use std::alloc::Global;

/// Whether it is an exception.
fn is_exception(part: &Expansion) -> bool
    ensures { result ≡ exception (expansion_view part.now) }
{
    match part {
        Expansion::Exception(_) => true,
        _ => false,
    }
}

/// The term of parts in weak sequence, of which an exception stands in place of those behind it.
pub(crate) fn row_of(alloc: Global, parts: &[Expansion], terms: &TermList) -> Result<Term, NoMemory>
    requires each { length parts.now ≡ length terms.now }
    requires normal { AreNormal terms.now }
    ensures { IfOk result (λ term. term ≡ in_row (expansions_view parts.now) terms.now) }
{
    let mut run = no_run(alloc)?;
    let mut index = parts.len();
    while index > 0 {
        index -= 1;
        let front = terms.at(index).copy(alloc)?;
        run = placed(alloc, is_exception(&parts[index]), front, run)?;
    }
    let term = closed(alloc, run)?;
    Ok(term)
}

/// The term of parts side by side.
pub(crate) fn aside_of(alloc: Global, terms: &TermList) -> Result<Term, NoMemory>
    ensures { IfOk result (λ term. term ≡ side_by_side terms.now) }
{
    let mut rest = Term::nil(alloc)?;
    let mut index = terms.len();
    while index > 0 {
        index -= 1;
        let front = terms.at(index).copy(alloc)?;
        let list = both(alloc, front, rest)?;
        rest = par(alloc, list)?;
    }
    Ok(rest)
}

/// The term of one of the parts; of none that of nothing.
pub(crate) fn one_of_terms(alloc: Global, terms: TermList) -> Result<Term, NoMemory>
    ensures { IfOk result (λ term. term ≡ one_of terms) }
{
    if terms.len() == 0 {
        return Term::nil(alloc);
    }
    let term = choice(alloc, terms)?;
    Ok(term)
}
