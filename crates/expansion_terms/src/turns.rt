//! Turns of a term: for `terms`.

ghost use Rattle.std.specs.Prelude.{◌≡◌, ◌&&◌, not, IfOk, Some};
ghost use Rattle.chart_term.specs.NormalForms.{is_nil};
ghost use Rattle.expansion_terms.specs.Constructors.{leave_turn, turns_of};

use bit_sets::Block;
use chart_term::{Look, PartList, RowPart, Term};
use msc_base::NoMemory;
use std::alloc::Global;

/// Whether the bounds leave a turn.
fn leaves_turn(lower: u64, upper: Option<u64>) -> bool
    ensures { result ≡ leave_turn lower upper }
{
    match upper {
        None => true,
        Some(upper) => 0 < upper && lower <= upper,
    }
}

/// Whether the term is the empty process.
fn is_empty(term: &Term) -> bool
    ensures { result ≡ is_nil (Some term.now) }
{
    matches!(term.look(), Look::Nil)
}

/// Whether there is a turn in which something may happen.
fn repeats(term: &Term, lower: u64, upper: Option<u64>) -> bool
    ensures { result ≡ (leave_turn lower upper && not (is_nil (Some term.now))) }
{
    leaves_turn(lower, upper) && !is_empty(term)
}

/// So many turns of the term, none of which has begun; the empty process where it has no turn, or its turns are empty.
pub(crate) fn turns(
    alloc: Global,
    term: Term,
    lower: u64,
    upper: Option<u64>,
) -> Result<Term, NoMemory>
    ensures { IfOk result (λ made. made ≡ turns_of lower upper term) }
{
    if !repeats(&term, lower, upper) {
        return Term::nil(alloc);
    }
    let row = PartList::one(alloc, RowPart::Gap(Block::empty(alloc)))?;
    Term::loop_of(alloc, term, lower, upper, row)
}
