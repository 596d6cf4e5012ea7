//! What the row of a loop comes to once its parts are put together: for `permission` and term_step.

ghost use Rattle.std.specs.Prelude.{◌≡◌, IfOk};
ghost use Rattle.term_permission.specs.RowRests.{rest_end};

use crate::row_end::RowEnd;
use chart_term::{Term, seq};
use msc_base::NoMemory;
use std::alloc::Global;

/// What the row comes to.
pub fn loop_end(
    alloc: Global,
    body: &Term,
    lower: u64,
    upper: Option<u64>,
    end: RowEnd,
) -> Result<Option<Term>, NoMemory>
    ensures { IfOk result (λ left. left ≡ rest_end body.now lower upper end) }
{
    let lower = if end.is_free() { 0 } else { lower };
    if end.has_gap() {
        let body = body.copy(alloc)?;
        let row = end.into_row();
        return Ok(Some(Term::loop_of(alloc, body, lower, upper, row)?));
    }
    if lower > 0 {
        return Ok(None);
    }
    let turns = end.into_turns(alloc)?;
    Ok(Some(seq(alloc, turns)?))
}
