//! Whether a term names only labels, nets and nodes that the tables have: for `Nets::fits`.

ghost use Rattle.std.specs.Prelude.{◌≡◌};
ghost use Rattle.chart_term.specs.Rows.{part_of};
ghost use Rattle.chart_term.specs.Terms.{row_of};
ghost use Rattle.term_tables.specs.Fitting.{fits, fits_part, fits_row};

use crate::Nets;
use chart_term::{Look, PartList, RowPart, Term};

/// Whether each number in the term, in its loop operands and begun turns is in the tables.
#[cycle(fits)]
#[tactic(auto, using(crate::proofs::FitFacts::fitting))]
pub(crate) fn term_fits(nets: &Nets, term: &Term) -> bool
    ensures { result ≡ fits nets.now term.now }
{
    match term.look() {
        Look::Nil => true,
        Look::Event { label, .. } => nets.has_label(label),
        Look::Seq(parts) => row_fits(nets, parts),
        Look::Par(parts) => row_fits(nets, parts),
        Look::Choice(parts) => row_fits(nets, parts),
        Look::Tied(inner, _) => term_fits(nets, inner),
        Look::Loop { body, row, .. } => term_fits(nets, body) && row_fits(nets, row),
        Look::Walk { net, from, to, .. } => nets.has_ends(net, from, to),
    }
}

/// Whether each number in the turns of the list is in the tables.
#[cycle(fits)]
#[tactic(auto, using(crate::proofs::FitFacts::fitting))]
fn row_fits(nets: &Nets, row: &PartList) -> bool
    ensures { result ≡ fits_row nets.now (row_of row.now) }
{
    for index in 0..row.len() {
        if !part_fits(nets, row.at(index)) {
            return false;
        }
    }
    true
}

/// Whether each number in a begun turn is in the tables.
#[cycle(fits)]
#[tactic(auto, using(crate::proofs::FitFacts::fitting))]
fn part_fits(nets: &Nets, part: &RowPart) -> bool
    ensures { result ≡ fits_part nets.now (part_of part.now) }
{
    match part {
        RowPart::Gap(_) => true,
        RowPart::Turn(turn) => term_fits(nets, turn),
    }
}
