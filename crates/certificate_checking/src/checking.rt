//! Whether a certificate holds.

ghost use Rattle.std.specs.Prelude.{◌↔◌, IfOk, IsTrue};
ghost use Rattle.chart_term.specs.Tables.{terms_over};
ghost use Rattle.certificates.specs.Certificates.{Holds};
ghost use Rattle.empty_terms.specs.ChartTerms.{IsChartTerm};

use crate::reading::marks_of;
use certificate_texts::Certificate;
use certificates::laws::{checks_are_exact, lines_are_exact};
use chart_term::Term;
use empty_terms::{Outline, empty_parts};
use msc_base::NoMemory;
use pattern_marks::are_run;
use std::alloc::Global;
use term_tables::Nets;

/// Whether the certificate holds for the log of these labels, by number: it shows a pattern of the term whose events stand at the places
/// of the log, each at one, with the labels that the log has there, and of each of its pairs the first stands before the second. A
/// label that the tables lack has any number that no event has.
///
/// It fails only for want of memory.
pub fn check_certificate(
    alloc: Global,
    nets: &Nets,
    term: &Term,
    labels: &[u32],
    certificate: &Certificate,
) -> Result<bool, NoMemory>
    requires { IsChartTerm nets.now.tables term.now }
    ensures { IfOk result (λ holds. IsTrue holds ↔ Holds (terms_over nets.now.tables) term.now labels.now certificate.now) }
{
    checks_are_exact();
    lines_are_exact();
    let outline = Outline::of(alloc, nets, term)?;
    let answers = empty_parts(alloc, nets, &outline)?;
    let lines = certificate.lines();
    let Some(marks) = marks_of(alloc, nets, &outline, answers.as_slice(), lines)? else {
        return Ok(false);
    };
    are_run(alloc, &outline, labels, marks.as_slice())
}
