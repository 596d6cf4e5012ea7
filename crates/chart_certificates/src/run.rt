//! The events of a log by a chart, and whether a certificate holds for them.

ghost use Rattle.std.specs.Prelude.{◌↔◌, ℕ, List, IfOk, IsTrue};
ghost use Rattle.line_events.specs.declared.event.LineEvent.{LineEvent};
ghost use Rattle.msc_meaning.specs.Tables.{Table};
ghost use Rattle.chart_certificates.specs.ChartCertificates.{HoldsFor};
ghost use Rattle.chart_certificates.specs.Logging.{IsRunOn};

use crate::laws::chart_terms_serve;
use certificate_checking::check_certificate;
use certificate_texts::Certificate;
use chart_term::Term;
use msc_base::NoMemory;
use std::alloc::Global;
use std::marker::Model;
use std::rc::Rc;
use term_tables::Nets;

/// The events of a log as the numbers of their labels, with the term of the chart and its tables.
#[derive(Drop)]
pub struct ChartRun {
    pub(crate) nets: Rc<Nets>,
    pub(crate) term: Term,
    pub(crate) numbers: Vec<u32>,
}

impl Model for ChartRun {
    ghost use Rattle.std.specs.Coded.{codes};
    ghost use Rattle.chart_term.specs.Codes.{coded_tree};
    ghost use Rattle.chart_certificates.specs.Logging.{ChartRunValue};

    ghost Value = { ChartRunValue };

    ghost coded = { Prim.hlevel (codes, coded_tree) };

    ghost view = { λ r. record { nets = r.nets.value; term = r.term; numbers = r.numbers.items } };
}

impl ChartRun {
    /// Whether the certificate holds for the events. It fails only for want of memory.
    #[tactic(auto, using(crate::proofs::Holding::holding))]
    pub fn holds(&self, alloc: Global, certificate: &Certificate) -> Result<bool, NoMemory>
        requires { (table : Table) × (name : List ℕ) × (events : List LineEvent) × IsRunOn table name events self.now }
        ensures { (table : Table) (name : List ℕ) (events : List LineEvent) → IsRunOn table name events self.now
            → IfOk result (λ holds. IsTrue holds ↔ HoldsFor table name events certificate.now) }
    {
        chart_terms_serve();
        check_certificate(
            alloc,
            &self.nets,
            &self.term,
            self.numbers.as_slice(),
            certificate,
        )
    }
}
