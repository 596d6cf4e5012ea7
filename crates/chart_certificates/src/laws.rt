//! The law that a checker of certificates asks for, and for which logs a certificate holds. Each is the contract of a function that does
//! nothing.

ghost use Rattle.chart_certificates.specs.RunsTold.{CertificatesTellRuns};
ghost use Rattle.chart_certificates.specs.TermLaws.{ChartTermsServe};

use certificates::laws::certificates_are_exact;
use chart_judge::laws::charts_have_terms;
use empty_terms::laws::sound_terms_serve;
use unbegun_terms::laws::terms_are_unbegun;

/// The term of a chart of an accepted table is one of which certificates are checked.
#[tactic(auto, using(crate::proofs::TermLaws::chart_terms))]
pub(crate) fn chart_terms_serve()
    ensures { ChartTermsServe }
{
    charts_have_terms();
    sound_terms_serve();
    terms_are_unbegun();
}

/// By a chart of an accepted table a certificate holds for the events of a log exactly where the log conforms.
pub fn certificates_tell_runs()
    ensures { CertificatesTellRuns }
{
    charts_have_terms();
    chart_terms_serve();
    certificates_are_exact();
}
