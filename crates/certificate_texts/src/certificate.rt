//! A certificate as the list of its lines: for who makes, reads, checks or writes one.

ghost use Rattle.std.specs.Prelude.{◌≡◌};
ghost use Rattle.certificates.specs.Certificates.{Certificate};
ghost use Rattle.certificates.specs.Lines.{lines};
ghost use Rattle.certificate_texts.specs.Texts.{lines_of};

use crate::CertificateLine;
use std::marker::Model;

/// A certificate. Its parts aren't boxed, since they may nest as deeply as a text has lines.
#[derive(Drop)]
pub struct Certificate {
    held: Vec<CertificateLine>,
}

impl Model for Certificate {
    ghost use Rattle.std.specs.Prelude.{◌≡◌};
    ghost use Rattle.certificates.specs.Certificates.{Certificate};
    ghost use Rattle.certificates.specs.Lines.{lines};
    ghost use Rattle.certificate_texts.specs.Codes.{certificate_of, coded_certificate};
    ghost use Rattle.certificate_texts.specs.Texts.{lines_of};

    ghost Value = { Certificate };

    ghost coded = { coded_certificate };

    ghost view = { λ c. certificate_of (lines_of c.held.items) };

    ghost invariant = { λ c. lines (certificate_of (lines_of c.held.items)) ≡ lines_of c.held.items };
}

impl Certificate {
    /// The certificate of these lines, which are one's.
    pub fn from_lines(held: Vec<CertificateLine>) -> Certificate
        requires { (certificate : Certificate) × (lines certificate ≡ lines_of held.items) }
        ensures lines { lines result ≡ lines_of held.items }
        ensures only { (certificate : Certificate) → lines certificate ≡ lines_of held.items → result ≡ certificate }
    {
        Certificate { held }
    }

    /// The lines, each in front of those of what it consists of.
    pub fn lines(&self) -> &[CertificateLine]
        ensures { lines_of result.now ≡ lines self.now }
    {
        self.held.as_slice()
    }
}
