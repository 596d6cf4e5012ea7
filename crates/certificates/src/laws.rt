//! The laws of certificates. Each is the contract of a function that does nothing.

ghost use Rattle.certificates.specs.CertificateLaws.{CertificatesAreExact};
ghost use Rattle.certificates.specs.CheckLaws.{ChecksAreExact};
ghost use Rattle.certificates.specs.Lines.{LinesAreExact};
ghost use Rattle.certificates.specs.Examples.{MessageIsCertified};

/// A certificate of an unbegun term holds for a log exactly where the log is a finished run of the term.
#[tactic(auto, using(crate::proofs::CertificateLaws::certificates_are_exact))]
pub fn certificates_are_exact()
    ensures { CertificatesAreExact }
{}

/// A certificate shows one pattern at most, and one pass with floors tests all pairs of a pattern with places.
#[tactic(auto, using(crate::proofs::CheckLaws::checks_are_exact))]
pub fn checks_are_exact()
    ensures { ChecksAreExact }
{}

/// Lines are of one certificate at most.
#[tactic(auto, using(crate::proofs::Lines::lines_are_exact))]
pub fn lines_are_exact()
    ensures { LinesAreExact }
{}

/// Of a message below a tie: its run has a certificate, and its labels the other way round have none.
#[tactic(auto, using(crate::proofs::Examples::message_is_certified))]
pub fn message_is_certified()
    ensures { MessageIsCertified }
{}
