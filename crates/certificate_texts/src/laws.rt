//! The laws of certificates' texts. Each is the contract of a function that does nothing.

ghost use Rattle.certificate_texts.specs.TextLaws.{ReadingsAreExact, TextsReadBack};

/// Reading what was printed gives the certificate, where the text is within the limit and each number in it has ten digits at most.
#[tactic(auto, using(crate::proofs::ReadingBack::texts_read_back))]
pub fn texts_read_back()
    ensures { TextsReadBack }
{}

/// A text is one certificate, or has one fault, and never both.
#[tactic(auto, using(crate::proofs::Exactness::readings_are_exact))]
pub fn readings_are_exact()
    ensures { ReadingsAreExact }
{}
