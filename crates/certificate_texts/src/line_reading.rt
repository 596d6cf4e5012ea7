//! What a line of a certificate's text says: for `reading`.

ghost use Rattle.std.specs.Prelude.{◌≡◌, ◌≢◌, ◌^◌, ◌<◌, ◌++◌, ℕ, IsTrue, ◌↔◌, MatchOption, IfOk, None, Some};
ghost use Rattle.std.specs.Fmt.{decimal};
ghost use Rattle.certificates.specs.Lines.{Line};
ghost use Rattle.certificate_texts.specs.Levels.{CannotFollow, IsLine, levels_behind};
ghost use Rattle.certificate_texts.specs.Texts.{line_of};

use crate::CertificateLine;
use crate::missing::Missing;
use crate::number::number_of;
use msc_base::NoMemory;

/// The number behind this word, where the line is the word and a number.
fn numbered(text: &[u8], word: &str) -> Option<u64>
    ensures { MatchOption result ((n : ℕ) → n < 10 ^ 10 → text.now ≢ word.now ++ decimal n) (λ n. (n < 10 ^ 10) × (text.now ≡ word.now ++ decimal n)) }
{
    match text.strip_prefix(word.as_bytes()) {
        Some(digits) => number_of(digits),
        None => None,
    }
}

/// Whether the line is this word.
fn is_word(text: &[u8], word: &str) -> bool
    ensures { IsTrue result ↔ (text.now ≡ word.now) }
{
    text == word.as_bytes()
}

/// What the line says.
#[tactic(auto, using(crate::proofs::LineReading::no_line))]
fn read_line(text: &[u8]) -> Option<CertificateLine>
    ensures { MatchOption result ((l : Line) → IsLine text.now l → ⊥) (λ line. IsLine text.now (line_of line)) }
{
    if is_word(text, "inner") {
        return Some(CertificateLine::Inner);
    }
    if is_word(text, "empty") {
        return Some(CertificateLine::Empty);
    }
    if let Some(place) = numbered(text, "event ") {
        return Some(CertificateLine::Event(place));
    }
    if let Some(count) = numbered(text, "parts ") {
        return Some(CertificateLine::Parts(count));
    }
    if let Some(index) = numbered(text, "branch ") {
        return Some(CertificateLine::Branch(index));
    }
    if let Some(count) = numbered(text, "turns ") {
        return Some(CertificateLine::Turns(count));
    }
    if let Some(count) = numbered(text, "walk ") {
        return Some(CertificateLine::Walk(count));
    }
    let node = numbered(text, "node ")?;
    Some(CertificateLine::Node(node))
}

/// Takes the next line, where it can stand there.
#[tactic(auto, using(crate::proofs::LineReading::cannot_follow, crate::proofs::LineReading::no_line_follows))]
pub fn next_line(missing: &mut Missing, text: &[u8]) -> Result<Option<CertificateLine>, NoMemory>
    ensures { IfOk result (λ found. MatchOption found (CannotFollow missing.old text.now)
        (λ line. IsLine text.now (line_of line) × (levels_behind missing.old (line_of line) ≡ Some missing.new))) }
{
    let Some(line) = read_line(text) else {
        return Ok(None);
    };
    let stands = missing.take_line(&line)?;
    if stands { Ok(Some(line)) } else { Ok(None) }
}
