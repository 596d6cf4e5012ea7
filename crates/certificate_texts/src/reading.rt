//! The reader of a certificate's text.

ghost use Rattle.std.specs.Prelude.{◌≡◌, ◌≢◌, ◌<◌, ◌≤◌, ◌+◌, ◌++◌, ◌∷◌, [], ◌⊎◌, OnOk, All, List, length, IfOk, IfErr, MatchOption, MatchResult, Err, slice_index, take};
ghost use Rattle.certificates.specs.Certificates.{Certificate};
ghost use Rattle.certificates.specs.Lines.{lines};
ghost use Rattle.certificate_texts.specs.Readings.{AreLines, IsFaultOf, IsReading, limit_line, text_lines};
ghost use Rattle.certificate_texts.specs.Levels.{IsFaultIn};
ghost use Rattle.certificate_texts.specs.Texts.{lines_of};
ghost use Rattle.certificate_texts.specs.declared.fault.CertificateFault.{CertificateFault};
ghost use Rattle.certificate_texts.specs.declared.fault.CertificateFault.TheVariants as fault;
ghost use Rattle.certificate_texts.specs.declared.fault.TheConstants.{CERTIFICATE_BYTES};

use crate::line_reading::next_line;
use crate::missing::Missing;
use crate::{CERTIFICATE_BYTES, Certificate, CertificateFault, CertificateLine};
use memchr::memchr;
use msc_base::NoMemory;
use std::alloc::Global;

/// Where the first line feed stands.
fn line_feed(bytes: &[u8]) -> Option<usize>
    ensures { MatchOption result (All (λ b. b ≢ 10) bytes.now) (λ end. (end < length bytes.now)
        × All (λ b. b ≢ 10) (take end bytes.now) × (slice_index bytes.now end ≡ 10)) }
{
    memchr(b'\n', bytes)
}

/// The first line, and what stands behind its line end.
fn cut_line(text: &[u8]) -> (&[u8], &[u8])
    requires { 0 < length text.now }
    ensures lines { text_lines text.now ≡ result.0.now ∷ text_lines result.1.now }
    ensures shorter { length result.1.now < length text.now }
{
    match line_feed(text) {
        Some(end) => (&text[..end], &text[end + 1..]),
        None => (text, &text[text.len()..]),
    }
}

/// Appends the line.
fn keep(held: &mut Vec<CertificateLine>, line: CertificateLine) -> Result<(), NoMemory>
    ensures { OnOk result (held.new.items ≡ held.old.items ++ line ∷ []) }
{
    held.push(line)?;
    Ok(())
}

/// The lines of the text, which are a certificate's.
#[tactic(auto, using(crate::proofs::Loops::ends))]
fn read_lines(alloc: Global, bytes: &[u8]) -> Result<Vec<CertificateLine>, CertificateFault>
    ensures ok { IfOk result (λ held. AreLines (text_lines bytes.now) (lines_of held.items)) }
    ensures whole { IfOk result (λ held. (certificate : Certificate) × (lines certificate ≡ lines_of held.items)) }
    ensures fault { IfErr result (IsFaultIn (text_lines bytes.now)) }
{
    let mut held = Vec::new(alloc);
    let mut missing = Missing::new(alloc)?;
    let mut rest = bytes;
    let mut number: u64 = 1;
    while !rest.is_empty() {
        let (text, others) = cut_line(rest);
        let found = next_line(&mut missing, text)?;
        match found {
            Some(line) => {
                keep(&mut held, line)?;
                rest = others;
                number += 1;
            }
            None => return Err(CertificateFault::Syntax { line: number }),
        }
    }
    if missing.is_over() {
        Ok(held)
    } else {
        Err(CertificateFault::Syntax { line: number })
    }
}

/// The line that holds the first byte behind the limit.
#[tactic(auto, using(crate::proofs::Cutting::ended_count))]
fn line_of_limit(bytes: &[u8]) -> u64
    requires { CERTIFICATE_BYTES < length bytes.now }
    ensures { result ≡ limit_line bytes.now }
{
    let within = &bytes[..CERTIFICATE_BYTES as usize];
    let ended = within.iter().filter(|byte| **byte == b'\n').count();
    ended as u64 + 1
}

/// The certificate of the text, or its fault.
fn read(alloc: Global, bytes: &[u8]) -> Result<Certificate, CertificateFault>
    ensures ok { IfOk result (λ certificate. IsReading bytes.now certificate) }
    ensures fault { IfErr result (λ told. (told ≡ fault.NoMemory) ⊎ IsFaultOf bytes.now told) }
    ensures limit { CERTIFICATE_BYTES < length bytes.now → result ≡ Err (fault.Limit (limit_line bytes.now)) }
{
    if bytes.len() as u64 > CERTIFICATE_BYTES {
        return Err(CertificateFault::Limit {
            line: line_of_limit(bytes),
        });
    }
    let held = read_lines(alloc, bytes)?;
    Ok(Certificate::from_lines(held))
}

/// The certificate that the text is.
///
/// The text's lines are cut as those of a log are, and nothing but the line of a part may stand in one. Want of memory may come at any
/// text within the limit; of other faults a text has one at most, and a text that has none is the text of one certificate.
pub fn read_certificate(alloc: Global, bytes: &[u8]) -> Result<Certificate, CertificateFault>
    ensures ok { IfOk result (λ certificate. IsReading bytes.now certificate) }
    ensures only { (certificate : Certificate) → IsReading bytes.now certificate → MatchResult result (λ read. read ≡ certificate) (λ told. told ≡ fault.NoMemory) }
    ensures fault { IfErr result (λ told. (told ≡ fault.NoMemory) ⊎ IsFaultOf bytes.now told) }
    ensures only_fault { (other : CertificateFault) → IsFaultOf bytes.now other → MatchResult result (λ _. ⊥) (λ told. (told ≡ fault.NoMemory) ⊎ (told ≡ other)) }
    ensures limit { CERTIFICATE_BYTES < length bytes.now → result ≡ Err (fault.Limit (limit_line bytes.now)) }
{
    read(alloc, bytes)
}
