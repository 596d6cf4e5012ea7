//! The text of a certificate.

ghost use Rattle.std.specs.Prelude.{◌≡◌, ◌++◌, ◌∷◌, [], IfOk, OnOk};
ghost use Rattle.std.specs.Fmt.{decimal};
ghost use Rattle.certificate_texts.specs.Texts.{bytes_of_lines, certificate_bytes, line_bytes, line_of, lines_of};

use crate::{Certificate, CertificateLine};
use itoa::Buffer;
use msc_base::{NoMemory, Text};
use std::alloc::Global;

/// Appends the word, as a line.
fn put_word(out: &mut Vec<u8>, word: &str) -> Result<(), NoMemory>
    ensures { OnOk result (out.new.items ≡ out.old.items ++ (word.now ++ 10 ∷ [])) }
{
    out.extend_from_slice(word.as_bytes())?;
    out.push(b'\n')?;
    Ok(())
}

/// Appends the word and the number, as a line.
fn put_number(out: &mut Vec<u8>, word: &str, number: u64) -> Result<(), NoMemory>
    ensures { OnOk result (out.new.items ≡ out.old.items ++ ((word.now ++ decimal number) ++ 10 ∷ [])) }
{
    let mut buffer = Buffer::new();
    out.extend_from_slice(word.as_bytes())?;
    out.extend_from_slice(buffer.format(number).as_bytes())?;
    out.push(b'\n')?;
    Ok(())
}

/// Appends the line.
fn put_line(out: &mut Vec<u8>, line: &CertificateLine) -> Result<(), NoMemory>
    ensures { OnOk result (out.new.items ≡ out.old.items ++ (line_bytes (line_of line.now) ++ 10 ∷ [])) }
{
    match *line {
        CertificateLine::Empty => put_word(out, "empty"),
        CertificateLine::Event(place) => put_number(out, "event ", place),
        CertificateLine::Parts(count) => put_number(out, "parts ", count),
        CertificateLine::Branch(index) => put_number(out, "branch ", index),
        CertificateLine::Inner => put_word(out, "inner"),
        CertificateLine::Turns(count) => put_number(out, "turns ", count),
        CertificateLine::Walk(count) => put_number(out, "walk ", count),
        CertificateLine::Node(node) => put_number(out, "node ", node),
    }
}

/// The bytes of the lines.
fn bytes_of(alloc: Global, lines: &[CertificateLine]) -> Result<Vec<u8>, NoMemory>
    ensures { IfOk result (λ bytes. bytes.items ≡ bytes_of_lines (lines_of lines.now)) }
{
    let mut out = Vec::new(alloc);
    for line in lines {
        put_line(&mut out, line)?;
    }
    Ok(out)
}

/// The text of the certificate: one line for each part of it, in front of those of what it consists of. It fails only for want of
/// memory.
pub fn certificate_text(alloc: Global, certificate: &Certificate) -> Result<Text, NoMemory>
    ensures { IfOk result (λ text. text ≡ certificate_bytes certificate.now) }
{
    let bytes = bytes_of(alloc, certificate.lines())?;
    Ok(Text::from_vec(bytes))
}
