//! What stands behind a backslash in a text of the table, and texts as they are printed.

use crate::named::NamedTexts;
use crate::unread::Unread;
use std::alloc::{AllocError, Global};

/// The bytes that a text of the table stands for.
pub fn expanded(alloc: Global, named: &NamedTexts, text: &str) -> Result<Vec<u8>, Unread> {
    let mut bytes = Vec::new(alloc);
    let mut rest = text;
    for _ in 0..text.len() {
        let Some((plain, behind)) = rest.split_once('\\') else {
            break;
        };
        bytes.extend_from_slice(plain.as_bytes())?;
        rest = push_escape(alloc, named, behind, &mut bytes)?;
    }
    bytes.extend_from_slice(rest.as_bytes())?;
    Ok(bytes)
}

/// Appends what is behind a backslash, and gives the rest.
fn push_escape<'a>(
    alloc: Global,
    named: &NamedTexts,
    behind: &'a str,
    bytes: &mut Vec<u8>,
) -> Result<&'a str, Unread> {
    if let Some(inner) = behind.strip_prefix('{') {
        let Some((reference, rest)) = inner.split_once('}') else {
            return Err(Unread::Escape);
        };
        push_named(alloc, named, reference, bytes)?;
        return Ok(rest);
    }
    if let Some(inner) = behind.strip_prefix('x') {
        let Some((digits, rest)) = inner.split_at_checked(2) else {
            return Err(Unread::Escape);
        };
        bytes.push(byte_of(digits)?)?;
        return Ok(rest);
    }
    let Some((mark, rest)) = behind.split_at_checked(1) else {
        return Err(Unread::Escape);
    };
    bytes.push(marked(mark)?)?;
    Ok(rest)
}

/// The byte of two hexadecimal digits.
fn byte_of(digits: &str) -> Result<u8, Unread> {
    match u8::from_str_radix(digits, 16) {
        Ok(byte) => Ok(byte),
        Err(_) => Err(Unread::Escape),
    }
}

/// The byte that this mark stands for.
fn marked(mark: &str) -> Result<u8, Unread> {
    match mark.as_bytes() {
        b"n" => Ok(b'\n'),
        b"t" => Ok(b'\t'),
        b"r" => Ok(b'\r'),
        b"\\" => Ok(b'\\'),
        _ => Err(Unread::Escape),
    }
}

/// Appends the text of a name, how often it says, or with each of the numbers behind it.
fn push_named(
    alloc: Global,
    named: &NamedTexts,
    reference: &str,
    bytes: &mut Vec<u8>,
) -> Result<(), Unread> {
    let Some((name, times)) = reference.split_once(' ') else {
        bytes.extend_from_slice(named.find(reference)?)?;
        return Ok(());
    };
    let text = named.find(name)?;
    let Some((first, last)) = times.split_once("..") else {
        for _ in 0..number_of(times)? {
            bytes.extend_from_slice(text)?;
        }
        return Ok(());
    };
    for number in number_of(first)?..=number_of(last)? {
        let shown = format!(in alloc; "{number}")?;
        bytes.extend_from_slice(text)?;
        bytes.extend_from_slice(shown.as_bytes())?;
    }
    Ok(())
}

/// The number that is written so.
pub fn number_of(text: &str) -> Result<u64, Unread> {
    match text.parse::<u64>() {
        Ok(number) => Ok(number),
        Err(_) => Err(Unread::Number),
    }
}

/// The bytes as a text of the table.
pub fn shown(alloc: Global, bytes: &[u8]) -> Result<String, AllocError> {
    let mut text = String::new(alloc);
    for byte in bytes {
        push_shown(alloc, &mut text, *byte)?;
    }
    Ok(text)
}

/// Appends a byte as it stands in a text of the table.
fn push_shown(alloc: Global, text: &mut String, byte: u8) -> Result<(), AllocError> {
    match byte {
        b'\n' => text.push_str("\\n"),
        b'\t' => text.push_str("\\t"),
        b'\r' => text.push_str("\\r"),
        b'\\' => text.push_str("\\\\"),
        b' '..=b'~' => text.push(char::from(byte)),
        _ => text.push_str(format!(in alloc; "\\x{byte:02x}")?.as_str()),
    }
}
