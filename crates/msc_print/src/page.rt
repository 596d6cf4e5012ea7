//! The text under way: puts blanks and line ends between tokens by one rule. It knows tokens alone, no charts.

ghost use Rattle.std.specs.Prelude.{◌≡◌, ◌++◌, ◌||◌, IfOk, OnOk, string_bytes};
ghost use Rattle.msc_print.specs.Layout.{ends_line, joins_before, joins_behind};
ghost use Rattle.msc_print.specs.Pages.{blank, lead_in, line_end, put};
ghost use Rattle.std.specs.Fmt.{decimal};

use msc_base::{NoMemory, Text};
use std::alloc::{AllocError, Global};
use std::marker::Model;

/// A text that is written token by token.
#[derive(Drop)]
pub struct Page {
    alloc: Global,
    held: Vec<u8>,
    close: bool,
}

impl Model for Page {
    ghost use Rattle.msc_print.specs.Pages.{Sheet};

    ghost Value = { Sheet };

    ghost view = { λ p. record { bytes = p.held.items; close = p.close } };
}

/// Whether a line ends behind the token.
fn ends(token: &[u8]) -> bool
    ensures { result ≡ ends_line token.now }
{
    token == ";".as_bytes()
}

/// Whether no blank stands in front of the token.
fn is_close(token: &[u8]) -> bool
    ensures { result ≡ joins_before token.now }
{
    token == ";".as_bytes()
        || token == ",".as_bytes()
        || token == ":".as_bytes()
        || token == ")".as_bytes()
        || token == ">".as_bytes()
}

/// Whether no blank stands behind the token.
fn is_open(token: &[u8]) -> bool
    ensures { result ≡ ends_line token.now || joins_behind token.now }
{
    ends(token) || token == "(".as_bytes() || token == "<".as_bytes()
}

/// Appends the blank in front of a token, where one belongs there.
fn set_apart(held: &mut Vec<u8>, close: bool, token: &[u8]) -> Result<(), NoMemory>
    ensures { OnOk result (held.new.items ≡ held.old.items ++ lead_in close token.now) }
{
    if close || is_close(token) {
        return Ok(());
    }
    held.push(b' ')?;
    Ok(())
}

/// Appends the line feed behind a token, where one belongs there.
fn end_line(held: &mut Vec<u8>, token: &[u8]) -> Result<(), NoMemory>
    ensures { OnOk result (held.new.items ≡ held.old.items ++ line_end token.now) }
{
    if !ends(token) {
        return Ok(());
    }
    held.push(b'\n')?;
    Ok(())
}

/// The digits of a number.
fn digits_of(alloc: Global, number: u64) -> Result<String, AllocError>
    ensures { IfOk result (λ s. string_bytes s ≡ decimal number) }
{
    format!(in alloc; "{number}")
}

impl Page {
    /// The page with nothing on it. It takes no memory.
    pub fn new(alloc: Global) -> Page
        ensures { result ≡ blank }
    {
        Page {
            alloc,
            held: Vec::new(alloc),
            close: true,
        }
    }

    /// Writes the token behind those that there are.
    pub fn put(&mut self, token: &[u8]) -> Result<(), NoMemory>
        ensures { OnOk result (self.new ≡ put self.old token.now) }
    {
        set_apart(&mut self.held, self.close, token)?;
        self.held.extend_from_slice(token)?;
        end_line(&mut self.held, token)?;
        self.close = is_open(token);
        Ok(())
    }

    /// Writes the word or mark.
    pub fn word(&mut self, word: &str) -> Result<(), NoMemory>
        ensures { OnOk result (self.new ≡ put self.old word.now) }
    {
        self.put(word.as_bytes())
    }

    /// Writes the number.
    pub fn number(&mut self, number: u64) -> Result<(), NoMemory>
        ensures { OnOk result (self.new ≡ put self.old (decimal number)) }
    {
        let digits = digits_of(self.alloc, number)?;
        self.put(digits.as_bytes())
    }

    /// What was written.
    pub fn into_text(self) -> Text
        ensures { result ≡ self.bytes }
    {
        Text::from_vec(self.held)
    }
}
