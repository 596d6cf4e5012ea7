//! The table, line by line.

use crate::escapes::{expanded, number_of, shown};
use crate::named::NamedTexts;
use crate::setting::{Calls, Outcome, Setting};
use crate::unread::Unread;
use msc_base::{Items, NoMemory, Text, Words};
use std::alloc::Global;

/// The table as far as it has been read.
#[derive(Drop)]
pub struct Table {
    alloc: Global,
    named: NamedTexts,
    /// The name of the rows that are being read.
    name: String,
    /// How many rows of this name there were.
    number: u64,
    setting: Setting,
    rows: u64,
    differ: u64,
}

impl Table {
    /// A table of which nothing has been read.
    pub fn new(alloc: Global) -> Result<Table, NoMemory> {
        Ok(Table {
            alloc,
            named: NamedTexts::new(alloc),
            name: String::new(alloc),
            number: 0,
            setting: Setting::new(alloc)?,
            rows: 0,
            differ: 0,
        })
    }

    /// How many rows were run.
    pub fn rows(&self) -> u64 {
        self.rows
    }

    /// How many of them gave something else than what was wanted.
    pub fn differ(&self) -> u64 {
        self.differ
    }

    /// Reads a line. Where a row ends with it, the row is run, and what there is to print comes back.
    pub fn read(&mut self, line: &str) -> Result<Option<String>, Unread> {
        if line.is_empty() || line.starts_with('#') {
            return Ok(None);
        }
        if let Some(want) = line.strip_prefix("= ") {
            return Ok(Some(self.compare(want)?));
        }
        let Some((field, value)) = line.split_once(':') else {
            return Err(Unread::Field);
        };
        let value = value.strip_prefix(' ').unwrap_or(value);
        if field == "places" {
            return Ok(Some(self.compare_places(value)?));
        }
        self.set(field, value)?;
        Ok(None)
    }

    /// The bytes that a text of the table stands for.
    fn text(&self, value: &str) -> Result<Text, Unread> {
        Ok(Text::from_vec(expanded(self.alloc, &self.named, value)?))
    }

    /// Sets a field of the rows that follow.
    fn set(&mut self, field: &str, value: &str) -> Result<(), Unread> {
        if let Some(name) = field.strip_prefix("text ") {
            let bytes = expanded(self.alloc, &self.named, value)?;
            return self.named.add(self.alloc, name, bytes);
        }
        match field.as_bytes() {
            b"row" => {
                self.name = String::from_str(self.alloc, value)?;
                self.number = 0;
                self.setting = Setting::new(self.alloc)?;
            }
            b"words" => self.setting.words = self.words(value)?,
            b"document" => self.setting.document = Some(self.text(value)?),
            b"log" => self.setting.log = Some(self.text(value)?),
            b"piece" => self.setting.pieces = self.pieces(value)?,
            b"failing call" => self.setting.failing = calls_of(value)?,
            b"room" => self.setting.room = number_of(value)? as usize,
            b"failing write" => self.setting.failing_write = Some(number_of(value)?),
            _ => return Err(Unread::Field),
        }
        Ok(())
    }

    /// The words, with a blank between each and the next.
    fn words(&self, value: &str) -> Result<Words, Unread> {
        let mut words = Items::new(self.alloc);
        if value.is_empty() {
            return Ok(words);
        }
        for word in value.split(' ') {
            words.push(self.text(word)?)?;
        }
        Ok(words)
    }

    /// The sizes of pieces, with a blank between each and the next.
    fn pieces(&self, value: &str) -> Result<Vec<usize>, Unread> {
        let mut pieces = Vec::new(self.alloc);
        for piece in value.split(' ') {
            pieces.push(number_of(piece)? as usize)?;
        }
        Ok(pieces)
    }

    /// Runs the row, and says what came out of it.
    fn compare(&mut self, want: &str) -> Result<String, Unread> {
        let (status, text) = want.split_once(' ').unwrap_or((want, ""));
        let want = Outcome {
            status: status_of(status)?,
            text: self.text(text)?,
        };
        let wanted = shown_outcome(self.alloc, &want)?;
        let (other, runs) = self.setting.other_than(self.alloc, &want)?;
        let told = match &other {
            Some(got) => {
                let got = shown_outcome(self.alloc, got)?;
                format!(in self.alloc; "{got} at run {runs}, and not {wanted}")?
            }
            None if runs == 1 => wanted,
            None => format!(in self.alloc; "{wanted}, {runs} times")?,
        };
        self.line(other.is_none() && runs > 0, told.as_str())
    }

    /// The line of a row.
    fn line(&mut self, same: bool, told: &str) -> Result<String, Unread> {
        self.number = self.number.saturating_add(1);
        self.rows = self.rows.saturating_add(1);
        if !same {
            self.differ = self.differ.saturating_add(1);
        }
        let mark = if same { "" } else { "differs: " };
        let name = self.name.as_str();
        let number = self.number;
        Ok(format!(in self.alloc; "{mark}{name}, {number}: {told}")?)
    }

    /// Runs the row for each blank of the document: cut before it, and with a mark behind it.
    fn compare_places(&mut self, want: &str) -> Result<String, Unread> {
        let want = number_of(want)?;
        let Some(document) = self.setting.document.take() else {
            return Err(Unread::Field);
        };
        let mut places = 0_u64;
        let mut others = 0_u64;
        for (at, byte) in document.bytes().iter().enumerate() {
            if *byte == b' ' {
                places = places.saturating_add(1);
                if !self.is_refused_at(document.bytes(), at)? {
                    others = others.saturating_add(1);
                }
            }
        }
        self.setting.document = Some(document);
        let same = places == want && others == 0;
        let told = format!(in self.alloc; "{places} places, {others} differ")?;
        self.line(same, told.as_str())
    }

    /// Whether the document that is cut before this blank is refused at its end, and the one with a mark behind the
    /// blank, which stands in no production, at the mark.
    fn is_refused_at(&mut self, document: &[u8], at: usize) -> Result<bool, Unread> {
        let (prefix, behind) = document.split_at(at.min(document.len()));
        let end = at.wrapping_add(1);
        let want = format!(in self.alloc; "document refused at 1:{end}: syntax\n")?;
        let cut = self.is_refused(Vec::from_slice(self.alloc, prefix)?, want.as_str())?;

        let mark = at.wrapping_add(2);
        let want = format!(in self.alloc;
            "document refused at 1:{mark}: unsupported, qualifier\n"
        )?;
        let mut spoilt = Vec::from_slice(self.alloc, prefix)?;
        spoilt.extend_from_slice(b" <<")?;
        spoilt.extend_from_slice(behind)?;
        Ok(cut && self.is_refused(spoilt, want.as_str())?)
    }

    /// Whether the document is refused so.
    fn is_refused(&mut self, document: Vec<u8>, want: &str) -> Result<bool, Unread> {
        self.setting.document = Some(Text::from_vec(document));
        let want = Outcome {
            status: 4,
            text: Text::from_bytes(self.alloc, want.as_bytes())?,
        };
        let (other, runs) = self.setting.other_than(self.alloc, &want)?;
        Ok(other.is_none() && runs > 0)
    }
}

/// The status that is written so.
fn status_of(text: &str) -> Result<u8, Unread> {
    match text.parse::<u8>() {
        Ok(status) => Ok(status),
        Err(_) => Err(Unread::Number),
    }
}

/// One call, or all from one to another.
fn calls_of(value: &str) -> Result<Calls, Unread> {
    let (first, last) = value.split_once("..").unwrap_or((value, value));
    let first = number_of(first)?;
    let last = number_of(last)?;
    if first > last {
        return Err(Unread::Number);
    }
    Ok(Calls { first, last })
}

/// The status and the text as they stand in the table.
fn shown_outcome(alloc: Global, outcome: &Outcome) -> Result<String, Unread> {
    let status = outcome.status;
    if outcome.text.bytes().is_empty() {
        return Ok(format!(in alloc; "{status}")?);
    }
    let text = shown(alloc, outcome.text.bytes())?;
    Ok(format!(in alloc; "{status} {text}")?)
}
