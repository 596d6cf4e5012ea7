//! Numbers of labels.

use label_table::LabelTable;
use msc_base::{Far, Kind, Label, Name, NoMemory, Text};
use std::alloc::Global;
use std::test::Fail;

/// Labels that differ from the first in one part, and the first itself: instance, kind, text and far end, if any.
const ROWS: &str =
    "i output m j; j output m j; i input m j; i output n j; i output m i; i output m env; i output m";

/// The far end of that name, or the environment.
fn far(alloc: Global, name: Option<&str>) -> Result<Far, Fail> {
    match name {
        None => Ok(Far::Nobody),
        Some("env") => Ok(Far::Env),
        Some(name) => Ok(Far::Instance(Name::from_bytes(alloc, name.as_bytes())?)),
    }
}

/// The label of a row.
fn label(alloc: Global, row: &str) -> Result<Label, Fail> {
    let mut words = row.split_whitespace();
    let at = words.next().unwrap_or("");
    let kind = words.next().unwrap_or("");
    let text = words.next().unwrap_or("");
    Ok(Label {
        at: Name::from_bytes(alloc, at.as_bytes())?,
        kind: if kind == "input" {
            Kind::Input
        } else {
            Kind::Output
        },
        text: Text::from_bytes(alloc, text.as_bytes())?,
        far: far(alloc, words.next())?,
    })
}

/// Adds the label of the row where it is new, and gives its number.
fn add(alloc: Global, table: &mut LabelTable, row: &str) -> Result<Option<u32>, Fail> {
    let label = label(alloc, row)?;
    if table.len() == u32::MAX {
        return Ok(None);
    }
    match table.number_of(&label) {
        Some(_) => Ok(None),
        None => {
            let number = table.add(label)?;
            Ok(Some(number))
        }
    }
}

/// Adds the labels of all rows, and says whether they got the numbers from 0 on.
fn add_all(alloc: Global, table: &mut LabelTable) -> Result<bool, Fail> {
    let mut count: u32 = 0;
    for row in ROWS.split(';') {
        if add(alloc, table, row)? != Some(count) {
            return Ok(false);
        }
        count = count.saturating_add(1);
    }
    Ok(true)
}

/// The number of the row's label in the table.
fn number(alloc: Global, table: &LabelTable, row: &str) -> Result<Option<u32>, Fail> {
    let label = label(alloc, row)?;
    Ok(table.number_of(&label))
}

/// Whether the labels of all rows have the numbers from 0 on.
fn are_numbered(alloc: Global, table: &LabelTable) -> Result<bool, Fail> {
    let mut count: u32 = 0;
    for row in ROWS.split(';') {
        if number(alloc, table, row)? != Some(count) {
            return Ok(false);
        }
        count = count.saturating_add(1);
    }
    Ok(true)
}

#[test]
fn labels_that_differ_in_one_part_have_numbers_of_their_own(rt: HostRuntime) -> Result<(), Fail> {
    let alloc = rt.alloc();
    let mut table = LabelTable::new(alloc);
    assert!(rt; add_all(alloc, &mut table)?);
    assert!(rt; are_numbered(alloc, &table)?);
    Ok(())
}

#[test]
fn label_of_known_words_that_is_lacking_has_no_number(rt: HostRuntime) -> Result<(), Fail> {
    let alloc = rt.alloc();
    let mut table = LabelTable::new(alloc);
    add(alloc, &mut table, "i output m j")?;
    assert!(rt; number(alloc, &table, "j output m i")? == None);
    assert!(rt; number(alloc, &table, "i output j m")? == None);
    assert!(rt; number(alloc, &table, "i output x j")? == None);
    assert!(rt; add(alloc, &mut table, "i output m j")? == None);
    Ok(())
}
