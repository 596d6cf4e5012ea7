//! Weaves columns to one list, by sorting the edges between neighbours. level_pieces weaves levels of a chart by it.

ghost use Rattle.std.specs.Prelude.{◌≡◌, ◌^◌, Vec, ℕ, ◌<◌, ◌++◌, List, All, length, true, IfOk, OnOk};
ghost use Rattle.msc_base.specs.Lists.{IsAmong};
ghost use Rattle.column_order.specs.Answers.{IfWhole, IfStuck};
ghost use Rattle.column_order.specs.Columns.{columns_from, items_of, neighbours};
ghost use Rattle.column_order.specs.Laws.{numbers_from};
ghost use Rattle.column_order.specs.RisingEntries.{DoAllRise};
ghost use Rattle.column_order.specs.Weaving.{IsWoven, IsCrossedAt};

use crate::Edge;
use crate::sorting::{Sorted, sort_edges, targets_of};
use msc_base::NoMemory;
use std::alloc::Global;

fn add_column(edges: &mut Vec<Edge>, column: &[u32]) -> Result<(), NoMemory>
    ensures { OnOk result (edges.new.items ≡ edges.old.items ++ neighbours column.now) }
{
    let mut earlier = None;
    for item in column {
        if let Some(from) = earlier {
            edges.push(Edge { from, to: *item })?;
        }
        earlier = Some(*item);
    }
    Ok(())
}

/// More edges than a number of 32 bits counts would want more memory than there is.
fn are_few(edges: &[Edge]) -> Result<(), NoMemory>
    ensures { OnOk result (length edges.now < 2 ^ 32) }
{
    match u32::try_from(edges.len()) {
        Ok(_) => Ok(()),
        Err(_) => Err(NoMemory),
    }
}

/// The woven list of a level whose items are numbered by place, or the earliest item that remains.
pub fn weave(alloc: Global, count: u32, columns: &[Vec<u32>]) -> Result<Sorted, NoMemory>
    requires inside { (column : List ℕ) → IsAmong (items_of columns.now) column → (x : ℕ) → IsAmong column x → x < count }
    ensures woven { IfOk result (λ sorted. IfWhole sorted (λ order. IsWoven count (items_of columns.now) order.items)) }
    ensures crossed { IfOk result (λ sorted. IfStuck sorted (IsCrossedAt count (items_of columns.now))) }
{
    let mut edges = Vec::new(alloc);
    for column in columns {
        add_column(&mut edges, column)?;
    }
    are_few(&edges)?;
    sort_edges(alloc, count, &edges)
}

/// Whether the items of each column rise along its entries, so that they stand in the order of the text. It looks at each entry once.
fn are_in_order(alloc: Global, count: u32, columns: u32, entries: &[Edge]) -> Result<bool, NoMemory>
    requires inside { All (λ entry. (entry.from < columns) × (entry.to < count)) entries.now }
    ensures { IfOk result (λ so. so ≡ true → DoAllRise entries.now) }
{
    let mut ends = vec![in alloc; 0u32; columns as usize]?;
    for entry in entries {
        let column = entry.from as usize;
        if entry.to < ends[column] {
            return Ok(false);
        }
        ends[column] = entry.to + 1;
    }
    Ok(true)
}

/// So many items in the order of the text.
pub fn text_order(alloc: Global, count: u32) -> Result<Vec<u32>, NoMemory>
    ensures { IfOk result (λ order. order.items ≡ numbers_from 0 count) }
{
    let mut order = Vec::new(alloc);
    for item in 0..count {
        order.push(item)?;
    }
    Ok(order)
}

/// The same of columns that are given entry by entry: each entry leads from its column to its item, and those of a column stand in
/// its order. Where they rise the order of the text is the woven list, and nothing is sorted.
pub fn weave_entries(
    alloc: Global,
    count: u32,
    columns: u32,
    entries: &[Edge],
) -> Result<Sorted, NoMemory>
    requires inside { All (λ entry. (entry.from < columns) × (entry.to < count)) entries.now }
    ensures woven { IfOk result (λ sorted. IfWhole sorted (λ order. IsWoven count (columns_from 0 columns entries.now) order.items)) }
    ensures crossed { IfOk result (λ sorted. IfStuck sorted (IsCrossedAt count (columns_from 0 columns entries.now))) }
{
    if are_in_order(alloc, count, columns, entries)? {
        let order = text_order(alloc, count)?;
        return Ok(Sorted::Whole(order));
    }
    let lists = targets_of(alloc, columns, entries)?;
    weave(alloc, count, lists.as_slice())
}
