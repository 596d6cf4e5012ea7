//! Relations on numbers, as rows of bits, and their closure: for `tables`.

ghost use Rattle.std.specs.Prelude.{◌≡◌, ◌↔◌, ◌||◌, ◌&&◌, ℕ, IfOk, OnOk, true};
ghost use Rattle.bit_sets.specs.Blocks.{has_bit};
ghost use Rattle.chart_links.specs.Rows.{AreEmpty, AreGathered, IsClosure, IsGathered, IsIdentity, IsPassed};

use crate::bit_row::BitRow;
use msc_base::NoMemory;
use std::alloc::Global;

/// The set of this number alone.
fn only(alloc: Global, number: usize) -> Result<BitRow, NoMemory>
    ensures { IfOk result (λ row. (n : ℕ) → (has_bit row n ≡ true) ↔ (n ≡ number)) }
{
    let mut row = BitRow::new(alloc);
    row.add(number)?;
    Ok(row)
}

/// So many rows, each with its own number alone.
pub(crate) fn identity_rows(alloc: Global, count: usize) -> Result<Vec<BitRow>, NoMemory>
    ensures { IfOk result (λ rows. IsIdentity count rows.items) }
{
    let mut rows = Vec::new(alloc);
    for number in 0..count {
        rows.push(only(alloc, number)?)?;
    }
    Ok(rows)
}

/// So many rows without numbers.
pub fn empty_rows(alloc: Global, count: usize) -> Result<Vec<BitRow>, NoMemory>
    ensures { IfOk result (λ rows. AreEmpty count rows.items) }
{
    let mut rows = Vec::new(alloc);
    for _ in 0..count {
        rows.push(BitRow::new(alloc))?;
    }
    Ok(rows)
}

/// Adds a set to a row that has the middle number.
fn pass_row(row: &mut BitRow, middle: usize, through: &BitRow) -> Result<(), NoMemory>
    ensures { OnOk result ((n : ℕ) → has_bit row.new n ≡ (has_bit row.old n || (has_bit row.old middle && has_bit through.now n))) }
{
    if row.has(middle) {
        row.unite(through)?;
    }
    Ok(())
}

/// Adds a set to each row that has the middle number.
fn pass(rows: &mut Vec<BitRow>, middle: usize, through: &BitRow) -> Result<(), NoMemory>
    ensures { OnOk result (IsPassed middle through.now rows.old.items rows.new.items) }
{
    for number in 0..rows.len() {
        let row = &mut rows[number];
        pass_row(row, middle, through)?;
    }
    Ok(())
}

/// Makes rows those of all paths. It takes the time of the square of their number, and for each path at most that of a row's words.
pub(crate) fn close(alloc: Global, rows: &mut Vec<BitRow>) -> Result<(), NoMemory>
    ensures { OnOk result (IsClosure rows.old.items rows.new.items) }
{
    for middle in 0..rows.len() {
        let through = rows[middle].copy(alloc)?;
        pass(rows, middle, &through)?;
    }
    Ok(())
}

/// The numbers of those sets whose own numbers are in the first.
fn gathered(alloc: Global, first: &BitRow, sets: &[BitRow]) -> Result<BitRow, NoMemory>
    ensures { IfOk result (λ row. (n : ℕ) → (has_bit row n ≡ true) ↔ IsGathered first.now sets.now n) }
{
    let mut row = BitRow::new(alloc);
    for middle in 0..sets.len() {
        if first.has(middle) {
            row.unite(&sets[middle])?;
        }
    }
    Ok(row)
}

/// For each row the numbers of the sets to which it leads.
pub(crate) fn gathered_rows(
    alloc: Global,
    over: &[BitRow],
    sets: &[BitRow],
) -> Result<Vec<BitRow>, NoMemory>
    ensures { IfOk result (λ rows. AreGathered over.now sets.now rows.items) }
{
    let mut rows = Vec::new(alloc);
    for first in over {
        rows.push(gathered(alloc, first, sets)?)?;
    }
    Ok(rows)
}
