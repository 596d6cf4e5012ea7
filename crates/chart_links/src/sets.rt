//! Sets of charts and of instances, by the numbers that `tables` gives them: for rules on what charts have in common.

ghost use Rattle.std.specs.Prelude.{◌≡◌, ◌↔◌, ◌⊎◌, ℕ, IsTrue, OnOk, length, true};
ghost use Rattle.bit_sets.specs.Blocks.{has_bit};
ghost use Rattle.chart_links.specs.Rows.{RowHas};
ghost use Rattle.chart_links.specs.Sets.{HasExpanded, LeadsToOther, MeetsExpanded, MeetsOther, MeetsRow};
ghost use Rattle.chart_links.specs.Tables.{IsNumber};

use crate::bit_row::BitRow;
use crate::tables::LinkTables;
use msc_base::{Name, NameTable, NoMemory};

/// Adds the number of a name, where it has one.
fn add_number(set: &mut BitRow, names: &NameTable, name: &Name) -> Result<(), NoMemory>
    ensures { OnOk result ((n : ℕ) → (has_bit set.new n ≡ true) ↔ ((has_bit set.old n ≡ true) ⊎ IsNumber names.now name.now n)) }
{
    if let Some(number) = names.number_of(name.bytes()) {
        set.add(number)?;
    }
    Ok(())
}

/// Adds the numbers of a row, where there is one.
fn add_numbers(set: &mut BitRow, rows: &[BitRow], row: usize) -> Result<(), NoMemory>
    ensures { OnOk result ((n : ℕ) → (has_bit set.new n ≡ true) ↔ ((has_bit set.old n ≡ true) ⊎ RowHas rows.now row n)) }
{
    if row < rows.len() {
        set.unite(&rows[row])?;
    }
    Ok(())
}

/// Whether a number of the set is in the row.
fn meets_row(rows: &[BitRow], row: usize, set: &BitRow) -> bool
    ensures { IsTrue result ↔ MeetsRow rows.now row set.now }
{
    row < rows.len() && rows[row].meets(set)
}

/// Whether the number is another than that of the row, and is both in the row and in the set.
fn is_other(row: &BitRow, own: usize, set: &BitRow, number: usize) -> bool
    ensures { IsTrue result ↔ ((number ≡ own → ⊥) × (has_bit row.now number ≡ true) × (has_bit set.now number ≡ true)) }
{
    number != own && row.has(number) && set.has(number)
}

/// Whether a number of the set below the count, other than its own, is in the row.
fn meets_other(rows: &[BitRow], count: usize, row: usize, set: &BitRow) -> bool
    ensures { IsTrue result ↔ MeetsOther rows.now count row set.now }
{
    if row >= rows.len() {
        return false;
    }
    for number in 0..count {
        if is_other(&rows[row], row, set, number) {
            return true;
        }
    }
    false
}

impl LinkTables {
    /// Adds the number of a chart, where it has one.
    pub fn add_chart(&self, set: &mut BitRow, chart: &Name) -> Result<(), NoMemory>
        ensures { OnOk result ((n : ℕ) → (has_bit set.new n ≡ true) ↔ ((has_bit set.old n ≡ true) ⊎ IsNumber self.now.names chart.now n)) }
    {
        add_number(set, &self.names, chart)
    }

    /// Adds the number of an instance, where it has one.
    pub fn add_instance(&self, set: &mut BitRow, instance: &Name) -> Result<(), NoMemory>
        ensures { OnOk result ((n : ℕ) → (has_bit set.new n ≡ true) ↔ ((has_bit set.old n ≡ true) ⊎ IsNumber self.now.known instance.now n)) }
    {
        add_number(set, &self.known, instance)
    }

    /// Adds the numbers of a chart's expanded instances.
    pub fn add_expanded(&self, set: &mut BitRow, chart: &Name) -> Result<(), NoMemory>
        ensures { OnOk result ((n : ℕ) → (has_bit set.new n ≡ true) ↔ ((has_bit set.old n ≡ true) ⊎ HasExpanded self.now.names self.now.expanded.items chart.now n)) }
    {
        if let Some(row) = self.names.number_of(chart.bytes()) {
            add_numbers(set, self.expanded.as_slice(), row)?;
        }
        Ok(())
    }

    /// Whether the number of one of a chart's expanded instances is in the set.
    pub fn meets_expanded(&self, chart: &Name, set: &BitRow) -> bool
        ensures { IsTrue result ↔ MeetsExpanded self.now.names self.now.expanded.items chart.now set.now }
    {
        match self.names.number_of(chart.bytes()) {
            Some(row) => meets_row(self.expanded.as_slice(), row, set),
            None => false,
        }
    }

    /// Whether a chart leads to another whose number is in the set. It takes the time of the number of charts.
    pub fn leads_to_other(&self, chart: &Name, set: &BitRow) -> bool
        ensures { IsTrue result ↔ LeadsToOther self.now.names self.now.reach.items chart.now set.now }
    {
        match self.names.number_of(chart.bytes()) {
            Some(row) => meets_other(self.reach.as_slice(), self.names.len(), row, set),
            None => false,
        }
    }
}
