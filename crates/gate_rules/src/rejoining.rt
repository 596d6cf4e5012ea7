//! The joins of a gate of a reference that has an earlier join: for `faults`.

ghost use Rattle.std.specs.Prelude.{◌≡◌, ◌++◌, [], OnOk};
ghost use Rattle.std.specs.List.{list_any};
ghost use Rattle.std.specs.Str.{bytes_eq};
ghost use Rattle.chart_text.specs.Gathering.{place_if};
ghost use Rattle.gate_rules.specs.GateRules.{item_joined_again, items_joined_again, joined_again};
ghost use Rattle.msc_base.specs.NameTables.{with_name};
ghost use Rattle.msc_meaning.specs.ItemViews.{items_view};
ghost use Rattle.msc_meaning.specs.Views.{item_view};

use chart_text::note_if;
use msc_base::{Items, NameTable, NoMemory, Place};
use msc_meaning::Item;
use msc_tree::Join;
use std::alloc::Global;

/// Notes a join, where its gate was seen; from then on it was.
fn note_join(
    alloc: Global,
    places: &mut Items<Place>,
    seen: &mut NameTable,
    join: &Join,
) -> Result<(), NoMemory>
    ensures places { OnOk result (places.new ≡ places.old ++ place_if (list_any (bytes_eq join.now.gate) seen.old) join.now.place) }
    ensures seen { OnOk result (seen.new ≡ with_name seen.old join.now.gate) }
{
    let gate = join.gate.bytes();
    note_if(places, join.place, seen.has(gate))?;
    seen.add(alloc, gate)
}

/// Notes those of a reference's joins that have the gate of an earlier one.
fn note_joins(alloc: Global, places: &mut Items<Place>, joins: &[Join]) -> Result<(), NoMemory>
    ensures { OnOk result (places.new ≡ places.old ++ joined_again [] joins.now) }
{
    let mut seen = NameTable::new(alloc);
    for join in joins {
        note_join(alloc, places, &mut seen, join)?;
    }
    Ok(())
}

/// Notes those of an item's joins that have the gate of an earlier one.
fn note_item(alloc: Global, places: &mut Items<Place>, item: &Item) -> Result<(), NoMemory>
    ensures { OnOk result (places.new ≡ places.old ++ item_joined_again (item_view item.now)) }
{
    match item {
        Item::Reference(reference) => note_joins(alloc, places, reference.joins.as_slice()),
        Item::Single(_) => Ok(()),
        Item::Coregion(_) => Ok(()),
        Item::Inline(_) => Ok(()),
    }
}

/// Notes those of the joins of a level's references that have the gate of an earlier one of theirs.
pub(crate) fn note_rejoined(
    alloc: Global,
    places: &mut Items<Place>,
    items: &[Item],
) -> Result<(), NoMemory>
    ensures { OnOk result (places.new ≡ places.old ++ items_joined_again (items_view items.now)) }
{
    for item in items {
        note_item(alloc, places, item)?;
    }
    Ok(())
}
