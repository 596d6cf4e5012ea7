//! The decomposed instances that an item covers beside another: for `faults`.

ghost use Rattle.std.specs.Prelude.{◌≡◌, ◌↔◌, not, ℕ, List, IfOk, OnOk};
ghost use Rattle.std.specs.List.{list_any};
ghost use Rattle.std.specs.Str.{bytes_eq};
ghost use Rattle.msc_base.specs.Lists.{IsAmong};
ghost use Rattle.msc_meaning.specs.ItemViews.{inline_view};
ghost use Rattle.msc_meaning.specs.Views.{item_view};
ghost use Rattle.msc_meaning.specs.declared.body.Item as code;
ghost use Rattle.refinement_rules.specs.Judging.{ItemShares, PartShares, has_two as two_of};
ghost use Rattle.refinement_rules.specs.Walks.{IsGrown, OneHolds};

use crate::plain::{either, negated};
use msc_base::{Name, NameTable, NoMemory};
use msc_meaning::{InlineItem, Item};
use std::alloc::Global;

/// Whether the bytes are the same.
fn is_same(a: &[u8], b: &[u8]) -> bool
    ensures { result ≡ bytes_eq a.now b.now }
{
    a == b
}

/// Whether one of the names is another.
fn has_other(first: &[u8], names: &[Name]) -> bool
    ensures { result ≡ list_any (λ m. not (bytes_eq first.now m)) names.now }
{
    let mut one = false;
    for name in names {
        one = either(one, negated(is_same(first, name.bytes())));
    }
    one
}

/// Whether two of the names differ.
fn has_two(names: &[Name]) -> bool
    ensures { result ≡ two_of names.now }
{
    match names.split_first() {
        Some((first, others)) => has_other(first.bytes(), others),
        None => false,
    }
}

/// Adds a name, where it is that of a decomposed instance.
fn add_one(
    alloc: Global,
    shared: &mut NameTable,
    refined: &NameTable,
    name: &Name,
) -> Result<(), NoMemory>
    ensures { OnOk result (IsGrown (IsAmong shared.old) (λ (n : List ℕ). (n ≡ name.now) × IsAmong refined.now n) (IsAmong shared.new)) }
{
    let text = name.bytes();
    if refined.has(text) {
        shared.add(alloc, text)?;
    }
    Ok(())
}

/// Adds those of the names that are those of decomposed instances.
fn add_each(
    alloc: Global,
    shared: &mut NameTable,
    refined: &NameTable,
    names: &[Name],
) -> Result<(), NoMemory>
    ensures { OnOk result (IsGrown (IsAmong shared.old) (OneHolds (λ (m n : List ℕ). (n ≡ m) × IsAmong refined.now n) names.now) (IsAmong shared.new)) }
{
    for name in names {
        add_one(alloc, shared, refined, name)?;
    }
    Ok(())
}

/// Adds the decomposed instances that a part covers beside another.
fn add_cover(
    alloc: Global,
    shared: &mut NameTable,
    refined: &NameTable,
    cover: &[Name],
) -> Result<(), NoMemory>
    ensures { OnOk result (IsGrown (IsAmong shared.old) (PartShares (IsAmong refined.now) cover.now) (IsAmong shared.new)) }
{
    if has_two(cover) {
        add_each(alloc, shared, refined, cover)?;
    }
    Ok(())
}

/// Adds those that an inline expression covers so.
fn add_inline(
    alloc: Global,
    shared: &mut NameTable,
    refined: &NameTable,
    inline: &InlineItem,
) -> Result<(), NoMemory>
    ensures { OnOk result (IsGrown (IsAmong shared.old) (ItemShares (IsAmong refined.now) (inline_view inline.now)) (IsAmong shared.new)) }
{
    add_cover(alloc, shared, refined, inline.cover.as_slice())
}

/// Adds those that an item covers so.
fn add_item(
    alloc: Global,
    shared: &mut NameTable,
    refined: &NameTable,
    item: &Item,
) -> Result<(), NoMemory>
    ensures { OnOk result (IsGrown (IsAmong shared.old) (ItemShares (IsAmong refined.now) (item_view item.now)) (IsAmong shared.new)) }
{
    match item {
        Item::Inline(inline) => add_inline(alloc, shared, refined, inline),
        Item::Reference(part) => add_cover(alloc, shared, refined, part.cover.as_slice()),
        Item::Single(_) => Ok(()),
        Item::Coregion(_) => Ok(()),
    }
}

/// The decomposed instances that one of the items covers beside another.
pub(crate) fn shared_names(
    alloc: Global,
    refined: &NameTable,
    items: &[Item],
) -> Result<NameTable, NoMemory>
    ensures { IfOk result (λ shared. (name : List ℕ) → IsAmong shared name ↔ OneHolds (λ (x : code.Item). ItemShares (IsAmong refined.now) (item_view x)) items.now name) }
{
    let mut shared = NameTable::new(alloc);
    for item in items {
        add_item(alloc, &mut shared, refined, item)?;
    }
    Ok(shared)
}
