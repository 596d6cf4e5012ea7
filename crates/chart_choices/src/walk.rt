//! The walk through a chart's text and its expansion side by side: for `choices`.

ghost use Rattle.std.specs.Prelude.{◌≡◌, [], ◌∷◌, ◌++◌, OnOk, true};
ghost use Rattle.std.specs.Cmp.Lexicographic.{slice_cmp};
ghost use Rattle.std.specs.List.Sorted.{IsStrictlySortedBy};
ghost use Rattle.std.specs.Ordering.{nat_cmp};
ghost use Rattle.expansion_tree.specs.Views.{expansion_view, expansions_view};
ghost use Rattle.msc_meaning.specs.ItemViews.{bodies_view, inline_view, items_view};
ghost use Rattle.msc_meaning.specs.Refinements.{without_decomposed};
ghost use Rattle.msc_meaning.specs.Views.{body_view, item_view};
ghost use Rattle.choice_parts.specs.ChoiceParts.{item_parts, items_parts, level_parts, operands_parts, own_parts, part_behind, part_list};
ghost use Rattle.choice_terms.specs.JudgedParts.{IsJudgedPart};
ghost use Rattle.chart_choices.specs.Making.{AreJudged, AreReady, EachJudged, IsPushed, IsWalked, is_left};

use crate::choice::Choice;
use crate::makers::{Makers, add_all_makers, add_behind, names_of, no_makers};
use crate::tables::TermTables;
use choice_parts::{operands_in, pairs_in, row_in};
use expansion_tree::Expansion;
use level_surroundings::Decomposed;
use msc_base::{NoMemory, Pair, Place};
use msc_meaning::{Body, InlineItem, Item};
use msc_tree::InlineForm;
use std::alloc::Global;

/// Adds the choice at that place, where several instances make it.
fn push_choice(
    alloc: Global,
    place: Place,
    makers: Makers,
    found: &mut Vec<Choice>,
) -> Result<(), NoMemory>
    ensures { OnOk result (IsPushed place makers.keys found.old.items found.new.items) }
{
    let instances = names_of(alloc, makers)?;
    if instances.len() > 1 {
        found.push(Choice { place, instances })?;
    }
    Ok(())
}

/// Adds a choice between operands.
fn add_choice(
    alloc: Global,
    tables: &mut TermTables,
    place: Place,
    operands: &[Expansion],
    found: &mut Vec<Choice>,
) -> Result<(), NoMemory>
    requires judged { EachJudged tables.old.names tables.old.nets.labels (part_list (expansions_view operands.now)) }
    requires ready { AreReady tables.old }
    ensures { OnOk result (IsWalked tables.old tables.new (record { place = place; operands = part_list (expansions_view operands.now) } ∷ []) found.old.items found.new.items) }
{
    let mut makers = no_makers(alloc);
    add_all_makers(alloc, tables, operands, &mut makers)?;
    push_choice(alloc, place, makers, found)
}

/// Adds the choice between the operands of an exception and what stands behind it on a level of these pairs.
fn add_exception(
    alloc: Global,
    tables: &mut TermTables,
    place: Place,
    operands: &[Expansion],
    behind: &[Expansion],
    pairs: &[Pair],
    found: &mut Vec<Choice>,
) -> Result<(), NoMemory>
    requires judged { EachJudged tables.old.names tables.old.nets.labels (part_list (expansions_view operands.now)) }
    requires behind { IsJudgedPart tables.old.names tables.old.nets.labels (part_behind (expansions_view behind.now) pairs.now) }
    requires ready { AreReady tables.old }
    ensures { OnOk result (IsWalked tables.old tables.new (record { place = place; operands = part_list (expansions_view operands.now) ++ part_behind (expansions_view behind.now) pairs.now ∷ [] } ∷ []) found.old.items found.new.items) }
{
    let mut makers = no_makers(alloc);
    add_all_makers(alloc, tables, operands, &mut makers)?;
    add_behind(alloc, tables, behind, pairs, &mut makers)?;
    push_choice(alloc, place, makers, found)
}

/// Adds the choice that an inline expression of the form is, where it is one.
fn add_own(
    alloc: Global,
    tables: &mut TermTables,
    form: InlineForm,
    place: Place,
    operands: &[Expansion],
    behind: &[Expansion],
    pairs: &[Pair],
    found: &mut Vec<Choice>,
) -> Result<(), NoMemory>
    requires judged { AreJudged tables.old.names tables.old.nets.labels (own_parts form place (expansions_view operands.now) (part_behind (expansions_view behind.now) pairs.now)) }
    requires ready { AreReady tables.old }
    ensures { OnOk result (IsWalked tables.old tables.new (own_parts form place (expansions_view operands.now) (part_behind (expansions_view behind.now) pairs.now)) found.old.items found.new.items) }
{
    match form {
        InlineForm::Alt => add_choice(alloc, tables, place, operands, found),
        InlineForm::Opt => add_choice(alloc, tables, place, operands, found),
        InlineForm::Exc => { add_exception(alloc, tables, place, operands, behind, pairs, found) }
        InlineForm::Par => Ok(()),
        InlineForm::Loop => Ok(()),
    }
}

/// Adds the choices of an item, which comes to the first of these parts.
#[cycle(walk)]
fn add_item(
    alloc: Global,
    tables: &mut TermTables,
    item: &Item,
    part: &Expansion,
    behind: &[Expansion],
    pairs: &[Pair],
    found: &mut Vec<Choice>,
) -> Result<(), NoMemory>
    requires judged { AreJudged tables.old.names tables.old.nets.labels (item_parts (item_view item.now) (expansion_view part.now) (expansions_view behind.now) pairs.now) }
    requires ready { AreReady tables.old }
    ensures { OnOk result (IsWalked tables.old tables.new (item_parts (item_view item.now) (expansion_view part.now) (expansions_view behind.now) pairs.now) found.old.items found.new.items) }
{
    match item {
        Item::Inline(inline) => add_inline(alloc, tables, inline, part, behind, pairs, found),
        Item::Single(_) => Ok(()),
        Item::Coregion(_) => Ok(()),
        Item::Reference(_) => Ok(()),
    }
}

/// Adds the choices of an inline expression: its own, and those of its operands.
#[cycle(walk)]
fn add_inline(
    alloc: Global,
    tables: &mut TermTables,
    inline: &InlineItem,
    part: &Expansion,
    behind: &[Expansion],
    pairs: &[Pair],
    found: &mut Vec<Choice>,
) -> Result<(), NoMemory>
    requires judged { AreJudged tables.old.names tables.old.nets.labels (item_parts (inline_view inline.now) (expansion_view part.now) (expansions_view behind.now) pairs.now) }
    requires ready { AreReady tables.old }
    ensures { OnOk result (IsWalked tables.old tables.new (item_parts (inline_view inline.now) (expansion_view part.now) (expansions_view behind.now) pairs.now) found.old.items found.new.items) }
{
    let operands = operands_in(inline.form, part);
    add_own(
        alloc,
        tables,
        inline.form,
        inline.place,
        operands,
        behind,
        pairs,
        found,
    )?;
    add_operands(alloc, tables, inline.operands.as_slice(), operands, found)
}

/// Adds the choices of operands.
#[cycle(walk)]
fn add_operands(
    alloc: Global,
    tables: &mut TermTables,
    bodies: &[Body],
    parts: &[Expansion],
    found: &mut Vec<Choice>,
) -> Result<(), NoMemory>
    requires judged { AreJudged tables.old.names tables.old.nets.labels (operands_parts (bodies_view bodies.now) (expansions_view parts.now)) }
    requires ready { AreReady tables.old }
    ensures { OnOk result (IsWalked tables.old tables.new (operands_parts (bodies_view bodies.now) (expansions_view parts.now)) found.old.items found.new.items) }
{
    let mut rest = parts;
    for body in bodies {
        let Some((part, others)) = rest.split_first() else {
            return Ok(());
        };
        add_level(alloc, tables, body, part, found)?;
        rest = others;
    }
    Ok(())
}

/// Adds the choices of a level.
#[cycle(walk)]
pub(crate) fn add_level(
    alloc: Global,
    tables: &mut TermTables,
    body: &Body,
    part: &Expansion,
    found: &mut Vec<Choice>,
) -> Result<(), NoMemory>
    requires judged { AreJudged tables.old.names tables.old.nets.labels (level_parts (body_view body.now) (expansion_view part.now)) }
    requires ready { AreReady tables.old }
    ensures { OnOk result (IsWalked tables.old tables.new (level_parts (body_view body.now) (expansion_view part.now)) found.old.items found.new.items) }
{
    let items = body.items.as_slice();
    add_items(alloc, tables, items, row_in(part), pairs_in(part), found)
}

/// Adds the choices of items that come to the parts of a row, on a level of these pairs.
#[cycle(walk)]
fn add_items(
    alloc: Global,
    tables: &mut TermTables,
    items: &[Item],
    row: &[Expansion],
    pairs: &[Pair],
    found: &mut Vec<Choice>,
) -> Result<(), NoMemory>
    requires judged { AreJudged tables.old.names tables.old.nets.labels (items_parts (items_view items.now) (expansions_view row.now) pairs.now) }
    requires ready { AreReady tables.old }
    ensures { OnOk result (IsWalked tables.old tables.new (items_parts (items_view items.now) (expansions_view row.now) pairs.now) found.old.items found.new.items) }
{
    let mut rest = row;
    for item in items {
        let Some((first, behind)) = rest.split_first() else {
            return Ok(());
        };
        add_item(alloc, tables, item, first, behind, pairs, found)?;
        rest = behind;
    }
    Ok(())
}

/// Whether the item is an event of a decomposed instance.
fn is_left_out(decomposed: &Decomposed<'_>, item: &Item) -> bool
    ensures { result ≡ is_left decomposed.now (item_view item.now) }
{
    match item {
        Item::Single(node) => decomposed.has(node),
        Item::Coregion(_) => false,
        Item::Inline(_) => false,
        Item::Reference(_) => false,
    }
}

/// Adds the choices of what is left of a level beside its refining charts.
pub(crate) fn add_left(
    alloc: Global,
    tables: &mut TermTables,
    decomposed: &Decomposed<'_>,
    items: &[Item],
    row: &[Expansion],
    pairs: &[Pair],
    found: &mut Vec<Choice>,
) -> Result<(), NoMemory>
    requires judged { AreJudged tables.old.names tables.old.nets.labels (items_parts (without_decomposed decomposed.now (items_view items.now)) (expansions_view row.now) pairs.now) }
    requires ready { AreReady tables.old }
    ensures { OnOk result (IsWalked tables.old tables.new (items_parts (without_decomposed decomposed.now (items_view items.now)) (expansions_view row.now) pairs.now) found.old.items found.new.items) }
{
    let mut rest = row;
    for item in items {
        if is_left_out(decomposed, item) {
            continue;
        }
        let Some((first, behind)) = rest.split_first() else {
            return Ok(());
        };
        add_item(alloc, tables, item, first, behind, pairs, found)?;
        rest = behind;
    }
    Ok(())
}
