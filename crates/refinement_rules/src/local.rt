//! The earliest item of a decomposed instance that is no plain message event: for `faults`.

ghost use Rattle.std.specs.List.{list_any};
ghost use Rattle.std.specs.Prelude.{◌≡◌, ◌&&◌, not};
ghost use Rattle.std.specs.Str.{bytes_eq};
ghost use Rattle.msc_base.specs.Lists.{IsAmong};
ghost use Rattle.msc_base.specs.Places.{IsLeast};
ghost use Rattle.msc_meaning.specs.ItemViews.{inline_view};
ghost use Rattle.msc_meaning.specs.Views.{item_view};
ghost use Rattle.msc_meaning.specs.declared.body.Item as code;
ghost use Rattle.refinement_rules.specs.Judging.{ItemLocal, some_among};
ghost use Rattle.refinement_rules.specs.PlainEvents.{is_plain as plain_of};
ghost use Rattle.refinement_rules.specs.Walks.{OneHolds, SoFarOr};

use crate::plain::{both, either, is_plain, negated};
use msc_base::{Name, NameTable, Place, earlier_if};
use msc_meaning::{EventNode, InlineItem, Item};

/// Whether one of the names is that of a decomposed instance.
pub(crate) fn names_refined(refined: &NameTable, names: &[Name]) -> bool
    ensures { result ≡ some_among refined.now names.now }
{
    let mut one = false;
    for name in names {
        one = either(one, refined.has(name.bytes()));
    }
    one
}

/// Whether the event is one of a decomposed instance, and no plain message event.
fn is_local(refined: &NameTable, node: &EventNode) -> bool
    ensures { result ≡ (list_any (bytes_eq node.now.at) refined.now && not (plain_of node.now.event)) }
{
    both(refined.has(node.at.bytes()), negated(is_plain(&node.event)))
}

/// The earliest place so far, or that of an inline expression that covers a decomposed instance.
fn inline_place(so_far: Option<Place>, refined: &NameTable, inline: &InlineItem) -> Option<Place>
    ensures { IsLeast (SoFarOr so_far (ItemLocal (IsAmong refined.now) (inline_view inline.now))) result }
{
    earlier_if(
        so_far,
        inline.place,
        names_refined(refined, inline.cover.as_slice()),
    )
}

/// The earliest place so far, or that of an item of a decomposed instance that is no plain message event.
fn item_place(so_far: Option<Place>, refined: &NameTable, item: &Item) -> Option<Place>
    ensures { IsLeast (SoFarOr so_far (ItemLocal (IsAmong refined.now) (item_view item.now))) result }
{
    match item {
        Item::Single(node) => earlier_if(so_far, node.event.place.get(), is_local(refined, node)),
        Item::Coregion(_) => so_far,
        Item::Inline(inline) => inline_place(so_far, refined, inline),
        Item::Reference(part) => {
            earlier_if(
                so_far,
                part.place,
                names_refined(refined, part.cover.as_slice()),
            )
        }
    }
}

/// The earliest place so far, or that of one of the items that is one.
pub(crate) fn local_place(
    so_far: Option<Place>,
    refined: &NameTable,
    items: &[Item],
) -> Option<Place>
    ensures { IsLeast (SoFarOr so_far (OneHolds (λ (x : code.Item). ItemLocal (IsAmong refined.now) (item_view x)) items.now)) result }
{
    let mut best = so_far;
    for item in items {
        best = item_place(best, refined, item);
    }
    best
}
