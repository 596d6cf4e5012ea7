//! What is shown of events above their level, their inline expression, or their reference: for `charts`.

ghost use Rattle.std.specs.Option.{option_copied};
ghost use Rattle.std.specs.Prelude.{◌≡◌, ◌++◌, ◌∷◌, [], IfOk, OnOk};
ghost use Rattle.msc_meaning.specs.Calls.{is_called};
ghost use Rattle.msc_meaning.specs.Ties.{called_tag, via_list};
ghost use Rattle.expanded_charts.specs.Above.{above_view};
ghost use Rattle.expanded_charts.specs.Expanding.{past, past_shown};
ghost use Rattle.expanded_charts.specs.Making.{IsChanged};
ghost use Rattle.expanded_charts.specs.ShownGates.{gates_view, shown_view, tag_view, tags_view};

use crate::made::Made;
use crate::shown::{GateTag, ShownGate};
use level_surroundings::{CalledGates, JoinTable};
use msc_base::{Name, NoMemory, PairList};
use std::alloc::Global;

/// What tags pass on their way up.
#[derive(Clone, Copy)]
pub(crate) enum Above<'b, 'a> {
    /// Their level.
    Level,
    /// An inline expression of that name, on a level with these called gates.
    Inline(&'b CalledGates<'a>, Option<&'a Name>),
    /// A reference of that name with these joins, on such a level.
    Reference(&'b CalledGates<'a>, Option<&'a Name>, &'b JoinTable<'a>),
}

/// The tag of the gate where it has a caller, and otherwise the other one.
fn called_or<'a>(
    level: &CalledGates<'a>,
    name: Option<&'a Name>,
    gate: &'a Name,
    other: Option<GateTag<'a>>,
) -> Option<GateTag<'a>>
    ensures { tags_view result ≡ called_tag (is_called level.now.calls (option_copied name.entry) gate.now) (option_copied name.entry) gate.now (tags_view other.entry) }
{
    match name {
        None => other,
        Some(own) => {
            if level.is_called(name, gate.bytes()) {
                return Some(GateTag::On(own, gate));
            }
            other
        }
    }
}

/// The tag of a gate of the level, where there is one.
fn via<'a>(gate: Option<&'a Name>) -> Option<GateTag<'a>>
    ensures { tags_view result ≡ via_list (option_copied gate.entry) }
{
    match gate {
        None => None,
        Some(gate) => Some(GateTag::Via(gate)),
    }
}

/// What becomes of a tag.
fn past_tag<'a>(above: Above<'_, 'a>, tag: GateTag<'a>) -> Option<GateTag<'a>>
    ensures { tags_view result ≡ above_view above.entry (tag_view tag.entry) }
{
    match tag {
        GateTag::On(_, _) => None,
        GateTag::Via(gate) => match above {
            Above::Level => Some(tag),
            Above::Inline(level, name) => called_or(level, name, gate, Some(tag)),
            Above::Reference(level, name, joins) => {
                let outer = via(joins.passed_to(gate.bytes()));
                called_or(level, name, gate, outer)
            }
        },
    }
}

/// Appends what becomes of a tag that is shown.
fn push_past<'a>(
    list: &mut Vec<ShownGate<'a>>,
    above: Above<'_, 'a>,
    shown: ShownGate<'a>,
) -> Result<(), NoMemory>
    ensures { OnOk result (gates_view list.new.items ≡ gates_view list.old.items ++ past_shown (above_view above.entry) (shown_view shown.entry ∷ [])) }
{
    match past_tag(above, shown.tag) {
        None => Ok(()),
        Some(tag) => {
            list.push(ShownGate {
                number: shown.number,
                tag,
            })?;
            Ok(())
        }
    }
}

/// What becomes of the tags that are shown.
fn past_gates<'a>(
    alloc: Global,
    above: Above<'_, 'a>,
    gates: &[ShownGate<'a>],
) -> Result<Vec<ShownGate<'a>>, NoMemory>
    ensures { IfOk result (λ list. gates_view list.items ≡ past_shown (above_view above.entry) (gates_view gates.now)) }
{
    let mut list = Vec::new(alloc);
    for shown in gates {
        push_past(&mut list, above, *shown)?;
    }
    Ok(list)
}

/// The part with what is shown above it.
pub(crate) fn past_made<'a>(
    alloc: Global,
    above: Above<'_, 'a>,
    made: Made<'a>,
) -> Result<Made<'a>, NoMemory>
    ensures { IfOk result (λ new. IsChanged (past (above_view above.entry)) made.entry new) }
{
    let gates = past_gates(alloc, above, made.gates.as_slice())?;
    Ok(Made {
        part: made.part,
        own: PairList::new(alloc),
        gates,
        next: made.next,
    })
}
