//! Events and coregions: for `charts`.

ghost use Rattle.std.specs.Option.{option_copied};
ghost use Rattle.std.specs.Prelude.{◌≡◌, ◌∷◌, [], ℕ, IfOk, OnOk, map, option_map};
ghost use Rattle.msc_meaning.specs.EventLabels.{written_label};
ghost use Rattle.msc_meaning.specs.FarEnds.{child_by, far_end, gate_tags, happening, instance_or_env as far_or_env, written_far};
ghost use Rattle.msc_meaning.specs.Refinements.{left_of};
ghost use Rattle.msc_meaning.specs.Tables.{Table};
ghost use Rattle.msc_meaning.specs.Views.{node_view};
ghost use Rattle.msc_tree.specs.Labels.{far_of};
ghost use Rattle.msc_unfolding.specs.Unfoldings.{Tag};
ghost use Rattle.level_surroundings.specs.FarEndViews.{far_ends_view, far_view};
ghost use Rattle.level_surroundings.specs.GateWays.{ways_view};
ghost use Rattle.level_surroundings.specs.Givens.{around_view};
ghost use Rattle.expanded_charts.specs.Making.{AreMade, IsMade, IsNumbered, IsSecond, event_part, events_parts};
ghost use Rattle.expanded_charts.specs.Numbering.{at_instances, with_second};
ghost use Rattle.expanded_charts.specs.RefinedMaking.{AddsEvents};
ghost use Rattle.expanded_charts.specs.ShownGates.{gates_view};

use crate::made::{Made, MadeParts};
use crate::numbering::{Numbering, number_label, number_name};
use crate::parts::{add, no_parts};
use crate::shown::{GateTag, ShownGate};
use expansion_tree::{ExpandedEvent, Expansion};
use level_surroundings::{Decomposed, Level, changed_far, leads_to, owned_far};
use msc_base::{Far, Kind, Label, Name, NameTable, NoMemory, Pair, PairList};
use msc_meaning::EventNode;
use msc_tree::{Target, label_of};
use std::alloc::Global;

/// The label of an event, as it is written.
fn label_written(alloc: Global, node: &EventNode) -> Result<Label, NoMemory>
    ensures { IfOk result (λ label. label ≡ written_label (node_view node.now)) }
{
    let at = node.at.copy(alloc)?;
    let label = label_of(alloc, at, &node.event)?;
    Ok(label)
}

/// The instance that an event creates.
fn created(node: &EventNode) -> Option<&Name>
    ensures { option_copied result ≡ child_by node.now.event.kind node.now.event.target }
{
    match node.event.kind {
        Kind::Create => match &node.event.target {
            Target::Instance(name) => Some(name),
            Target::Nobody | Target::Env(_) | Target::Gate(_, _) => None,
        },
        Kind::Output
        | Kind::Input
        | Kind::OutputLost
        | Kind::InputFound
        | Kind::Action
        | Kind::TimerStart
        | Kind::TimerStop
        | Kind::Timeout => None,
    }
}

/// The number of the instance, where there is one; it has a number from then on.
fn number_second(
    alloc: Global,
    names: &mut NameTable,
    name: Option<&Name>,
) -> Result<Option<u32>, NoMemory>
    ensures names { OnOk result (names.new ≡ with_second names.old (option_copied name.entry)) }
    ensures number { IfOk result (λ number. IsSecond names.new (option_copied name.entry) number) }
{
    match name {
        None => Ok(None),
        Some(name) => {
            let number = number_name(alloc, names, name)?;
            Ok(Some(number))
        }
    }
}

/// The event with that number and that of its label, at the instances of these numbers: the lower of two first.
fn event_at(number: u32, label: u32, at: u32, also: Option<u32>) -> ExpandedEvent
    ensures { result ≡ at_instances number label at also }
{
    match also {
        None => ExpandedEvent {
            number,
            at,
            also,
            label,
        },
        Some(second) => {
            if second < at {
                return ExpandedEvent {
                    number,
                    at: second,
                    also: Some(at),
                    label,
                };
            }
            ExpandedEvent {
                number,
                at,
                also,
                label,
            }
        }
    }
}

/// The instance as a far end, or the environment.
fn instance_or_env(alloc: Global, name: Option<&Name>) -> Result<Far, NoMemory>
    ensures { IfOk result (λ far. far ≡ far_or_env (option_copied name.entry)) }
{
    match name {
        None => Ok(Far::Env),
        Some(name) => {
            let name = name.copy(alloc)?;
            Ok(Far::Instance(name))
        }
    }
}

/// The far end that an event names: of a gate of its level where that leads to, of a called gate the instance of its inner events, and
/// otherwise what is written.
fn named_far<'a>(
    alloc: Global,
    level: Level<'_, 'a>,
    target: &'a Target,
    written: Far,
) -> Result<Far, NoMemory>
    requires { written ≡ far_of target.now }
    ensures { IfOk result (λ far. far ≡ written_far level.entry.called.now.ends (ways_view level.entry.given.ways.now) target.now) }
{
    match target {
        Target::Env(Some(gate)) => {
            let far = instance_or_env(alloc, leads_to(level.given.ways, gate.name().bytes()))?;
            Ok(far)
        }
        Target::Gate(name, gate) => {
            let inner = level
                .called
                .instance_at(name.name().bytes(), gate.name().bytes());
            let far = instance_or_env(alloc, inner)?;
            Ok(far)
        }
        Target::Env(None) => Ok(written),
        Target::Nobody => Ok(written),
        Target::Instance(_) => Ok(written),
    }
}

/// The far end of an event: the one that decomposition gives to it, or the one that it names.
fn far_at<'a>(
    alloc: Global,
    level: Level<'_, 'a>,
    node: &'a EventNode,
    written: Far,
) -> Result<Far, NoMemory>
    requires { written ≡ far_of node.now.event.target }
    ensures { IfOk result (λ far. far ≡ far_end level.entry.called.now.ends (around_view level.entry.given) (node_view node.now)) }
{
    match changed_far(level.given.far, node.number) {
        Some(far) => {
            let far = owned_far(alloc, far)?;
            Ok(far)
        }
        None => {
            let far = named_far(alloc, level, &node.event.target, written)?;
            Ok(far)
        }
    }
}

/// The label of an event.
fn label_at<'a>(alloc: Global, level: Level<'_, 'a>, node: &'a EventNode) -> Result<Label, NoMemory>
    ensures { IfOk result (λ label. label ≡ (happening level.entry.called.now.ends (around_view level.entry.given) (node_view node.now)).label) }
{
    let Label {
        at,
        kind,
        text,
        far,
    } = label_written(alloc, node)?;
    let far = far_at(alloc, level, node, far)?;
    Ok(Label {
        at,
        kind,
        text,
        far,
    })
}

/// An event, with the number of its instances and its label, which have one from then on.
fn numbered<'a>(
    alloc: Global,
    numbering: &mut Numbering,
    number: u32,
    level: Level<'_, 'a>,
    node: &'a EventNode,
) -> Result<ExpandedEvent, NoMemory>
    ensures { IfOk result (IsNumbered numbering.old numbering.new (record { number = number; happening = happening level.entry.called.now.ends (around_view level.entry.given) (node_view node.now) })) }
{
    let label = label_at(alloc, level, node)?;
    let at = number_name(alloc, &mut numbering.names, &node.at)?;
    let also = number_second(alloc, &mut numbering.names, created(node))?;
    let label = number_label(&mut numbering.labels, label)?;
    Ok(event_at(number, label, at, also))
}

/// The gate of its level that an event shows under this number.
fn gates_at<'a>(
    alloc: Global,
    number: u32,
    target: &'a Target,
) -> Result<Vec<ShownGate<'a>>, NoMemory>
    ensures { IfOk result (λ gates. gates_view gates.items ≡ map (λ (a : Tag). (number, a)) (gate_tags target.now)) }
{
    let mut gates = Vec::new(alloc);
    if let Target::Env(Some(gate)) = target {
        gates.push(ShownGate {
            number,
            tag: GateTag::Via(gate.name()),
        })?;
    }
    Ok(gates)
}

/// An event of a level as a part of an expansion. It fails only for want of memory, for which it takes 2^32 events too.
pub(crate) fn event_of<'a>(
    alloc: Global,
    numbering: &mut Numbering,
    next: u32,
    level: Level<'_, 'a>,
    node: &'a EventNode,
) -> Result<Made<'a>, NoMemory>
    ensures { IfOk result (IsMade numbering.old numbering.new (event_part level.entry.called.now (around_view level.entry.given) next (node_view node.now))) }
{
    if next == u32::MAX {
        return Err(NoMemory);
    }
    let event = numbered(alloc, numbering, next, level, node)?;
    let mut own = PairList::new(alloc);
    own.push(Pair {
        first: next,
        second: node.number,
    })?;
    let gates = gates_at(alloc, next, &node.event.target)?;
    Ok(Made {
        part: Expansion::Event(event),
        own,
        gates,
        next: next + 1,
    })
}

/// The events of a coregion.
pub(crate) fn events_of<'a>(
    alloc: Global,
    numbering: &mut Numbering,
    next: u32,
    level: Level<'_, 'a>,
    nodes: &'a [EventNode],
) -> Result<MadeParts<'a>, NoMemory>
    ensures { IfOk result (λ parts. (table : Table) (depth : ℕ) → AreMade numbering.old numbering.new (events_parts table depth level.entry.called.now (around_view level.entry.given) next (map node_view nodes.now)) parts) }
{
    let mut parts = no_parts(alloc, next);
    for node in nodes {
        let made = event_of(alloc, numbering, parts.next, level, node)?;
        add(&mut parts, made)?;
    }
    Ok(parts)
}

/// Adds the event, where it isn't one of a decomposed instance.
fn add_left<'a>(
    alloc: Global,
    numbering: &mut Numbering,
    level: Level<'_, 'a>,
    decomposed: &Decomposed<'a>,
    parts: &mut MadeParts<'a>,
    node: &'a EventNode,
) -> Result<(), NoMemory>
    ensures { OnOk result (AddsEvents level.entry.called.now (around_view level.entry.given) numbering.old numbering.new (left_of decomposed.now (node_view node.now ∷ [])) parts.old parts.new) }
{
    if decomposed.has(node) {
        return Ok(());
    }
    let made = event_of(alloc, numbering, parts.next, level, node)?;
    add(parts, made)?;
    Ok(())
}

/// What is left of the events of a coregion without those of decomposed instances.
pub(crate) fn events_left<'a>(
    alloc: Global,
    numbering: &mut Numbering,
    next: u32,
    level: Level<'_, 'a>,
    decomposed: &Decomposed<'a>,
    nodes: &'a [EventNode],
) -> Result<MadeParts<'a>, NoMemory>
    ensures { IfOk result (λ parts. (table : Table) (depth : ℕ) → AreMade numbering.old numbering.new (events_parts table depth level.entry.called.now (around_view level.entry.given) next (left_of decomposed.now (map node_view nodes.now))) parts) }
{
    let mut parts = no_parts(alloc, next);
    for node in nodes {
        add_left(alloc, numbering, level, decomposed, &mut parts, node)?;
    }
    Ok(parts)
}
