//! The label of a written event at an instance: for the events of logs (msc_events) and of charts (level_weaving, level_terms).

ghost use Rattle.std.specs.Prelude.{◌≡◌, ◌++◌, IfOk, OnOk, Some, codes, option_copied};
ghost use Rattle.msc_tree.specs.Labels.{far_of, inside_text, label_of, list_text, with_commas};

use crate::{RawEvent, Target};
use msc_base::{Far, Label, Name, NoMemory, Text};
use std::alloc::Global;

/// Appends the item behind a comma.
fn push_item(text: &mut Vec<u8>, item: &[u8]) -> Result<(), NoMemory>
    ensures { OnOk result (text.new.items ≡ text.old.items ++ (codes "," ++ item.now)) }
{
    text.push(b',')?;
    text.extend_from_slice(item)?;
    Ok(())
}

/// Appends the items, each behind a comma.
fn push_items(text: &mut Vec<u8>, items: &[Text]) -> Result<(), NoMemory>
    ensures { OnOk result (text.new.items ≡ text.old.items ++ with_commas items.now) }
{
    for item in items {
        push_item(text, item.bytes())?;
    }
    Ok(())
}

/// Appends the items with commas between them.
fn push_inside(text: &mut Vec<u8>, items: &[Text]) -> Result<(), NoMemory>
    ensures { OnOk result (text.new.items ≡ text.old.items ++ inside_text items.now) }
{
    let Some((first, others)) = items.split_first() else {
        return Ok(());
    };
    text.extend_from_slice(first.bytes())?;
    push_items(text, others)
}

/// Appends the items in parentheses.
fn push_list(text: &mut Vec<u8>, items: &[Text]) -> Result<(), NoMemory>
    ensures { OnOk result (text.new.items ≡ text.old.items ++ list_text (Some items.now)) }
{
    text.push(b'(')?;
    push_inside(text, items)?;
    text.push(b')')?;
    Ok(())
}

/// The text of a message, a timer or an action: its name, and its list in parentheses behind it, without blanks.
pub fn label_text(
    alloc: Global,
    name: &[u8],
    parameters: Option<&[Text]>,
) -> Result<Vec<u8>, NoMemory>
    ensures { IfOk result (λ text. text.items ≡ name.now ++ list_text (option_copied parameters.entry)) }
{
    let mut text = Vec::from_slice(alloc, name)?;
    if let Some(items) = parameters {
        push_list(&mut text, items)?;
    }
    Ok(text)
}

/// The far end of an event, as its label has it.
fn far_of(alloc: Global, target: &Target) -> Result<Far, NoMemory>
    ensures { IfOk result (λ far. far ≡ far_of target.now) }
{
    match target {
        Target::Nobody => Ok(Far::Nobody),
        Target::Env(_) => Ok(Far::Env),
        Target::Instance(name) => Ok(Far::Instance(name.copy(alloc)?)),
        Target::Gate(_, _) => Ok(Far::Env),
    }
}

/// What the event says, which happens at this instance.
pub fn label_of(alloc: Global, at: Name, event: &RawEvent) -> Result<Label, NoMemory>
    ensures { IfOk result (λ label. label ≡ label_of at event.now) }
{
    let text = label_text(alloc, event.text.bytes(), event.parameters.items())?;
    let far = far_of(alloc, &event.target)?;
    Ok(Label {
        at,
        kind: event.kind,
        text: Text::from_vec(text),
        far,
    })
}
