//! Copies of events: for the bodies that are woven of them.

ghost use Rattle.std.specs.Prelude.{◌≡◌, IfOk};

use crate::{RawEvent, Target};
use msc_base::{Items, NoMemory, Text, Words, copy_name};
use std::alloc::Global;

/// A copy of the texts.
pub(crate) fn copy_words(alloc: Global, words: &[Text]) -> Result<Words, NoMemory>
    ensures { IfOk result (λ copied. copied ≡ words.now) }
{
    if words.len() == 1 {
        let word = words[0].copy(alloc)?;
        return Items::one(alloc, word);
    }
    let mut copied = Items::new(alloc);
    for word in words {
        copied.push(word.copy(alloc)?)?;
    }
    Ok(copied)
}

/// A copy of the other end.
fn copy_target(alloc: Global, target: &Target) -> Result<Target, NoMemory>
    ensures { IfOk result (λ copied. copied ≡ target.now) }
{
    match target {
        Target::Nobody => Ok(Target::Nobody),
        Target::Env(None) => Ok(Target::Env(None)),
        Target::Env(Some(gate)) => Ok(Target::Env(Some(gate.copy(alloc)?))),
        Target::Instance(name) => Ok(Target::Instance(name.copy(alloc)?)),
        Target::Gate(reference, gate) => {
            let reference = reference.copy(alloc)?;
            let gate = gate.copy(alloc)?;
            Ok(Target::Gate(reference, gate))
        }
    }
}

/// A copy of the event.
pub fn copy_event(alloc: Global, event: &RawEvent) -> Result<RawEvent, NoMemory>
    ensures { IfOk result (λ copied. copied ≡ event.now) }
{
    let text = event.text.copy(alloc)?;
    let parameters = event.parameters.copy(alloc)?;
    let pairing = copy_name(alloc, &event.pairing)?;
    let target = copy_target(alloc, &event.target)?;
    let order = event.order.copy(alloc)?;
    Ok(RawEvent {
        kind: event.kind,
        text,
        parameters,
        pairing,
        target,
        order,
        place: event.place.copy(),
    })
}
