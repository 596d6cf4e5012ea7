//! Prints events and coregions: for `statement`.

ghost use Rattle.std.specs.Prelude.{◌≡◌, OnOk, ◌∷◌, [], codes, option_copied};
ghost use Rattle.msc_print.specs.EventWords.{act_words, coregion_words, event_words, message_words, parameter_words, pairing_words, tag_words, target_words, exchange_words};
ghost use Rattle.msc_print.specs.Pages.{put_all};
ghost use Rattle.msc_print.specs.Words.{all_words, alone, each_behind, name_words};

use crate::page::Page;
use crate::parts::{end, names_after};
use msc_base::{Kind, Name, NoMemory, Text};
use msc_tree::{RawEvent, Target};

#[tactic(auto, using(crate::proofs::Putting::each_step))]
/// Writes other items of a list in parentheses, each behind a comma.
fn other_items(page: &mut Page, items: &[Text]) -> Result<(), NoMemory>
    ensures { OnOk result (page.new ≡ put_all page.old (each_behind (codes ",") alone items.now)) }
{
    for item in items {
        page.word(",")?;
        page.put(item.bytes())?;
    }
    Ok(())
}

/// Writes the items of a list in parentheses.
fn items(page: &mut Page, items: &[Text]) -> Result<(), NoMemory>
    ensures { OnOk result (page.new ≡ put_all page.old (name_words items.now)) }
{
    let Some((first, others)) = items.split_first() else {
        return Ok(());
    };
    page.put(first.bytes())?;
    other_items(page, others)
}

/// Writes the name that serves the pairing alone, where there is one.
fn pairing(page: &mut Page, pairing: &Option<Name>) -> Result<(), NoMemory>
    ensures { OnOk result (page.new ≡ put_all page.old (pairing_words pairing.now)) }
{
    if let Some(name) = pairing {
        page.word(",")?;
        page.put(name.bytes())?;
    }
    Ok(())
}

#[tactic(auto, using(crate::proofs::Putting::put_append))]
/// Writes the list in parentheses, where there is one.
fn parameters(page: &mut Page, parameters: Option<&[Text]>) -> Result<(), NoMemory>
    ensures { OnOk result (page.new ≡ put_all page.old (parameter_words (option_copied parameters.entry))) }
{
    if let Some(list) = parameters {
        page.word("(")?;
        items(page, list)?;
        page.word(")")?;
    }
    Ok(())
}

#[tactic(auto, using(crate::proofs::Putting::put_append))]
/// Writes the name of a message or timer, and what belongs to it.
fn message(page: &mut Page, event: &RawEvent) -> Result<(), NoMemory>
    ensures { OnOk result (page.new ≡ put_all page.old (message_words event.now)) }
{
    page.put(event.text.bytes())?;
    pairing(page, &event.pairing)?;
    parameters(page, event.parameters.items())
}

/// Writes the other end of an event.
fn target(page: &mut Page, target: &Target) -> Result<(), NoMemory>
    ensures { OnOk result (page.new ≡ put_all page.old (target_words target.now)) }
{
    match target {
        Target::Nobody => Ok(()),
        Target::Env(None) => page.word("env"),
        Target::Env(Some(gate)) => {
            page.word("env")?;
            page.word("via")?;
            page.put(gate.name().bytes())
        }
        Target::Instance(name) => page.put(name.bytes()),
        Target::Gate(reference, gate) => {
            page.word("reference")?;
            page.put(reference.name().bytes())?;
            page.word("via")?;
            page.put(gate.name().bytes())
        }
    }
}

#[tactic(auto, using(crate::proofs::Putting::put_append))]
/// Writes a message that goes to the other end, or comes from there.
fn exchange(page: &mut Page, event: &RawEvent, way: &str, toward: &str) -> Result<(), NoMemory>
    ensures { OnOk result (page.new ≡ put_all page.old (exchange_words way.now (toward.now ∷ []) event.now)) }
{
    page.word(way)?;
    message(page, event)?;
    page.word(toward)?;
    target(page, &event.target)
}

#[tactic(auto, using(crate::proofs::Putting::put_append))]
/// Writes a message that never arrives, or whose sender isn't known.
fn half_exchange(
    page: &mut Page,
    event: &RawEvent,
    way: &str,
    toward: &str,
    missing: &str,
) -> Result<(), NoMemory>
    ensures { OnOk result (page.new ≡ put_all page.old (exchange_words way.now (toward.now ∷ missing.now ∷ []) event.now)) }
{
    page.word(way)?;
    message(page, event)?;
    page.word(toward)?;
    page.word(missing)?;
    target(page, &event.target)
}

/// Writes a timer's word and its name.
fn timer(page: &mut Page, event: &RawEvent, word: &str) -> Result<(), NoMemory>
    ensures { OnOk result (page.new ≡ put_all page.old (word.now ∷ message_words event.now)) }
{
    page.word(word)?;
    message(page, event)
}

/// Writes a word and the text of the event.
fn plain(page: &mut Page, event: &RawEvent, word: &str) -> Result<(), NoMemory>
    ensures { OnOk result (page.new ≡ put_all page.old (word.now ∷ event.now.text ∷ [])) }
{
    page.word(word)?;
    page.put(event.text.bytes())
}

/// Writes what happens.
fn act(page: &mut Page, event: &RawEvent) -> Result<(), NoMemory>
    ensures { OnOk result (page.new ≡ put_all page.old (act_words event.now.kind event.now)) }
{
    match event.kind {
        Kind::Output => exchange(page, event, "out", "to"),
        Kind::Input => exchange(page, event, "in", "from"),
        Kind::OutputLost => half_exchange(page, event, "out", "to", "lost"),
        Kind::InputFound => half_exchange(page, event, "in", "from", "found"),
        Kind::Action => plain(page, event, "action"),
        Kind::TimerStart => timer(page, event, "starttimer"),
        Kind::TimerStop => timer(page, event, "stoptimer"),
        Kind::Timeout => timer(page, event, "timeout"),
        Kind::Create => plain(page, event, "create"),
    }
}

/// Writes the name by which general orderings know the event, where it has one.
fn event_name(page: &mut Page, event_name: Option<&Name>) -> Result<(), NoMemory>
    ensures { OnOk result (page.new ≡ put_all page.old (tag_words (option_copied event_name.entry))) }
{
    if let Some(name) = event_name {
        page.word("label")?;
        page.put(name.bytes())?;
        end(page)?;
    }
    Ok(())
}

#[tactic(auto, using(crate::proofs::Putting::put_append))]
/// Writes an event.
pub fn event(page: &mut Page, event: &RawEvent) -> Result<(), NoMemory>
    ensures { OnOk result (page.new ≡ put_all page.old (event_words event.now)) }
{
    event_name(page, event.order.event_name())?;
    act(page, event)?;
    names_after(page, "before", event.order.earlier_than())?;
    names_after(page, "after", event.order.later_than())?;
    end(page)
}

#[tactic(auto, using(crate::proofs::Putting::all_step))]
/// Writes the events.
fn events(page: &mut Page, events: &[RawEvent]) -> Result<(), NoMemory>
    ensures { OnOk result (page.new ≡ put_all page.old (all_words event_words events.now)) }
{
    for item in events {
        event(page, item)?;
    }
    Ok(())
}

#[tactic(auto, using(crate::proofs::Putting::put_append))]
/// Writes a coregion with these events.
pub fn coregion(page: &mut Page, list: &[RawEvent]) -> Result<(), NoMemory>
    ensures { OnOk result (page.new ≡ put_all page.old (coregion_words list.now)) }
{
    page.word("concurrent")?;
    end(page)?;
    events(page, list)?;
    page.word("endconcurrent")?;
    end(page)
}
