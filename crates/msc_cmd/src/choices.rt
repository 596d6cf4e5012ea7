//! The command `choices`: document and chart, of which the choices that several instances make are listed. For `command` alone.

ghost use Rattle.std.specs.Prelude.{◌≡◌, ◌<◌, ◌≤◌, ◌++◌, IfOk, OnOk, false, flat_map};
ghost use Rattle.chart_choices.specs.Listed.{made_choices};
ghost use Rattle.msc_acceptance.specs.AcceptedCharts.{IsAcceptedTable};
ghost use Rattle.msc_meaning.specs.Views.{table_view};
ghost use Rattle.msc_cmd.specs.ChoiceOutcomes.{choice_list, listed_line};
ghost use Rattle.msc_cmd.specs.Failures.{CannotOpen};
ghost use Rattle.msc_cmd.specs.Outcomes.{ChoicesAnswer, DocumentOutcome, IfTold, IsTheOne};

use crate::answer::{Reply, make_reply};
use crate::document::has_chart;
use crate::opening::{Opened, open_document};
use chart_choices::laws::choice_lists_are_one;
use chart_choices::{Choice, ChoiceList, choices};
use judge_report::{Fault, choice_line, choices_end};
use msc_acceptance::Accepted;
use msc_base::{NoMemory, Text};
use outside::Shelf;
use std::alloc::Global;

/// Appends the line of a choice.
fn push_choice(alloc: Global, choice: &Choice, bytes: &mut Vec<u8>) -> Result<(), NoMemory>
    ensures { OnOk result (bytes.new.items ≡ bytes.old.items ++ listed_line choice.now) }
{
    let line = choice_line(alloc, choice.place, choice.instances.as_slice())?;
    bytes.extend_from_slice(line.bytes())?;
    Ok(())
}

#[tactic(auto, using(judge_report::proofs::ListTexts::more_items))]
/// The lines of choices.
fn choice_lines(alloc: Global, choices: &[Choice]) -> Result<Vec<u8>, NoMemory>
    ensures { IfOk result (λ bytes. bytes.items ≡ flat_map listed_line choices.now) }
{
    let mut bytes = Vec::new(alloc);
    for choice in choices {
        push_choice(alloc, choice, &mut bytes)?;
    }
    Ok(bytes)
}

#[tactic(auto, using(crate::proofs::ChoiceReplies::listed_text))]
/// The line of each choice, and how many they are.
fn choices_text(alloc: Global, choices: &ChoiceList) -> Result<Text, NoMemory>
    ensures { IfOk result (λ text. text ≡ choice_list (made_choices choices.now)) }
{
    let mut bytes = choice_lines(alloc, choices.as_slice())?;
    let last = choices_end(alloc, choices.len() as u64)?;
    bytes.extend_from_slice(last.bytes())?;
    Ok(Text::from_vec(bytes))
}

/// The reply that lists the choices of the chart of this name.
fn list_choices(alloc: Global, accepted: &Accepted, name: &[u8]) -> Result<Reply, NoMemory>
    requires accepted { IsAcceptedTable (table_view accepted.now) }
    ensures small { IfOk result (λ r. r.status < 7) }
    ensures not_two { IfOk result (λ r. r.status ≡ 2 → ⊥) }
    ensures outcome { IfOk result (λ r. IsTheOne (ChoicesAnswer name.now (table_view accepted.now)) r.status r.text) }
{
    if !has_chart(accepted, name) {
        return make_reply(alloc, 4, &Fault::NoChart, false);
    }
    choice_lists_are_one();
    let list = choices(alloc, accepted, name)?;
    let text = choices_text(alloc, &list)?;
    Ok(Reply { status: 0, text })
}

/// The reply that lists the choices of the chart of this name of the document of that, or refuses it.
pub fn choices_file<S: Shelf>(
    alloc: Global,
    document: &Text,
    name: &Text,
    shelf: &mut S,
) -> Result<Reply, NoMemory>
    ensures small { IfOk result (λ r. r.status ≤ 7) }
    ensures not_two { IfOk result (λ r. r.status ≡ 2 → ⊥) }
    ensures outcome { IfOk result (λ r. r.status < 7 → IfTold (S.files shelf.old) (λ f. IsTheOne (DocumentOutcome false f document.now (ChoicesAnswer name.now)) r.status r.text)) }
    ensures failed { IfOk result (λ r. r.status ≡ 7 → CannotOpen false (S.faults shelf.old) (S.faults shelf.new) (S.broken shelf.new) (S.last shelf.new) document.now r.text) }
{
    match open_document(alloc, document, false, shelf)? {
        Opened::Accepted(accepted) => list_choices(alloc, &accepted, name.bytes()),
        Opened::Told(reply) => Ok(reply),
    }
}
