//! The list of the labels that may come next: for the command `next` of msc_cmd.

ghost use Rattle.std.specs.Prelude.{◌≡◌, ◌++◌, IfOk, OnOk, flat_map};
ghost use Rattle.judge_report.specs.NextTexts.{next_label, next_list, state_word};

use label_lines::label_text;
use msc_base::{Label, LabelList, NoMemory, Text};
use std::alloc::Global;

/// Appends the line of a label.
fn push_label(alloc: Global, label: &Label, bytes: &mut Vec<u8>) -> Result<(), NoMemory>
    ensures { OnOk result (bytes.new.items ≡ bytes.old.items ++ next_label label.now) }
{
    let text = label_text(alloc, label)?;
    bytes.extend_from_slice(text.bytes())?;
    bytes.push(b'\n')?;
    Ok(())
}

#[tactic(auto, using(crate::proofs::ListTexts::more_items))]
/// The lines of labels.
fn label_lines(alloc: Global, labels: &[Label]) -> Result<Vec<u8>, NoMemory>
    ensures { IfOk result (λ bytes. bytes.items ≡ flat_map next_label labels.now) }
{
    let mut bytes = Vec::new(alloc);
    for label in labels {
        push_label(alloc, label, &mut bytes)?;
    }
    Ok(bytes)
}

/// The word for a log that conforms so far, or stops early.
fn state_of(conforms: bool) -> &'static str
    ensures { result.now ≡ state_word conforms }
{
    if conforms { "complete" } else { "open" }
}

/// The list of the labels that may come next in a log, which conforms so far or stops early: a line for each as a line of a log has it,
/// and one that says how many they are, and whether the log may end here.
pub fn next_text(alloc: Global, labels: &LabelList, conforms: bool) -> Result<Text, NoMemory>
    ensures { IfOk result (λ text. text ≡ next_list conforms labels.now) }
{
    let mut bytes = label_lines(alloc, labels.as_slice())?;
    let count = labels.len();
    let state = state_of(conforms);
    let last = format!(in alloc; "next {count}, {state}\n")?;
    bytes.extend_from_slice(last.as_bytes())?;
    Ok(Text::from_vec(bytes))
}
