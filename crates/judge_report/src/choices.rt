//! The lines of choices: for the command `choices` of msc_cmd.

ghost use Rattle.std.specs.Prelude.{◌≡◌, ◌++◌, ◌∷◌, IfOk, OnOk};
ghost use Rattle.judge_report.specs.ChoiceTexts.{choice_line, choices_end};
ghost use Rattle.judge_report.specs.Lists.{separated};

use msc_base::{Name, NoMemory, Place, Text};
use std::alloc::{AllocError, Global};

/// Appends a name behind a comma.
fn push_other(name: &Name, bytes: &mut Vec<u8>) -> Result<(), AllocError>
    ensures { OnOk result (bytes.new.items ≡ bytes.old.items ++ 44 ∷ name.now) }
{
    bytes.push(b',')?;
    bytes.extend_from_slice(name.bytes())
}

#[tactic(auto, using(crate::proofs::NameLists::others_more, crate::proofs::NameLists::names_none))]
/// Appends names, with a comma between each two.
fn push_names(names: &[Name], bytes: &mut Vec<u8>) -> Result<(), AllocError>
    ensures { OnOk result (bytes.new.items ≡ bytes.old.items ++ separated names.now) }
{
    let Some((first, others)) = names.split_first() else {
        return Ok(());
    };
    bytes.extend_from_slice(first.bytes())?;
    for name in others {
        push_other(name, bytes)?;
    }
    Ok(())
}

/// The line of a choice: its place, and the instances that make it.
pub fn choice_line(alloc: Global, place: Place, instances: &[Name]) -> Result<Text, NoMemory>
    ensures { IfOk result (λ text. text ≡ choice_line place instances.now) }
{
    let line = place.line;
    let column = place.column;
    let head = format!(in alloc; "choice at {line}:{column}: ")?;
    let mut bytes = Vec::from_slice(alloc, head.as_bytes())?;
    push_names(instances, &mut bytes)?;
    bytes.push(b'\n')?;
    Ok(Text::from_vec(bytes))
}

/// The line behind those of all choices: how many they are.
pub fn choices_end(alloc: Global, choices: u64) -> Result<Text, NoMemory>
    ensures { IfOk result (λ text. text ≡ choices_end choices) }
{
    let line = format!(in alloc; "choices {choices}\n")?;
    Text::from_bytes(alloc, line.as_bytes())
}
