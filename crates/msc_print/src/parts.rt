//! Prints lists of names, words between parts, and the end of a line: for all that print.

ghost use Rattle.std.specs.Prelude.{◌≡◌, OnOk, ◌∷◌, [], codes};
ghost use Rattle.msc_print.specs.Pages.{put, put_all};
ghost use Rattle.msc_print.specs.Words.{each_behind, name_words, names_behind, end_words, alone, separator};

use crate::page::Page;
use msc_base::{Name, NoMemory, Text};

/// Ends a line.
pub fn end(page: &mut Page) -> Result<(), NoMemory>
    ensures { OnOk result (page.new ≡ put_all page.old end_words) }
{
    page.word(";")
}

#[tactic(auto, using(crate::proofs::Putting::each_step))]
/// Writes other names, each behind a comma.
fn other_names(page: &mut Page, names: &[Name]) -> Result<(), NoMemory>
    ensures { OnOk result (page.new ≡ put_all page.old (each_behind (codes ",") alone names.now)) }
{
    for name in names {
        page.word(",")?;
        page.put(name.bytes())?;
    }
    Ok(())
}

/// Writes names, with commas between them.
pub fn names(page: &mut Page, names: &[Name]) -> Result<(), NoMemory>
    ensures { OnOk result (page.new ≡ put_all page.old (name_words names.now)) }
{
    let Some((first, others)) = names.split_first() else {
        return Ok(());
    };
    page.put(first.bytes())?;
    other_names(page, others)
}

/// Writes the word and the names, where there is a name.
pub fn names_after(page: &mut Page, word: &str, list: &[Name]) -> Result<(), NoMemory>
    ensures { OnOk result (page.new ≡ put_all page.old (names_behind word.now list.now)) }
{
    if list.is_empty() {
        return Ok(());
    }
    page.word(word)?;
    names(page, list)
}

/// Writes the word in front of a part that isn't the first.
pub fn between(page: &mut Page, first: bool, word: &str) -> Result<(), NoMemory>
    ensures { OnOk result (page.new ≡ put_all page.old (separator first (word.now ∷ []))) }
{
    if first {
        return Ok(());
    }
    page.word(word)
}
