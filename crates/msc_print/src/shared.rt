//! Prints shared lists, conditions and references: for `statement`.

ghost use Rattle.std.specs.Prelude.{◌≡◌, OnOk, codes};
ghost use Rattle.msc_print.specs.Pages.{put_all};
ghost use Rattle.msc_print.specs.StatementWords.{condition_words, cover_words, join_end_words, join_words, joins_words, known_words, left_words, reference_words, shared_words};
ghost use Rattle.msc_print.specs.Words.{each_behind};
ghost use Rattle.msc_tree.specs.Views.{reference_view};

use crate::expression::expression;
use crate::page::Page;
use crate::parts::{end, names};
use msc_base::{Name, Names, NoMemory};
use msc_tree::{Cover, Join, JoinEnd, RawReference};

/// Writes the instances that share a part.
fn cover(page: &mut Page, cover: &Cover) -> Result<(), NoMemory>
    ensures { OnOk result (page.new ≡ put_all page.old (cover_words cover.now)) }
{
    page.word("shared")?;
    left(page, cover)
}

/// Writes the instances that share a part, where that is said.
pub fn shared(page: &mut Page, shared: &Option<Cover>) -> Result<(), NoMemory>
    ensures { OnOk result (page.new ≡ put_all page.old (shared_words shared.now)) }
{
    match shared {
        Some(list) => cover(page, list),
        None => Ok(()),
    }
}

/// Writes covered instances.
pub fn left(page: &mut Page, cover: &Cover) -> Result<(), NoMemory>
    ensures { OnOk result (page.new ≡ put_all page.old (left_words cover.now)) }
{
    match cover {
        Cover::All => page.word("all"),
        Cover::Listed(list) => names(page, list.as_slice()),
    }
}

#[tactic(auto, using(crate::proofs::Putting::put_append))]
/// Writes conditions, and the instances that share them.
pub fn condition(page: &mut Page, list: &Names, sharers: &Option<Cover>) -> Result<(), NoMemory>
    ensures { OnOk result (page.new ≡ put_all page.old (condition_words list.now sharers.now)) }
{
    page.word("condition")?;
    names(page, list.as_slice())?;
    shared(page, sharers)?;
    end(page)
}

/// Writes what a gate is joined with.
fn join_end(page: &mut Page, to: &JoinEnd) -> Result<(), NoMemory>
    ensures { OnOk result (page.new ≡ put_all page.old (join_end_words to.now)) }
{
    match to {
        JoinEnd::Env(gate) => {
            page.word("env")?;
            page.word("via")?;
            page.put(gate.bytes())
        }
        JoinEnd::Reference(reference, gate) => {
            page.word("reference")?;
            page.put(reference.bytes())?;
            page.word("via")?;
            page.put(gate.bytes())
        }
    }
}

/// Writes a join.
fn join(page: &mut Page, join: &Join) -> Result<(), NoMemory>
    ensures { OnOk result (page.new ≡ put_all page.old (join_words join.now)) }
{
    page.put(join.gate.bytes())?;
    page.word("to")?;
    join_end(page, &join.to)
}

#[tactic(auto, using(crate::proofs::Putting::each_step))]
/// Writes other joins, each behind a comma.
fn other_joins(page: &mut Page, list: &[Join]) -> Result<(), NoMemory>
    ensures { OnOk result (page.new ≡ put_all page.old (each_behind (codes ",") join_words list.now)) }
{
    for other in list {
        page.word(",")?;
        join(page, other)?;
    }
    Ok(())
}

#[tactic(auto, using(crate::proofs::Putting::put_append))]
/// Writes the joins of a reference, where it has any.
fn joins(page: &mut Page, list: &[Join]) -> Result<(), NoMemory>
    ensures { OnOk result (page.new ≡ put_all page.old (joins_words list.now)) }
{
    let Some((first, others)) = list.split_first() else {
        return Ok(());
    };
    page.word("via")?;
    join(page, first)?;
    other_joins(page, others)
}

/// Writes the name of a reference, where it has one.
fn known(page: &mut Page, name: &Option<Name>) -> Result<(), NoMemory>
    ensures { OnOk result (page.new ≡ put_all page.old (known_words name.now)) }
{
    if let Some(known) = name {
        page.put(known.bytes())?;
        page.word(":")?;
    }
    Ok(())
}

#[tactic(auto, using(crate::proofs::Putting::put_append))]
/// Writes a reference.
pub fn reference(page: &mut Page, reference: &RawReference) -> Result<(), NoMemory>
    ensures { OnOk result (page.new ≡ put_all page.old (reference_words (reference_view reference.now))) }
{
    page.word("reference")?;
    known(page, &reference.name)?;
    expression(page, &reference.expr)?;
    joins(page, reference.joins.as_slice())?;
    shared(page, &reference.shared)?;
    end(page)
}
