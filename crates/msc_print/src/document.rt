//! The canonical text of a document: `print_document`, which msc_cmd calls. The other modules write its parts.

ghost use Rattle.std.specs.Prelude.{◌≡◌, IfOk, OnOk, map};
ghost use Rattle.msc_print.specs.ChartWords.{canonical_text, chart_words, closing_words, document_words, heading_words, opening_words, related_words};
ghost use Rattle.msc_print.specs.Pages.{put_all};
ghost use Rattle.msc_print.specs.Words.{all_words};
ghost use Rattle.msc_tree.specs.Views.{chart_view, document_view};

use crate::chart::chart;
use crate::page::Page;
use crate::parts::end;
use msc_base::{Name, NoMemory, Text};
use msc_tree::{Heading, RawChart, RawDocument};
use std::alloc::Global;

/// Writes to which document another is related, where that is said.
fn related(page: &mut Page, other: &Option<Name>) -> Result<(), NoMemory>
    ensures { OnOk result (page.new ≡ put_all page.old (related_words other.now)) }
{
    if let Some(name) = other {
        page.word("related")?;
        page.word("to")?;
        page.put(name.bytes())?;
    }
    Ok(())
}

#[tactic(auto, using(crate::proofs::Putting::put_append))]
/// Writes the heading of a document.
fn heading(page: &mut Page, heading: &Heading) -> Result<(), NoMemory>
    ensures { OnOk result (page.new ≡ put_all page.old (heading_words heading.now)) }
{
    page.word("mscdocument")?;
    page.put(heading.name.bytes())?;
    related(page, &heading.related)?;
    end(page)
}

/// Writes the heading of a document, where it has one.
fn opening(page: &mut Page, held: &Option<Heading>) -> Result<(), NoMemory>
    ensures { OnOk result (page.new ≡ put_all page.old (opening_words held.now)) }
{
    match held {
        Some(known) => heading(page, known),
        None => Ok(()),
    }
}

/// Writes the end of a document that has a heading.
fn closing(page: &mut Page, held: &Option<Heading>) -> Result<(), NoMemory>
    ensures { OnOk result (page.new ≡ put_all page.old (closing_words held.now)) }
{
    if held.is_some() {
        page.word("endmscdocument")?;
        end(page)?;
    }
    Ok(())
}

#[tactic(auto, using(crate::proofs::Putting::mapped_step))]
/// Writes charts.
fn charts(page: &mut Page, list: &[RawChart]) -> Result<(), NoMemory>
    ensures { OnOk result (page.new ≡ put_all page.old (all_words chart_words (map chart_view list.now))) }
{
    for held in list {
        chart(page, held)?;
    }
    Ok(())
}

#[tactic(auto, using(crate::proofs::Putting::put_append))]
/// Writes a document.
fn document(page: &mut Page, doc: &RawDocument) -> Result<(), NoMemory>
    ensures { OnOk result (page.new ≡ put_all page.old (document_words (document_view doc.now))) }
{
    opening(page, &doc.heading)?;
    charts(page, doc.charts.as_slice())?;
    closing(page, &doc.heading)
}

#[tactic(auto, using(crate::proofs::Sheets::laid_out_is))]
/// The canonical text of a document: its tokens, one statement part a line, whatever its blanks, notes and comments were.
pub fn print_document(alloc: Global, doc: &RawDocument) -> Result<Text, NoMemory>
    ensures { IfOk result (λ text. text ≡ canonical_text (document_view doc.now)) }
{
    let mut page = Page::new(alloc);
    document(&mut page, doc)?;
    Ok(page.into_text())
}
