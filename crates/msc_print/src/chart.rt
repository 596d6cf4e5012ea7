//! Prints a chart with its heads: for `document` alone.

ghost use Rattle.std.specs.Prelude.{◌≡◌, OnOk};
ghost use Rattle.msc_print.specs.ChartWords.{chart_words, content_words, decl_head_words, heads_words, name_head_words};
ghost use Rattle.msc_print.specs.Pages.{put_all};
ghost use Rattle.msc_tree.specs.Views.{chart_view, content_view};

use crate::decl::{decl, other_decls};
use crate::graph::graph;
use crate::page::Page;
use crate::parts::{end, names};
use crate::statement::statements;
use msc_base::{Name, NoMemory};
use msc_tree::{Content, Decl, RawChart};

#[tactic(auto, using(crate::proofs::Putting::put_append))]
/// Writes the head that declares instances, where there is one.
fn decl_head(page: &mut Page, decls: &[Decl]) -> Result<(), NoMemory>
    ensures { OnOk result (page.new ≡ put_all page.old (decl_head_words decls.now)) }
{
    let Some((first, others)) = decls.split_first() else {
        return Ok(());
    };
    page.word("inst")?;
    decl(page, first)?;
    other_decls(page, others)?;
    end(page)
}

#[tactic(auto, using(crate::proofs::Putting::put_append))]
/// Writes a head that declares messages or timers, where there is one.
fn name_head(page: &mut Page, word: &str, list: &[Name]) -> Result<(), NoMemory>
    ensures { OnOk result (page.new ≡ put_all page.old (name_head_words word.now list.now)) }
{
    if list.is_empty() {
        return Ok(());
    }
    page.word(word)?;
    names(page, list)?;
    end(page)
}

#[tactic(auto, using(crate::proofs::Putting::put_append))]
/// Writes the heads of a chart.
fn heads(page: &mut Page, chart: &RawChart) -> Result<(), NoMemory>
    ensures { OnOk result (page.new ≡ put_all page.old (heads_words (chart_view chart.now))) }
{
    decl_head(page, chart.decls.as_slice())?;
    name_head(page, "msg", chart.messages.as_slice())?;
    name_head(page, "timer", chart.timers.as_slice())
}

/// Writes what a chart holds.
fn content(page: &mut Page, content: &Content) -> Result<(), NoMemory>
    ensures { OnOk result (page.new ≡ put_all page.old (content_words (content_view content.now))) }
{
    match content {
        Content::Events(list) => statements(page, list.as_slice()),
        Content::Graph(held) => graph(page, held),
    }
}

#[tactic(auto, using(crate::proofs::Putting::put_append))]
/// Writes a chart.
pub fn chart(page: &mut Page, chart: &RawChart) -> Result<(), NoMemory>
    ensures { OnOk result (page.new ≡ put_all page.old (chart_words (chart_view chart.now))) }
{
    page.word("msc")?;
    page.put(chart.name.bytes())?;
    end(page)?;
    heads(page, chart)?;
    content(page, &chart.content)?;
    page.word("endmsc")?;
    end(page)
}
