//! Prints declarations of instances: for `chart` and `statement`.

ghost use Rattle.std.specs.Prelude.{◌≡◌, OnOk, codes};
ghost use Rattle.msc_print.specs.Pages.{put_all};
ghost use Rattle.msc_print.specs.StatementWords.{decl_words, heading_words, kind_words, refined_words};
ghost use Rattle.msc_print.specs.Words.{each_behind};

use crate::page::Page;
use crate::parts::end;
use msc_base::{Name, NoMemory};
use msc_tree::Decl;

#[tactic(auto, using(crate::proofs::Putting::row_step))]
/// Writes the names one after another.
fn row(page: &mut Page, names: &[Name]) -> Result<(), NoMemory>
    ensures { OnOk result (page.new ≡ put_all page.old names.now) }
{
    for name in names {
        page.put(name.bytes())?;
    }
    Ok(())
}

/// Writes the kind of an instance, where it has one.
fn kind(page: &mut Page, names: &[Name]) -> Result<(), NoMemory>
    ensures { OnOk result (page.new ≡ put_all page.old (kind_words names.now)) }
{
    if names.is_empty() {
        return Ok(());
    }
    page.word(":")?;
    row(page, names)
}

/// Writes the chart that refines an instance, where there is one.
fn refined(page: &mut Page, chart: &Option<Name>) -> Result<(), NoMemory>
    ensures { OnOk result (page.new ≡ put_all page.old (refined_words chart.now)) }
{
    if let Some(name) = chart {
        page.word("decomposed")?;
        page.word("as")?;
        page.put(name.bytes())?;
    }
    Ok(())
}

#[tactic(auto, using(crate::proofs::Putting::put_append))]
/// Writes the declaration of an instance.
pub fn decl(page: &mut Page, decl: &Decl) -> Result<(), NoMemory>
    ensures { OnOk result (page.new ≡ put_all page.old (decl_words decl.now)) }
{
    page.put(decl.name.bytes())?;
    kind(page, decl.kind.as_slice())?;
    refined(page, &decl.refined)
}

#[tactic(auto, using(crate::proofs::Putting::put_append))]
/// Writes a declaration as a statement of its own.
pub fn heading(page: &mut Page, decl: &Decl) -> Result<(), NoMemory>
    ensures { OnOk result (page.new ≡ put_all page.old (heading_words decl.now)) }
{
    page.put(decl.name.bytes())?;
    page.word(":")?;
    page.word("instance")?;
    row(page, decl.kind.as_slice())?;
    refined(page, &decl.refined)?;
    end(page)
}

#[tactic(auto, using(crate::proofs::Putting::each_step))]
/// Writes other declarations, each behind a comma.
pub fn other_decls(page: &mut Page, decls: &[Decl]) -> Result<(), NoMemory>
    ensures { OnOk result (page.new ≡ put_all page.old (each_behind (codes ",") decl_words decls.now)) }
{
    for other in decls {
        page.word(",")?;
        decl(page, other)?;
    }
    Ok(())
}
