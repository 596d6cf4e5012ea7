//! The earliest exception that stands where it may not: inside an operand, or not covering all instances.

ghost use Rattle.std.specs.Prelude.{◌≡◌, ◌++◌, ◌&&◌, IfOk, OnOk, map, nat_eq, not};
ghost use Rattle.chart_text.specs.Gathering.{place_if};
ghost use Rattle.chart_text.specs.PassageViews.{text_view};
ghost use Rattle.chart_text.specs.Texts.{chart_text as text_of};
ghost use Rattle.level_weaving.specs.Exceptions.{IsMisplaced, covers_all as all_covered, inner_exceptions, inner_item, is_exception, misplaced, outer_exceptions, outer_piece, outer_pieces};
ghost use Rattle.level_pieces.specs.PieceViews.{piece_view, setting_column, setting_leads};
ghost use Rattle.msc_base.specs.Places.{IsLeast};
ghost use Rattle.msc_instances.specs.Instances.{instances};
ghost use Rattle.msc_meaning.specs.LevelItems.{cover_by};
ghost use Rattle.msc_tree.specs.Statements.{statements as statement_tree};
ghost use Rattle.msc_tree.specs.Views.{chart_view, content_view, form_view, statement_view};

use chart_text::{Passage, TextRule, earliest_place, note_if, note_text};
use level_pieces::{Piece, PieceSide, chart_pieces, covered};
use msc_base::{Items, Name, NameTable, Names, NoMemory, Place};
use msc_tree::{Content, InlineForm, RawChart, RawForm, RawInline};
use std::alloc::Global;

/// Whether the form is an exception.
fn is_exc(form: InlineForm) -> bool
    ensures { result ≡ is_exception form }
{
    match form {
        InlineForm::Exc => true,
        InlineForm::Alt | InlineForm::Opt | InlineForm::Par | InlineForm::Loop => false,
    }
}

/// Whether both hold.
fn both(a: bool, b: bool) -> bool
    ensures { result ≡ (a && b) }
{
    a && b
}

/// Whether each of the names is covered.
fn covers_all(alloc: Global, names: &[Name], cover: &[Name]) -> Result<bool, NoMemory>
    ensures { IfOk result (λ all. all ≡ all_covered names.now cover.now) }
{
    let table = NameTable::of(alloc, cover)?;
    let mut all = true;
    for name in names {
        all = both(all, table.has(name.bytes()));
    }
    Ok(all)
}

/// Notes an item at that depth, where it is an exception inside an operand.
fn inner(
    places: &mut Items<Place>,
    depth: u32,
    place: Place,
    form: &RawForm,
) -> Result<(), NoMemory>
    ensures { OnOk result (places.new ≡ places.old ++ inner_item depth place (form_view form.now)) }
{
    match form {
        RawForm::Inline(held) => note_if(places, place, both(is_exc(held.form), depth != 0)),
        RawForm::Single(_) => Ok(()),
        RawForm::Coregion(_) => Ok(()),
        RawForm::Condition(_, _) => Ok(()),
        RawForm::Reference(_) => Ok(()),
        RawForm::Stop => Ok(()),
    }
}

/// The rule on exceptions inside operands.
struct InnerExceptions;

impl TextRule for InnerExceptions {
    ghost told = { inner_exceptions };

    fn note(places: &mut Items<Place>, passage: Passage<'_>) -> Result<(), NoMemory> {
        match passage {
            Passage::Item(standing, held) => {
                inner(places, standing.depth, held.place.get(), &held.form)
            }
            Passage::Head(_) => Ok(()),
            Passage::Statement(_, _, _) => Ok(()),
            Passage::Operand(_, _) => Ok(()),
        }
    }
}

/// Notes an inline expression of the outermost level, where it is an exception that doesn't cover all instances.
fn uncovering(
    alloc: Global,
    places: &mut Items<Place>,
    names: &Names,
    setting: PieceSide<'_, '_>,
    place: Place,
    inline: &RawInline,
) -> Result<(), NoMemory>
    ensures { OnOk result (places.new ≡ places.old ++ place_if (is_exception inline.now.form && not (all_covered names.now (cover_by names.now (setting_leads setting.entry) (setting_column setting.entry) inline.now.shared))) place) }
{
    if !is_exc(inline.form) {
        return Ok(());
    }
    let cover = covered(alloc, names, setting, &inline.shared)?;
    let all = covers_all(alloc, names.as_slice(), cover.as_slice())?;
    note_if(places, place, !all)
}

/// The same of a piece.
fn outer(
    alloc: Global,
    places: &mut Items<Place>,
    names: &Names,
    piece: Piece<'_, '_>,
) -> Result<(), NoMemory>
    ensures { OnOk result (places.new ≡ places.old ++ outer_piece names.now (piece_view piece.entry)) }
{
    match piece.form {
        RawForm::Inline(held) => {
            uncovering(alloc, places, names, piece.setting, piece.place, held)
        }
        RawForm::Single(_) => Ok(()),
        RawForm::Coregion(_) => Ok(()),
        RawForm::Condition(_, _) => Ok(()),
        RawForm::Reference(_) => Ok(()),
        RawForm::Stop => Ok(()),
    }
}

/// The same of pieces.
fn outer_all(
    alloc: Global,
    places: &mut Items<Place>,
    names: &Names,
    pieces: &[Piece<'_, '_>],
) -> Result<(), NoMemory>
    ensures { OnOk result (places.new ≡ places.old ++ outer_pieces names.now (map piece_view pieces.now)) }
{
    for piece in pieces {
        outer(alloc, places, names, *piece)?;
    }
    Ok(())
}

/// The same of what a chart holds.
fn content(
    alloc: Global,
    places: &mut Items<Place>,
    names: &Names,
    content: &Content,
) -> Result<(), NoMemory>
    ensures { OnOk result (places.new ≡ places.old ++ outer_exceptions names.now (content_view content.now)) }
{
    match content {
        Content::Events(list) => {
            let pieces = chart_pieces(alloc, names, list.as_slice())?;
            outer_all(alloc, places, names, pieces.as_slice())
        }
        Content::Graph(_) => Ok(()),
    }
}

/// The same of a chart, and the exceptions inside operands.
fn whole(
    alloc: Global,
    places: &mut Items<Place>,
    chart: &RawChart,
    names: &Names,
    text: &[Passage<'_>],
) -> Result<(), NoMemory>
    requires { text_view text.now ≡ text_of (chart_view chart.now) }
    ensures { OnOk result (places.new ≡ places.old ++ misplaced names.now (chart_view chart.now)) }
{
    note_text::<InnerExceptions>(places, text)?;
    content(alloc, places, names, &chart.content)
}

/// The earliest place of a chart, whose instances `names` are and whose text that is, at which an exception stands that may not.
pub fn first_misplaced(
    alloc: Global,
    chart: &RawChart,
    names: &Names,
    text: &[Passage<'_>],
) -> Result<Option<Place>, NoMemory>
    requires names { names.now ≡ instances (chart_view chart.now) }
    requires text { text_view text.now ≡ text_of (chart_view chart.now) }
    ensures { IfOk result (IsLeast (IsMisplaced (chart_view chart.now))) }
{
    let mut places = Items::new(alloc);
    whole(alloc, &mut places, chart, names, text)?;
    Ok(earliest_place(places.as_slice()))
}
