//! The references of levels: for `gathering`.

ghost use Rattle.std.specs.Prelude.{◌≡◌, ◌++◌, ◌∷◌, [], IfOk, OnOk, map};
ghost use Rattle.level_gathering.specs.Gathered.{form_references, references_of};
ghost use Rattle.level_gathering.specs.ReferenceViews.{lists_view, references_view};
ghost use Rattle.level_pieces.specs.PieceViews.{piece_view};
ghost use Rattle.msc_tree.specs.Views.{form_view};

use level_pieces::Piece;
use msc_base::{Items, NoMemory};
use msc_tree::{RawForm, RawReference};
use std::alloc::Global;

/// The references of a level as they are written, each part by itself, in the order of the text.
pub type ReferenceList<'a> = Items<&'a RawReference>;

/// Those of levels, one list for each.
pub type ReferenceLists<'a> = Items<ReferenceList<'a>>;

/// Appends the reference, where the form is one.
fn add_form<'a>(list: &mut ReferenceList<'a>, form: &'a RawForm) -> Result<(), NoMemory>
    ensures { OnOk result (references_view list.new ≡ references_view list.old ++ form_references (form_view form.now)) }
{
    match form {
        RawForm::Reference(held) => list.push(held),
        _ => Ok(()),
    }
}

/// The references of a level.
fn level_references<'a>(
    alloc: Global,
    pieces: &[Piece<'a, '_>],
) -> Result<ReferenceList<'a>, NoMemory>
    ensures { IfOk result (λ list. references_view list ≡ references_of (map piece_view pieces.now)) }
{
    let mut list = Items::new(alloc);
    for piece in pieces {
        add_form(&mut list, piece.form)?;
    }
    Ok(list)
}

/// Notes the references of one level more.
pub fn note_level<'a>(
    alloc: Global,
    references: &mut ReferenceLists<'a>,
    pieces: &[Piece<'a, '_>],
) -> Result<(), NoMemory>
    ensures { OnOk result (lists_view references.new ≡ lists_view references.old ++ references_of (map piece_view pieces.now) ∷ []) }
{
    let list = level_references(alloc, pieces)?;
    references.push(list)
}
