//! Weaves the statements of a basic chart to a body, or tells why it can't: `weave`.

ghost use Rattle.std.specs.Prelude.{◌≡◌, IfErr, IfOk, map};
ghost use Rattle.chart_text.specs.Texts.{Whole, statements_text};
ghost use Rattle.chart_text.specs.WellFormed.{AreWellFormed};
ghost use Rattle.level_pieces.specs.FormedPieces.{AreFormed};
ghost use Rattle.level_pieces.specs.PieceNumbers.{AreNumbered};
ghost use Rattle.level_pieces.specs.PieceViews.{piece_view};
ghost use Rattle.level_weaving.specs.WeaveFaults.{IsLevelFault, IsLevelWoven};
ghost use Rattle.level_weaving.specs.declared.weaving.WeaveFault.TheVariants.{NoMemory as WantOfMemory};
ghost use Rattle.msc_base.specs.Lists.{AreDifferent};
ghost use Rattle.msc_meaning.specs.Pieces.{statements_pieces};
ghost use Rattle.msc_meaning.specs.Views.{body_view};
ghost use Rattle.msc_tree.specs.Statements.{statements as statement_tree};
ghost use Rattle.msc_tree.specs.Views.{statement_view};

use crate::answers::Answer;
use crate::levels::woven_level;
use level_pieces::{Piece, chart_pieces};
use msc_base::{Names, NoMemory, Place};
use msc_meaning::Body;
use msc_tree::Statement;
use std::alloc::Global;

/// Why statements aren't woven.
#[derive(Clone, Copy, Debug, PartialEq, Eq)]
pub enum WeaveFault {
    /// No item that remains is first in all its columns; the earliest of them stands at that place.
    Crossed(Place),
    /// At that place, the earliest, an output to an instance or an input from one has no partner.
    Unmatched(Place),
    /// Memory was wanting.
    NoMemory,
}

impl From<NoMemory> for WeaveFault {
    ghost from_gives = { λ _ fault. fault ≡ WantOfMemory };

    fn from(_: NoMemory) -> Self {
        WeaveFault::NoMemory
    }
}

/// The body of a level that covers these instances, by its pieces.
fn weave_level(alloc: Global, cover: &Names, pieces: &[Piece<'_, '_>]) -> Result<Body, WeaveFault>
    requires different { AreDifferent cover.now }
    requires numbered { AreNumbered 0 (map piece_view pieces.now) }
    requires formed { AreFormed (map piece_view pieces.now) }
    ensures ok { IfOk result (λ body. IsLevelWoven cover.now (map piece_view pieces.now) (body_view body)) }
    ensures fault { IfErr result (IsLevelFault cover.now (map piece_view pieces.now)) }
{
    match woven_level(alloc, cover, pieces)? {
        Answer::Crossed(place) => Err(WeaveFault::Crossed(place)),
        Answer::Woven(_, Some(place)) => Err(WeaveFault::Unmatched(place)),
        Answer::Woven(body, None) => Ok(body),
    }
}

/// The woven body of a basic chart of these statements, whose instances `names` are.
///
/// At each position of its items stands the earliest whose predecessors in all its columns stand before it; the operands of inline
/// expressions are woven in turn.
pub fn weave(alloc: Global, names: &Names, list: &[Statement]) -> Result<Body, WeaveFault>
    requires different { AreDifferent names.now }
    requires formed { AreWellFormed (statements_text 0 Whole (statement_tree (map statement_view list.now))) }
    ensures ok { IfOk result (λ body. IsLevelWoven names.now (statements_pieces names.now 0 (statement_tree (map statement_view list.now))) (body_view body)) }
    ensures fault { IfErr result (IsLevelFault names.now (statements_pieces names.now 0 (statement_tree (map statement_view list.now)))) }
{
    let pieces = chart_pieces(alloc, names, list)?;
    weave_level(alloc, names, pieces.as_slice())
}
