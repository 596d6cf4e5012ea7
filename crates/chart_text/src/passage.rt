//! What stands in the text of a chart, passage by passage: `walk` makes the list, and rules on texts go through it.

ghost use Rattle.std.specs.Prelude.{◌≡◌};
ghost use Rattle.chart_text.specs.PassageViews.{scope_view, side_view, standing_view};
ghost use Rattle.chart_text.specs.Texts.{behind_colon, covered_scope, own_scope};

use msc_base::Name;
use msc_tree::{Cover, Decl, FewNames, RawItem, RawOperand, Statement};

/// Which instances may be named.
#[derive(Clone, Copy)]
pub enum Scope<'a> {
    /// All of the chart.
    Whole,
    /// This one alone.
    Column(&'a Name),
    /// These.
    Listed(&'a FewNames),
}

/// What an item stands in.
#[derive(Clone, Copy)]
pub enum Side<'a> {
    /// The column of that instance.
    InColumn(&'a Name),
    /// Behind a colon, with these names left of it.
    Behind(&'a FewNames),
    /// Behind a colon, with `all` left of it: those that may be named there.
    BehindAll(Scope<'a>),
}

/// Where an item or an operand stands.
#[derive(Clone, Copy)]
pub struct Standing<'a> {
    /// How many operands it stands in, each within the one before.
    pub depth: u32,
    /// What it stands in; an operand, what its expression stands in.
    pub side: Side<'a>,
    /// The instances that may be named there.
    pub scope: Scope<'a>,
}

/// What stands in a text.
#[derive(Clone, Copy)]
pub enum Passage<'a> {
    /// A declaration of the heads.
    Head(&'a Decl),
    /// A statement, at that depth, where those instances may be named.
    Statement(u32, Scope<'a>, &'a Statement),
    /// An item.
    Item(Standing<'a>, &'a RawItem),
    /// An operand, with the standing of what it holds.
    Operand(Standing<'a>, &'a RawOperand),
}

/// Two passages stand for each event that is written in a statement of its own.
const _: () = prove!(size_of::<Passage>() == 64);

impl<'a> Scope<'a> {
    /// The instances that a part covers, by its shared list or its own.
    pub(crate) fn covered(self, own: Scope<'a>, shared: &'a Option<Cover>) -> Scope<'a>
        ensures { scope_view result ≡ covered_scope (scope_view self.entry) (scope_view own.entry) shared.now }
    {
        match shared {
            None => own,
            Some(Cover::All) => self,
            Some(Cover::Listed(names)) => {
                if names.len() == 0 {
                    own
                } else {
                    Scope::Listed(names)
                }
            }
        }
    }
}

impl<'a> Side<'a> {
    /// Behind a colon with that cover left of it.
    pub(crate) fn behind(scope: Scope<'a>, cover: &'a Cover) -> Side<'a>
        ensures { side_view result ≡ behind_colon (scope_view scope.entry) cover.now }
    {
        match cover {
            Cover::All => Side::BehindAll(scope),
            Cover::Listed(names) => Side::Behind(names),
        }
    }

    /// The instances in whose columns it stands.
    pub fn own(self) -> Scope<'a>
        ensures { scope_view result ≡ own_scope (side_view self.entry) }
    {
        match self {
            Side::InColumn(name) => Scope::Column(name),
            Side::Behind(names) => Scope::Listed(names),
            Side::BehindAll(scope) => scope,
        }
    }
}
