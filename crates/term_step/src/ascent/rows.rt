//! What is left of rows and of parts side by side, where one of them has had an event: for `ascent`.

ghost use Rattle.std.specs.Prelude.{◌≡◌, ◌<◌, ℕ, List, Option, IfOk, IfSome, Some, false, length, slice_get};
ghost use Rattle.chart_term.specs.NormalForms.{begun};
ghost use Rattle.chart_term.specs.PartLists.{AreTurns};
ghost use Rattle.chart_term.specs.Properties.{EachTurn};
ghost use Rattle.chart_term.specs.Terms.{Join, Tree, trees};
ghost use Rattle.chart_term.specs.Views.{event_of};
ghost use Rattle.msc_base.specs.Patterns.{seq, par};
ghost use Rattle.term_facts.specs.NodeFacts.{lies_in};
ghost use Rattle.term_facts.specs.declared.facts.Span.{Span};
ghost use Rattle.term_step.specs.Children.{put};
ghost use Rattle.term_step.specs.Kept.{AreKept, AreKeptOf};
ghost use Rattle.term_permission.specs.Lefts.{ArePartsLeft};
ghost use Rattle.term_laws.specs.Normality.{IsPartOf};
ghost use Rattle.term_laws.specs.Permission.{permits_of};
ghost use Rattle.term_permission.specs.Ready.{IsReady, AreReadyTables};
ghost use Rattle.term_step.specs.Searches.{IsTaken};

use super::Taken;
use chart_term::{PartList, Term, par_of, seq_of};
use msc_base::NoMemory;
use std::alloc::Global;
use term_facts::Span;
use term_permission::{Joint, PartsLeft, kept, permit_parts, put_in, replaced};
use term_tables::Nets;

/// The parts side by side, where that of the index is replaced.
#[tactic(auto, using(crate::proofs::Ascending::ascending))]
pub(super) fn put_in_par(
    alloc: Global,
    nets: &Nets,
    taken: &Taken,
    parts: &PartList,
    index: usize,
    left: &Term,
) -> Result<Term, NoMemory>
    requires turns { AreTurns parts.now }
    requires open { EachTurn (IsPartOf par) parts.now }
    requires index { index < length parts.now }
    ensures whole { IfOk result (λ whole. Some whole ≡ put (permits_of nets.now.tables) (event_of taken.now.event) (Join par (trees (begun parts.now))) index left.now) }
    ensures kept { IfOk result (λ whole. (s : Span) → ((y : Tree) → slice_get (begun parts.now) index ≡ Some y → AreKept s y left.now) → AreKept s (Join par (trees (begun parts.now))) whole) }
{
    let _ = nets;
    let _ = taken;
    let whole = put_in(alloc, Joint::Aside, left, parts, index)?;
    let whole = par_of(alloc, whole)?;
    Ok(whole)
}

/// What is left of parts in weak sequence: those before the index let the event pass.
#[tactic(auto, using(crate::proofs::Ascending::ascending))]
pub(super) fn put_in_row(
    alloc: Global,
    nets: &Nets,
    taken: &Taken,
    parts: &PartList,
    index: usize,
    left: &Term,
    gone: &mut Span,
) -> Result<Option<Term>, NoMemory>
    requires tables { AreReadyTables nets.now.tables }
    requires taken { IsTaken taken.now }
    requires turns { AreTurns parts.now }
    requires ready { EachTurn (IsReady nets.now.tables) parts.now }
    requires open { EachTurn (IsPartOf seq) parts.now }
    requires index { index < length parts.now }
    requires kept { (y : Tree) → slice_get (begun parts.now) index ≡ Some y → AreKept gone.old y left.now }
    ensures whole { IfOk result (λ whole. whole ≡ put (permits_of nets.now.tables) (event_of taken.now.event) (Join seq (trees (begun parts.now))) index left.now) }
    ensures kept { IfOk result (λ whole. IfSome whole (AreKept gone.new (Join seq (trees (begun parts.now))))) }
{
    let before = parts.front(alloc, index)?;
    let permitted = permit_parts(alloc, nets, Joint::Row, &before, &taken.at)?;
    *gone = widened(*gone, &before, &permitted);
    let Some(before) = kept(alloc, &before, permitted)? else {
        return Ok(None);
    };
    let whole = replaced(alloc, Joint::Row, &before, left, parts, index)?;
    let whole = seq_of(alloc, whole)?;
    Ok(Some(whole))
}

/// The span, wider by the numbers of the parts where other parts may be left.
#[tactic(auto, using(crate::proofs::KeptNumbers::kept_numbers))]
fn widened(gone: Span, parts: &PartList, left: &PartsLeft) -> Span
    ensures wider { (n : ℕ) → lies_in (Some result) n ≡ false → lies_in (Some gone) n ≡ false }
    ensures kept { (o : Option (List Tree)) → ArePartsLeft o parts.now left.now → AreKeptOf result (begun parts.now) o }
{
    match left {
        PartsLeft::Fails => gone,
        PartsLeft::Unchanged => gone,
        PartsLeft::Changed(_) => gone.wider(parts.facts().range()),
    }
}
