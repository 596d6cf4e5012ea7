//! What a term is, by its form: for `step`.

ghost use Rattle.std.specs.Prelude.{◌≡◌, false, true, IfSome, IfNone};
ghost use Rattle.chart_term.specs.Terms.{Event as EventTree};
ghost use Rattle.chart_term.specs.Views.{event_of};
ghost use Rattle.certificate_checking.specs.Forms.{IsChoice, IsJoin, IsLoop, IsNoChoice, IsNoEvent, IsNoJoin, IsNoLoop, IsNoTie, IsNoWalk, IsTie, IsWalk, mode_of};

use chart_term::{Event, Look, Term};

/// A join.
#[derive(Clone, Copy)]
pub(crate) struct Joined {
    /// Whether the parts stand side by side.
    pub(crate) is_beside: bool,
    /// How many there are.
    pub(crate) count: usize,
}

/// The counts of a loop.
#[derive(Clone, Copy)]
pub(crate) struct Counts {
    /// How many turns there must be.
    pub(crate) lower: u64,
    /// How many turns there may be.
    pub(crate) upper: Option<u64>,
}

/// The event that the term is.
pub(crate) fn event_in(term: &Term) -> Option<Event>
    ensures some { IfSome result (λ event. term.now ≡ EventTree (event_of event)) }
    ensures none { IfNone result (IsNoEvent term.now) }
{
    match term.look() {
        Look::Event {
            number,
            at,
            also,
            label,
        } => Some(Event {
            number,
            at,
            also,
            label,
        }),
        _ => None,
    }
}

/// The join that the term is.
#[tactic(auto, using(crate::proofs::FormFacts::forms))]
pub(crate) fn join_in(term: &Term) -> Option<Joined>
    ensures some { IfSome result (λ joined. IsJoin (mode_of joined.is_beside) joined.count term.now) }
    ensures none { IfNone result (IsNoJoin term.now) }
{
    match term.look() {
        Look::Seq(parts) => Some(Joined {
            is_beside: false,
            count: parts.len(),
        }),
        Look::Par(parts) => Some(Joined {
            is_beside: true,
            count: parts.len(),
        }),
        _ => None,
    }
}

/// How many parts the choice has that the term is.
#[tactic(auto, using(crate::proofs::FormFacts::forms))]
pub(crate) fn choice_in(term: &Term) -> Option<usize>
    ensures some { IfSome result (λ count. IsChoice count term.now) }
    ensures none { IfNone result (IsNoChoice term.now) }
{
    match term.look() {
        Look::Choice(parts) => Some(parts.len()),
        _ => None,
    }
}

/// Whether the term is a tie.
#[tactic(auto, using(crate::proofs::FormFacts::forms))]
pub(crate) fn is_tie(term: &Term) -> bool
    ensures is { result ≡ true → IsTie term.now }
    ensures not { result ≡ false → IsNoTie term.now }
{
    match term.look() {
        Look::Tied(_, _) => true,
        _ => false,
    }
}

/// The counts of the loop that the term is.
#[tactic(auto, using(crate::proofs::FormFacts::forms))]
pub(crate) fn loop_in(term: &Term) -> Option<Counts>
    ensures some { IfSome result (λ counts. IsLoop counts.lower counts.upper term.now) }
    ensures none { IfNone result (IsNoLoop term.now) }
{
    match term.look() {
        Look::Loop { lower, upper, .. } => Some(Counts { lower, upper }),
        _ => None,
    }
}

/// The net of the walk that the term is.
#[tactic(auto, using(crate::proofs::FormFacts::forms))]
pub(crate) fn walk_in(term: &Term) -> Option<u32>
    ensures some { IfSome result (λ net. IsWalk net term.now) }
    ensures none { IfNone result (IsNoWalk term.now) }
{
    match term.look() {
        Look::Walk { net, .. } => Some(net),
        _ => None,
    }
}
