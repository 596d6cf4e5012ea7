//! Whether permission fails, and whether it leaves more than the empty pattern: for `asking` and `permission`.

ghost use Rattle.std.specs.Prelude.{◌≡◌, ℕ, List, Some, Option, true, false};
ghost use Rattle.chart_term.specs.Terms.{Tree, Part};
ghost use Rattle.term_permission.specs.RowRests.{RowRest, no_rest, rest_end, tried_before};
ghost use Rattle.term_permission.specs.Remnants.{RemnantSays, Tallies, both, either, stays};
ghost use Rattle.term_permission.specs.declared.remnant.Remnant.TheVariants.{Fails};

use crate::row_end::is_empty;
use chart_term::{PartList, Term};

/// What permission leaves of a term, without the term.
#[derive(Clone, Copy)]
pub enum Remnant {
    /// Permission fails.
    Fails,
    /// Only the empty pattern.
    Empty,
    /// More than the empty pattern.
    More,
}

impl Remnant {
    /// Where this term is left.
    pub(crate) fn of(term: &Term) -> Remnant
        ensures { RemnantSays result (Some term.now) }
    {
        if is_empty(term) {
            Remnant::Empty
        } else {
            Remnant::More
        }
    }

    /// Where these parts are left as they are, none of which is Nil.
    pub(crate) fn of_parts(parts: &PartList) -> Remnant
        ensures { result ≡ stays parts.now }
    {
        if parts.is_empty() {
            Remnant::Empty
        } else {
            Remnant::More
        }
    }

    /// Whether permission fails.
    pub fn fails(self) -> bool
        ensures yes { result ≡ true → self ≡ Fails }
        ensures no { result ≡ false → self ≡ Fails → ⊥ }
    {
        match self {
            Remnant::Fails => true,
            Remnant::Empty => false,
            Remnant::More => false,
        }
    }

    /// What is left of two parts of a join.
    pub(crate) fn and(self, behind: Remnant) -> Remnant
        ensures { result ≡ both self behind }
    {
        match (self, behind) {
            (Remnant::Fails, _) => Remnant::Fails,
            (Remnant::Empty, behind) => behind,
            (Remnant::More, Remnant::Fails) => Remnant::Fails,
            (Remnant::More, Remnant::Empty) => Remnant::More,
            (Remnant::More, Remnant::More) => Remnant::More,
        }
    }

    /// What is left of two parts of a choice.
    pub(crate) fn or(self, behind: Remnant) -> Remnant
        ensures { result ≡ either self behind }
    {
        match (self, behind) {
            (Remnant::Fails, behind) => behind,
            (Remnant::Empty, Remnant::Fails) => Remnant::Empty,
            (Remnant::Empty, Remnant::Empty) => Remnant::Empty,
            (Remnant::Empty, Remnant::More) => Remnant::More,
            (Remnant::More, _) => Remnant::More,
        }
    }
}

/// What is left of the end of a loop's row, without the row.
#[derive(Clone, Copy)]
pub(crate) struct RowTally {
    /// Whether a gap is left.
    pub(crate) gap: bool,
    /// Whether a gap was dropped that leaves only the empty pattern.
    pub(crate) free: bool,
    /// What is left of the begun turns.
    pub(crate) turns: Remnant,
}

impl RowTally {
    /// Of no parts.
    pub(crate) fn none() -> RowTally
        ensures { Tallies result no_rest }
    {
        RowTally {
            gap: false,
            free: false,
            turns: Remnant::Empty,
        }
    }

    /// With turns in front of which this is left.
    pub(crate) fn with_turns(self, left: Remnant) -> RowTally
        ensures { result ≡ record self { turns = both left self.turns } }
    {
        RowTally {
            gap: self.gap,
            free: self.free,
            turns: left.and(self.turns),
        }
    }

    /// With a gap in front that leaves this of the operand.
    pub(crate) fn with_gap(self, left: Remnant) -> RowTally
        ensures { (o : Option Tree) (c : List ℕ) (r : RowRest) → RemnantSays left o → Tallies self r → Tallies result (tried_before o c r) }
    {
        match left {
            Remnant::Fails => self,
            Remnant::Empty => RowTally {
                gap: self.gap,
                free: true,
                turns: self.turns,
            },
            Remnant::More => RowTally {
                gap: true,
                free: self.free,
                turns: self.turns,
            },
        }
    }

    /// What the loop comes to, in which so many turns have to begin yet.
    pub(crate) fn end(self, lower: u64) -> Remnant
        ensures { (r : RowRest) (x : Tree) (hi : Option ℕ) → Tallies self r → RemnantSays result (rest_end x lower hi r) }
    {
        let lower = if self.free { 0 } else { lower };
        if self.gap {
            Remnant::More
        } else if lower > 0 {
            Remnant::Fails
        } else {
            self.turns
        }
    }
}
