//! The terms that a search found, each once, and their weight, above which the search ends: for `search`.

ghost use Rattle.std.specs.Prelude.{◌≡◌, ◌<◌, ◌≤◌, [], IfOk};
ghost use Rattle.msc_base.specs.Stored.{most_stored};
ghost use Rattle.term_laws.specs.Listing.{set_weight};
ghost use Rattle.term_step.specs.Searches.{AddsOne, IsTally};

use crate::coded::CodedTerm;
use chart_term::Term;
use msc_base::NoMemory;
use std::alloc::Global;
use std::collections::BTreeSet;

/// The terms that a search has found, each once.
#[derive(Drop)]
pub(crate) struct Found {
    /// The terms in their order.
    pub(crate) terms: BTreeSet<CodedTerm>,
    /// The sum of their weights, or the largest `u64` where it is larger.
    pub(crate) weight: u64,
    /// Above which weight the search ends.
    pub(crate) most: u64,
}

impl Found {
    /// No terms. It takes no memory.
    #[tactic(auto, using(crate::proofs::Tallying::tallying))]
    pub(crate) fn new(alloc: Global, most: u64) -> Found
        requires { most < most_stored }
        ensures tally { IsTally result }
        ensures terms { result.terms.keys ≡ [] }
        ensures most { result.most ≡ most }
    {
        Found {
            terms: BTreeSet::new(alloc),
            weight: 0,
            most,
        }
    }

    /// Adds the term where it is new, and says whether the terms' weight isn't above the bound.
    #[tactic(auto, using(crate::proofs::Tallying::tallying))]
    pub(crate) fn add(&mut self, term: Term) -> Result<bool, NoMemory>
        requires tally { IsTally self.old }
        requires within { set_weight self.old.terms.keys ≤ self.old.most }
        ensures { IfOk result (λ all. AddsOne term self.old self.new all) }
    {
        let weight = term.weight();
        if !self.terms.insert(CodedTerm::new(term))? {
            return Ok(true);
        }
        self.weight = self.weight.saturating_add(weight);
        Ok(self.weight <= self.most)
    }
}
