//! What is left of some terms: each term once, in their order, with the weight of all. term_sets' sets are made of it.

ghost use Rattle.std.specs.Prelude.{◌≡◌, IfOk};
ghost use Rattle.term_successors.specs.Successors.{AreRising};
ghost use Rattle.term_laws.specs.Listing.{set_weight};

use crate::coded::CodedTerm;
use chart_term::TermList;
use msc_base::NoMemory;
use std::alloc::Global;
use std::collections::BTreeSet;
use std::marker::Model;

/// Terms that were gathered, each once, with their weight.
///
/// A contract sees them as a list that rises.
#[derive(Drop)]
pub struct Gathered {
    terms: BTreeSet<CodedTerm>,
    weight: u64,
}

impl Model for Gathered {
    ghost use Rattle.std.specs.Prelude.{List, ◌≡◌};
    ghost use Rattle.std.specs.Coded.{coded_list};
    ghost use Rattle.chart_term.specs.Codes.{coded_tree};
    ghost use Rattle.chart_term.specs.Terms.{Tree};
    ghost use Rattle.term_successors.specs.Successors.{AreRising};
    ghost use Rattle.term_laws.specs.Listing.{set_weight};

    ghost Value = { List Tree };

    ghost coded = { coded_list coded_tree };

    ghost view = { λ g. g.terms.keys };

    ghost invariant = { λ g. (g.weight ≡ set_weight g.terms.keys) × AreRising g.terms.keys };
}

impl Gathered {
    /// These terms, which together have this weight.
    pub(crate) fn of(terms: BTreeSet<CodedTerm>, weight: u64) -> Gathered
        requires weight { weight ≡ set_weight terms.keys }
        requires rising { AreRising terms.keys }
        ensures { result ≡ terms.keys }
    {
        Gathered { terms, weight }
    }

    /// The weight of all of them.
    pub fn weight(&self) -> u64
        ensures weight { result ≡ set_weight self.now }
        ensures rising { AreRising self.now }
    {
        self.weight
    }

    /// The terms as a list, in their order.
    pub fn into_list(self, alloc: Global) -> Result<TermList, NoMemory>
        ensures list { IfOk result (λ list. list ≡ self) }
        ensures rising { IfOk result (λ list. AreRising list) }
    {
        let Gathered { terms, .. } = self;
        let mut list = TermList::new(alloc);
        for term in terms {
            list.push(term.into_term())?;
        }
        Ok(list)
    }
}
