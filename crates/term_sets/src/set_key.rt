//! What a set of terms is found by, where many are remembered.

ghost use Rattle.std.specs.Prelude.{◌≡◌, IfOk};
ghost use Rattle.term_sets.specs.Keys.{told};
ghost use Rattle.term_sets.specs.Subsets.{all_spelled, side_by_side};

use chart_term::{Term, TermList};
use msc_base::NoMemory;
use std::alloc::Global;

/// What a set is found by: it tells the set's terms. The weight comes first, so that most sets differ at once.
#[derive(PartialEq, Eq, PartialOrd, Ord, Drop)]
pub enum SetKey {
    /// Of a list.
    Listed {
        /// The weight of the terms.
        weight: u64,
        /// The terms.
        terms: Vec<Term>,
    },
    /// Of subsets of the events of one term.
    Subsets {
        /// The weight of the terms.
        weight: u64,
        /// All the events side by side.
        whole: Term,
        /// For each term a word with a bit for each of its events.
        words: Vec<u64>,
    },
}

impl SetKey {
    /// That of these terms, which weigh so much together.
    pub(crate) fn of_list(alloc: Global, weight: u64, terms: &TermList) -> Result<SetKey, NoMemory>
        ensures { IfOk result (λ key. told key ≡ terms.now) }
    {
        let mut copies = Vec::with_capacity(alloc, terms.len())?;
        for index in 0..terms.len() {
            copies.push(terms.at(index).copy(alloc)?)?;
        }
        Ok(SetKey::Listed {
            weight,
            terms: copies,
        })
    }

    /// That of some subsets of the events of a term, which weigh so much together.
    pub(crate) fn of_words(
        alloc: Global,
        weight: u64,
        whole: &Term,
        words: &[u64],
    ) -> Result<SetKey, NoMemory>
        ensures { IfOk result (λ key. told key ≡ all_spelled (side_by_side whole.now) words.now) }
    {
        Ok(SetKey::Subsets {
            weight,
            whole: whole.copy(alloc)?,
            words: words.to_vec(alloc)?,
        })
    }
}
