//! The set of residual terms within a budget: the plain store, which remembers nothing.

ghost use Rattle.std.specs.Prelude.{◌≡◌, true};

use crate::TermSet;
use crate::successors::{gather, one_may_end};
use chart_term::Term;
use msc_base::NoMemory;
use std::alloc::Global;
use std::marker::Model;
use term_tables::Nets;
use trace_judge::{StepFault, Store};

/// A set of residual terms.
#[derive(Drop)]
pub struct Residuals {
    alloc: Global,
    set: TermSet,
    budget: u64,
    /// Whether the budget was passed.
    too_large: bool,
}

impl Model for Residuals {
    ghost use Rattle.std.specs.Coded.{codes};
    ghost use Rattle.chart_term.specs.Codes.{coded_tree};
    ghost use Rattle.trace_judge.specs.Sets.{SetValue};

    ghost Value = { SetValue };

    ghost coded = { Prim.hlevel (codes, coded_tree) };

    ghost view = { λ r. record { terms = r.set; budget = r.budget; too_large = r.too_large } };
}

impl Residuals {
    /// The terms that are held become these.
    fn set_terms(&mut self, found: TermSet)
        ensures { self.new ≡ record self.old { terms = found } }
    {
        self.set = found;
    }

    /// From now on the set is too large.
    fn close(&mut self)
        ensures { self.new ≡ record self.old { too_large = true } }
    {
        self.too_large = true;
    }
}

impl Store for Residuals {
    ghost use Rattle.trace_judge.specs.Sets.{IsServing};

    ghost holds = { λ s. s };

    ghost serves = { λ s v. IsServing v s };

    fn start(alloc: Global, nets: &Nets, term: Term, budget: u64) -> Result<Self, StepFault> {
        let _ = nets;
        if term.weight() > budget {
            return Err(StepFault::TooLarge);
        }
        let set = TermSet::single(alloc, term)?;
        Ok(Residuals {
            alloc,
            set,
            budget,
            too_large: false,
        })
    }

    fn step(&mut self, nets: &Nets, number: Option<u32>) -> Result<(), StepFault> {
        if self.too_large {
            return Err(StepFault::TooLarge);
        }
        match gather(self.alloc, nets, &self.set, number, self.budget)? {
            Some(found) => {
                self.set_terms(found);
                Ok(())
            }
            None => {
                self.close();
                Err(StepFault::TooLarge)
            }
        }
    }

    fn is_empty(&self) -> bool {
        self.set.is_empty()
    }

    fn weight(&self) -> u64 {
        self.set.weight()
    }

    fn may_end(&self, alloc: Global, nets: &Nets) -> Result<bool, NoMemory> {
        one_may_end(alloc, nets, &self.set)
    }

    ghost serving = { λ s v h. h };
}
