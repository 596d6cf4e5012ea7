//! A set of terms with its weight, and what an event leaves of it: for the stores.

ghost use Rattle.std.specs.Prelude.{◌≡◌, ◌<◌, ◌↔◌, ◌∷◌, [], IfOk, IfSome, IsTrue, MatchOption, Some, true};
ghost use Rattle.msc_base.specs.Stored.{most_stored};
ghost use Rattle.chart_term.specs.Properties.{Each};
ghost use Rattle.chart_term.specs.Terms.{weight};
ghost use Rattle.msc_base.specs.declared.label.Label.{Label as LabelValue};
ghost use Rattle.term_step.specs.AllAfter.{AreAllLeft, AreTooMany};
ghost use Rattle.term_successors.specs.Successors.{AreRising};
ghost use Rattle.term_laws.specs.Listing.{set_weight};
ghost use Rattle.term_laws.specs.Placing.{HaveOnePlace};
ghost use Rattle.term_permission.specs.Ready.{IsReady, AreReadyTables};
ghost use Rattle.term_sets.specs.Keys.{told};
ghost use Rattle.trace_judge.specs.Sets.{HasEnding};
ghost use Rattle.term_tables.specs.NetValues.{label_number};

use crate::set_key::SetKey;
use crate::subsets::Subsets;
use chart_term::{Term, TermList};
use msc_base::NoMemory;
use std::alloc::Global;
use std::marker::Model;
use term_permission::may_end;
use term_step::{Gathered, after_each};
use term_tables::Nets;

/// How a set holds its terms.
#[derive(Drop)]
pub(crate) enum Form {
    /// As a list, in the order of terms.
    Listed(TermList),
    /// As subsets of the events of one term.
    Subsets(Subsets),
}

/// Terms, each once, with their weight.
///
/// A contract sees them as a list, in the order of terms.
#[derive(Drop)]
pub struct TermSet {
    form: Form,
    weight: u64,
}

impl Model for TermSet {
    ghost use Rattle.std.specs.Prelude.{List, ◌≡◌};
    ghost use Rattle.std.specs.Coded.{coded_list};
    ghost use Rattle.chart_term.specs.Codes.{coded_tree};
    ghost use Rattle.chart_term.specs.Terms.{Tree};
    ghost use Rattle.term_successors.specs.Successors.{AreRising};
    ghost use Rattle.term_laws.specs.Listing.{set_weight};
    ghost use Rattle.term_sets.specs.Forms.{held};

    ghost Value = { List Tree };

    ghost coded = { coded_list coded_tree };

    ghost view = { λ s. held s.form };

    ghost invariant = { λ s. (s.weight ≡ set_weight (held s.form)) × AreRising (held s.form) };
}

/// Whether both lists have the same terms in the same order.
fn are_same(terms: &TermList, others: &TermList) -> bool
    ensures { IsTrue result → terms.now ≡ others.now }
{
    terms.as_slice() == others.as_slice()
}

/// Whether one of the terms may end.
#[tactic(auto, using(crate::proofs::Ending::ending))]
fn one_may_end(alloc: Global, nets: &Nets, terms: &TermList) -> Result<bool, NoMemory>
    requires tables { AreReadyTables nets.now.tables }
    requires terms { Each (IsReady nets.now.tables) terms.now }
    ensures { IfOk result (λ ends. IsTrue ends ↔ HasEnding nets.now terms.now) }
{
    for index in 0..terms.len() {
        if may_end(alloc, nets, terms.at(index))? {
            return Ok(true);
        }
    }
    Ok(false)
}

impl TermSet {
    /// The set of no terms. It takes no memory.
    pub fn new(alloc: Global) -> TermSet
        ensures { result ≡ [] }
    {
        TermSet {
            form: Form::Listed(TermList::new(alloc)),
            weight: 0,
        }
    }

    /// The set of this term alone.
    pub fn single(alloc: Global, term: Term) -> Result<TermSet, NoMemory>
        requires { weight term < most_stored }
        ensures { IfOk result (λ set. set ≡ term ∷ []) }
    {
        let weight = term.weight();
        let mut terms = TermList::new(alloc);
        terms.push(term)?;
        let form = Form::Listed(terms);
        Ok(TermSet { form, weight })
    }

    /// The set of the terms that were gathered.
    fn gathered(alloc: Global, found: Gathered) -> Result<TermSet, NoMemory>
        ensures set { IfOk result (λ set. set ≡ found) }
        ensures rising { IfOk result AreRising }
    {
        let weight = found.weight();
        let form = Form::Listed(found.into_list(alloc)?);
        Ok(TermSet { form, weight })
    }

    /// The weight of all of them.
    pub fn weight(&self) -> u64
        ensures { result ≡ set_weight self.now }
    {
        self.weight
    }

    /// Whether there is no term.
    pub fn is_empty(&self) -> bool
        ensures { IsTrue result ↔ (self.now ≡ []) }
    {
        match &self.form {
            Form::Listed(terms) => terms.len() == 0,
            Form::Subsets(terms) => terms.is_empty(),
        }
    }

    /// Whether one of the terms may end.
    pub fn may_end(&self, alloc: Global, nets: &Nets) -> Result<bool, NoMemory>
        requires tables { AreReadyTables nets.now.tables }
        requires terms { Each (IsReady nets.now.tables) self.now }
        ensures { IfOk result (λ ends. IsTrue ends ↔ HasEnding nets.now self.now) }
    {
        match &self.form {
            Form::Listed(terms) => one_may_end(alloc, nets, terms),
            Form::Subsets(terms) => Ok(terms.may_end()),
        }
    }

    /// What is left of any of the terms after an event with the label that has this number in the tables. There is none where together
    /// they weigh more than `most`. Of each term events of one label have the same instances.
    pub fn after(
        &self,
        alloc: Global,
        nets: &Nets,
        number: u32,
        most: u64,
    ) -> Result<Option<TermSet>, NoMemory>
        requires tables { AreReadyTables nets.now.tables }
        requires terms { Each (IsReady nets.now.tables) self.now }
        requires placed { Each (HaveOnePlace nets.now.tables) self.now }
        requires most { most < most_stored }
        ensures found { IfOk result (λ found. (label : LabelValue) → label_number nets.now.labels label ≡ Some number
            → MatchOption found (AreTooMany nets.now label self.now most) (AreAllLeft nets.now label self.now most)) }
        ensures rising { IfOk result (λ found. IfSome found AreRising) }
    {
        match &self.form {
            Form::Listed(terms) => after_list(alloc, nets, terms, number, most),
            Form::Subsets(terms) => after_subsets(alloc, nets, terms, number, most),
        }
    }

    /// Whether both are the same set. Where they are held in different ways, it may say that they aren't.
    pub fn is_same(&self, other: &TermSet) -> bool
        ensures { IsTrue result → self.now ≡ other.now }
    {
        match (&self.form, &other.form) {
            (Form::Listed(terms), Form::Listed(others)) => are_same(terms, others),
            (Form::Subsets(terms), Form::Subsets(others)) => terms.is_same(others),
            _ => false,
        }
    }

    /// What it is found by, which tells its terms.
    pub fn key(&self, alloc: Global) -> Result<SetKey, NoMemory>
        ensures { IfOk result (λ key. told key ≡ self.now) }
    {
        match &self.form {
            Form::Listed(terms) => SetKey::of_list(alloc, self.weight, terms),
            Form::Subsets(terms) => terms.key(alloc, self.weight),
        }
    }
}

/// What is left of any of the terms after an event with the label, which has this number, unless it weighs more than `most`.
fn after_subsets(
    alloc: Global,
    nets: &Nets,
    terms: &Subsets,
    number: u32,
    most: u64,
) -> Result<Option<TermSet>, NoMemory>
    requires most { most < most_stored }
    ensures found { IfOk result (λ found. (label : LabelValue) → label_number nets.now.labels label ≡ Some number
        → MatchOption found (AreTooMany nets.now label terms.now most) (AreAllLeft nets.now label terms.now most)) }
    ensures rising { IfOk result (λ found. IfSome found AreRising) }
{
    let _ = nets;
    match terms.after(alloc, number, most)? {
        Some(left) => {
            let weight = left.weight();
            let form = Form::Subsets(left);
            Ok(Some(TermSet { form, weight }))
        }
        None => Ok(None),
    }
}

/// The same of listed terms. One term alone that is events side by side goes on as the one subset of them.
fn after_list(
    alloc: Global,
    nets: &Nets,
    terms: &TermList,
    number: u32,
    most: u64,
) -> Result<Option<TermSet>, NoMemory>
    requires tables { AreReadyTables nets.now.tables }
    requires terms { Each (IsReady nets.now.tables) terms.now }
    requires placed { Each (HaveOnePlace nets.now.tables) terms.now }
    requires most { most < most_stored }
    ensures found { IfOk result (λ found. (label : LabelValue) → label_number nets.now.labels label ≡ Some number
        → MatchOption found (AreTooMany nets.now label terms.now most) (AreAllLeft nets.now label terms.now most)) }
    ensures rising { IfOk result (λ found. IfSome found AreRising) }
{
    if terms.len() == 1 {
        if let Some(subset) = Subsets::of(alloc, terms.at(0))? {
            return after_subsets(alloc, nets, &subset, number, most);
        }
    }
    match after_each(alloc, nets, terms, number, most)? {
        Some(found) => Ok(Some(TermSet::gathered(alloc, found)?)),
        None => Ok(None),
    }
}
