//! What a judge asks of a set of residual terms; `Track` knows no more of it than this.

ghost use Rattle.std.specs.Prelude.{◌≡◌, ◌≤◌, ◌<◌, ◌↔◌, ◌++◌, ◌∷◌, [], List, true, false, IfOk, IfErr, OnOk, IsTrue, Err};
ghost use Rattle.msc_base.specs.declared.limits.TheConstants.Limits.{BUDGET_MOST};
ghost use Rattle.msc_base.specs.declared.label.Label.{Label};
ghost use Rattle.term_tables.specs.NetValues.{NetsValue};
ghost use Rattle.chart_term.specs.Terms.{Tree, weight};
ghost use Rattle.term_laws.specs.Listing.{set_weight};
ghost use Rattle.trace_judge.specs.Logs.{AreResiduals, BeginsTermRun, IsTermRun};
ghost use Rattle.trace_judge.specs.Sets.{SetValue, IsSoundFor, IsServing, IsNextSet, HasEnding};
ghost use Rattle.trace_judge.specs.Steps.{ForLabels, IsNumber, IsStepFault};
ghost use Rattle.trace_judge.specs.declared.store.StepFault.TheVariants.{TooLarge, NoMemory};

use chart_term::Term;
use msc_base::NoMemory;
use std::alloc::Global;
use term_tables::Nets;

/// Why a set doesn't take an event.
#[derive(Clone, Copy, Debug, PartialEq, Eq)]
pub enum StepFault {
    /// The set's weight after the event is above the budget.
    TooLarge,
    /// Want of memory.
    NoMemory,
}

impl From<NoMemory> for StepFault {
    ghost from_gives = { λ _ e. e ≡ NoMemory };

    fn from(_: NoMemory) -> Self {
        StepFault::NoMemory
    }
}

/// A set of residual terms within a budget.
pub trait Store: Sized {
    /// The terms held, the budget, and whether it was passed.
    ghost holds: { Self → SetValue };

    /// Whether the terms held are sound for the tables.
    ghost serves: { Self → NetsValue → Type 0 };

    /// The set of this term alone. It fails exactly where the term weighs more than the budget, or for want of memory.
    fn start(alloc: Global, nets: &Nets, term: Term, budget: u64) -> Result<Self, StepFault>
        requires sound { IsSoundFor nets.now term }
        requires least { 1 ≤ budget }
        requires most { budget ≤ BUDGET_MOST }
        ensures set { IfOk result (λ set. holds set ≡ record { terms = term ∷ []; budget = budget; too_large = false }) }
        ensures serves { IfOk result (λ set. serves set nets.now) }
        ensures within { OnOk result (weight term ≤ budget) }
        ensures above { IfErr result (λ fault. fault ≡ TooLarge → budget < weight term) };

    /// Takes an event whose label has this number in the tables, or none where they lack it: the set becomes that of all terms that
    /// are left of its terms after such an event. It fails with `TooLarge` exactly where that set weighs more than the budget, and
    /// from then on always, with the set as before; for want of memory the set is as it was.
    fn step(&mut self, nets: &Nets, number: Option<u32>) -> Result<(), StepFault>
        requires serves { serves self.old nets.now }
        requires number { IsNumber nets.now number }
        ensures serves { serves self.new nets.now }
        ensures set { OnOk result (ForLabels nets.now number (λ label. IsNextSet nets.now label (holds self.old) (holds self.new))) }
        ensures fault { IfErr result (λ fault. IsStepFault fault nets.now number (holds self.old) (holds self.new)) }
        ensures lasts { (holds self.old).too_large ≡ true → result ≡ Err TooLarge }
        ensures residuals { (x : Tree) (labels : List Label) → AreResiduals nets.now x labels (holds self.old).terms
            → OnOk result (ForLabels nets.now number (λ label. AreResiduals nets.now x (labels ++ label ∷ []) (holds self.new).terms)) };

    /// Whether no term is held. It takes no memory.
    ///
    /// Where the set was started from a sound term and stepped through labels, this is so exactly where no run of the term begins
    /// with them.
    fn is_empty(&self) -> bool
        ensures empty { IsTrue result ↔ ((holds self.now).terms ≡ []) }
        ensures begins { (v : NetsValue) (x : Tree) (labels : List Label) → IsSoundFor v x → AreResiduals v x labels (holds self.now).terms
            → (IsTrue result ↔ (BeginsTermRun v x labels → ⊥)) };

    /// The weight of the terms held. It takes no memory.
    fn weight(&self) -> u64
        ensures { result ≡ set_weight (holds self.now).terms };

    /// Whether a term that is held may end.
    ///
    /// Where the set was started from a sound term and stepped through labels, this is so exactly where they are a finished run of
    /// the term.
    fn may_end(&self, alloc: Global, nets: &Nets) -> Result<bool, NoMemory>
        requires { serves self.now nets.now }
        ensures ending { IfOk result (λ ends. IsTrue ends ↔ HasEnding nets.now (holds self.now).terms) }
        ensures finishes { (x : Tree) (labels : List Label) → IsSoundFor nets.now x → AreResiduals nets.now x labels (holds self.now).terms
            → IfOk result (λ ends. IsTrue ends ↔ IsTermRun nets.now x labels) };

    /// A set that serves tables holds only terms that are sound for them, each once, in the order of terms, within the budget.
    ghost serving: { (set : Self) (v : NetsValue) → serves set v → IsServing v (holds set) };
}
