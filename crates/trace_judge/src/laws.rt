//! The laws of sets of residual terms. Each is the contract of a function that does nothing.

ghost use Rattle.trace_judge.specs.Laws.{SetsGoOn, SetsTellNextLabels, SetsTellRuns, VerdictsTellRuns};

/// A set that is stepped through labels has exactly what is left of the term after them.
#[tactic(auto, using(crate::proofs::SetLaws::sets_go_on))]
pub fn sets_go_on()
    ensures { SetsGoOn }
{}

/// Whether a set is empty, and whether one of its terms may end, tell exactly what the labels are for the term's runs.
#[tactic(auto, using(crate::proofs::RunLaws::sets_tell_runs))]
pub fn sets_tell_runs()
    ensures { SetsTellRuns }
{}

/// A set goes on with a label exactly where a run of the term begins with the labels so far and that one.
#[tactic(auto, using(crate::proofs::RunLaws::sets_tell_next_labels))]
pub fn sets_tell_next_labels()
    ensures { SetsTellNextLabels }
{}

/// The verdict by sets of residual terms is the only one, and tells the runs of the term.
#[tactic(auto, using(crate::proofs::VerdictLaws::verdicts_tell_runs))]
pub fn verdicts_tell_runs()
    ensures { VerdictsTellRuns }
{}
