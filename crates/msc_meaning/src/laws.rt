//! Laws of unfoldings. Each is the contract of a function that does nothing.

ghost use Rattle.msc_meaning.specs.PlainCharts.{PlainHasOne, PlainConforms, PlainBegins};
ghost use Rattle.msc_meaning.specs.MeaningLaws.{ConformsBegins, WalksAreOpen, GraphsBegin, EndsAreThere, EndsAreOne};

/// A level of events that call no gate has one unfolding; the runs of a chart of such events are its runs.
#[tactic(auto, using(crate::proofs::PlainCharts::plain_has_one))]
pub fn plain_charts_have_one_unfolding()
    ensures one { PlainHasOne }
    ensures runs { PlainConforms }
    ensures beginnings { PlainBegins }
{}

/// A log that conforms begins a run, a finished walk is under way too, and every graph begins the empty log.
#[tactic(auto, using(crate::proofs::MeaningLaws::conforms_begins, crate::proofs::MeaningLaws::walks_are_open, crate::proofs::MeaningLaws::graphs_begin))]
pub fn meanings_agree()
    ensures conforms { ConformsBegins }
    ensures walks { WalksAreOpen }
    ensures empty { GraphsBegin }
{}

/// Where each called gate of a level has an inner event, they have ends; where its inner events agree, these are one list.
#[tactic(auto, using(crate::proofs::MeaningLaws::ends_are_there, crate::proofs::MeaningLaws::ends_are_one))]
pub fn gates_have_one_end()
    ensures there { EndsAreThere }
    ensures one { EndsAreOne }
{}
