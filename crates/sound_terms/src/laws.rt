//! The laws of sound terms. Each is the contract of a function that does nothing.

ghost use Rattle.sound_terms.specs.DrawnOrders.{DrawnAreOrdered};
ghost use Rattle.sound_terms.specs.FormLaws.{FitsIsKnown, TiesByForm, WalksStayWithin};
ghost use Rattle.sound_terms.specs.NetRanges.{RangesLack};
ghost use Rattle.sound_terms.specs.NumberLaws.{NumbersAreKept};
ghost use Rattle.sound_terms.specs.OrderLaws.{OrdersFound};
ghost use Rattle.sound_terms.specs.RisingRows.{RisingRowsAreSound};
ghost use Rattle.sound_terms.specs.SameRuns.{SamePatternsRun};
ghost use Rattle.sound_terms.specs.TableLaws.{ConstructorsWeigh, TablesStaySound};

use term_laws::laws::{constructors_keep_soundness, normal_forms_keep_patterns};

/// Patterns that are the same have the same runs.
#[tactic(auto, using(crate::proofs::SameRuns::same_patterns_run))]
pub fn same_patterns_run()
    ensures { SamePatternsRun }
{}

/// A pattern has a linear order where its pairs rise in rank, or never fall from block to block, each of which has one.
#[tactic(auto, using(crate::proofs::Orders::orders_found))]
pub fn orders_are_found()
    ensures { OrdersFound }
{}

/// The patterns of a term that a region draws have linear orders, where an order places the region's vertices.
#[tactic(auto, using(crate::proofs::DrawnTerms::drawn_are_ordered))]
pub fn drawn_terms_are_ordered()
    ensures { DrawnAreOrdered }
{}

/// A row of events numbered one after another, below a tie of pairs that rise, is sound in full.
#[tactic(auto, using(crate::proofs::RisingRows::rising_rows_are_sound))]
pub fn rising_rows_are_sound()
    ensures { RisingRowsAreSound }
{
    normal_forms_keep_patterns();
    constructors_keep_soundness();
}

/// Sound tables and terms stay sound where the tables get more labels, and one more net.
#[tactic(auto, using(crate::proofs::SoundTables::tables_stay_sound))]
pub fn tables_stay_sound()
    ensures { TablesStaySound }
{}

/// No constructor makes a term that weighs much more than its parts.
#[tactic(auto, using(crate::proofs::Weighing::constructors_weigh))]
pub fn constructors_weigh()
    ensures { ConstructorsWeigh }
{}

/// Where a term has no number twice, a tie over it has each of its numbers once in any pattern.
#[tactic(auto, using(crate::proofs::OnceByForm::ties_by_form))]
pub fn ties_are_once_by_form()
    ensures { TiesByForm }
{}

/// The test of a term's numbers says yes exactly where all are in the tables.
#[tactic(auto, using(crate::proofs::FitKnown::fits_is_known))]
pub fn fitting_is_known()
    ensures { FitsIsKnown }
{}

/// A walk passes nodes of its graph alone.
#[tactic(auto, using(crate::proofs::WalksWithin::walks_stay_within))]
pub fn walks_stay_within()
    ensures { WalksStayWithin }
{}

/// The normalising constructors keep the numbers of their parts, or lose some.
#[tactic(auto, using(crate::proofs::NumbersKept::numbers_are_kept))]
pub fn numbers_are_kept()
    ensures { NumbersAreKept }
{}

/// What lies beyond the interval of a term's or a net's numbers is in no event of it.
#[tactic(auto, using(crate::proofs::RangeFacts::ranges_lack))]
pub fn ranges_lack()
    ensures { RangesLack }
{}
