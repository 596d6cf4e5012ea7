//! What is left of any of some terms after an event with a label, in one set. term_sets steps sets by it.

ghost use Rattle.std.specs.Prelude.{◌≡◌, ◌<◌, [], true, false, Some, IfOk, IfSome, MatchOption};
ghost use Rattle.msc_base.specs.Stored.{most_stored};
ghost use Rattle.chart_term.specs.Properties.{Each};
ghost use Rattle.msc_base.specs.declared.label.Label.{Label as LabelValue};
ghost use Rattle.term_step.specs.AllAfter.{AreAllLeft, AreTooMany};
ghost use Rattle.term_step.specs.Gatherings.{IsGathered, IsTooMuch};
ghost use Rattle.term_permission.specs.Ready.{IsReady, AreReadyTables};
ghost use Rattle.term_step.specs.Searches.{IsTally};
ghost use Rattle.term_laws.specs.Placing.{HaveOnePlace};
ghost use Rattle.term_tables.specs.NetValues.{label_number};

use crate::found::Found;
use crate::gathered::Gathered;
use crate::search::search;
use chart_term::TermList;
use msc_base::NoMemory;
use std::alloc::Global;
use term_tables::Nets;

/// Adds what is left of each of the terms. It says whether all was found: it ends once that weighs more than is wanted.
#[tactic(auto, using(crate::proofs::AllAfter::gathering))]
fn search_each(
    alloc: Global,
    nets: &Nets,
    label: u32,
    terms: &TermList,
    found: &mut Found,
) -> Result<bool, NoMemory>
    requires tables { AreReadyTables nets.now.tables }
    requires terms { Each (IsReady nets.now.tables) terms.now }
    requires placed { Each (HaveOnePlace nets.now.tables) terms.now }
    requires tally { IsTally found.old }
    requires none { found.old.terms.keys ≡ [] }
    ensures all { IfOk result (λ all. all ≡ true → IsGathered nets.now.tables label found.old.most terms.now found.new) }
    ensures more { IfOk result (λ all. all ≡ false → IsTooMuch nets.now.tables label found.old.most terms.now found.new) }
{
    for index in 0..terms.len() {
        if !search(alloc, nets, label, terms.at(index), true, found)? {
            return Ok(false);
        }
    }
    Ok(true)
}

/// What is left of any of the terms after an event with the label that has this number in the tables: each such term once, in their order. There
/// is none where together they weigh more than `most`. Of each term events of one label have the same instances, which lets a search end
/// where a part that comes first holds back what it looks for.
pub fn after_each(
    alloc: Global,
    nets: &Nets,
    terms: &TermList,
    number: u32,
    most: u64,
) -> Result<Option<Gathered>, NoMemory>
    requires tables { AreReadyTables nets.now.tables }
    requires terms { Each (IsReady nets.now.tables) terms.now }
    requires placed { Each (HaveOnePlace nets.now.tables) terms.now }
    requires most { most < most_stored }
    ensures left { IfOk result (λ found. (label : LabelValue) → label_number nets.now.labels label ≡ Some number
        → MatchOption found (AreTooMany nets.now label terms.now most) (AreAllLeft nets.now label terms.now most)) }
    ensures ready { IfOk result (λ found. IfSome found (Each (IsReady nets.now.tables))) }
{
    let mut found = Found::new(alloc, most);
    if !search_each(alloc, nets, number, terms, &mut found)? {
        return Ok(None);
    }
    let Found { terms, weight, .. } = found;
    Ok(Some(Gathered::of(terms, weight)))
}
