//! The search down to each event with a label, as a loop over its path: for `all_after` and `any_after`.

ghost use Rattle.std.specs.Prelude.{◌≡◌, ◌≤◌, ◌<◌, ◌+◌, [], ℕ, List, true, IfOk, OnOk, IfSome, IfNone};
ghost use Rattle.chart_term.specs.Terms.{Event as EventTree};
ghost use Rattle.chart_term.specs.Views.{event_of};
ghost use Rattle.term_laws.specs.Listing.{set_weight};
ghost use Rattle.term_laws.specs.Permission.{permits_of};
ghost use Rattle.term_laws.specs.Placing.{AreEventsPlaced, HaveOnePlace};
ghost use Rattle.term_step.specs.Kept.{AreLinked};
ghost use Rattle.term_permission.specs.Ready.{IsReady, AreReadyTables};
ghost use Rattle.term_step.specs.Searches.{AreReadyFrames, Gathers, GathersOwn, IsOther, IsTaken, IsTally};
ghost use Rattle.term_step.specs.Skips.{IsMetAt};

use crate::ascent::{Frame, Taken, rebuilt};
use crate::descent::{behind, next_child};
use crate::found::Found;
use bit_sets::Block;
use chart_term::{Event, Look, Term};
use msc_base::NoMemory;
use std::alloc::Global;
use term_permission::widened;
use term_tables::Nets;

/// Adds what is left of the term after each event with the label. It says whether all were found: it ends once they weigh more than
/// is wanted. `one_place` says that events of one label have the same instances, so that less is looked at.
#[tactic(auto, using(crate::proofs::Searching::searching))]
pub(crate) fn search(
    alloc: Global,
    nets: &Nets,
    label: u32,
    term: &Term,
    one_place: bool,
    found: &mut Found,
) -> Result<bool, NoMemory>
    requires tables { AreReadyTables nets.now.tables }
    requires term { IsReady nets.now.tables term.now }
    requires placed { one_place ≡ true → HaveOnePlace nets.now.tables term.now }
    requires tally { IsTally found.old }
    requires within { set_weight found.old.terms.keys ≤ found.old.most }
    ensures { IfOk result (λ all. Gathers nets.now.tables label [] term.now found.old found.new all) }
{
    let mut path = Vec::new(alloc);
    let mut here = term.copy(alloc)?;
    let mut next = 0;
    let mut met = None;
    'search: loop {
        match next_child(alloc, nets, label, &here, next, &met, one_place)? {
            Some(step) => {
                path.push(Frame {
                    parent: here,
                    index: step.index,
                })?;
                here = step.inner;
                next = 0;
            }
            None => {
                let all = add_event(alloc, nets, label, &here, &path, &mut met, found)?;
                if !all {
                    return Ok(false);
                }
                match path.pop() {
                    None => return Ok(true),
                    Some(frame) => {
                        let Frame { parent, index } = frame;
                        next = behind(nets, &parent, index);
                        here = parent;
                    }
                }
            }
        }
    }
}

/// Adds what is left of the whole term after the event that this part of it is, to which the path leads, where it has the label;
/// then it is the last event that was met.
#[tactic(auto, using(crate::proofs::Searching::searching))]
fn add_event(
    alloc: Global,
    nets: &Nets,
    label: u32,
    term: &Term,
    path: &Vec<Frame>,
    met: &mut Option<Taken>,
    found: &mut Found,
) -> Result<bool, NoMemory>
    requires tables { AreReadyTables nets.now.tables }
    requires path { AreReadyFrames nets.now.tables path.now.items }
    requires linked { AreLinked (permits_of nets.now.tables) path.now.items term.now }
    requires met { IfSome met.old IsTaken }
    requires tally { IsTally found.old }
    requires within { set_weight found.old.terms.keys ≤ found.old.most }
    ensures met { OnOk result (IfSome met.new IsTaken) }
    ensures placed { OnOk result ((places : ℕ → List ℕ) → AreEventsPlaced places term.now → IfSome met.old (IsMetAt places label) → IfSome met.new (IsMetAt places label)) }
    ensures found { IfOk result (λ all. GathersOwn nets.now.tables label path.now.items term.now found.old found.new all) }
{
    let Some(taken) = taken_of(alloc, term, label)? else {
        return Ok(true);
    };
    let left = rebuilt(alloc, nets, &taken, path)?;
    *met = Some(taken);
    match left {
        Some(left) => {
            let all = found.add(left)?;
            Ok(all)
        }
        None => Ok(true),
    }
}

/// The event that the term is, if it is one with the label.
#[tactic(auto, using(crate::proofs::Searching::searching))]
pub fn taken_of(alloc: Global, term: &Term, wanted: u32) -> Result<Option<Taken>, NoMemory>
    ensures event { IfOk result (λ found. IfSome found (λ taken. (term.now ≡ EventTree (event_of taken.event)) × IsTaken taken × (taken.event.label ≡ wanted))) }
    ensures none { IfOk result (λ found. IfNone found (IsOther wanted term.now)) }
{
    match term.look() {
        Look::Event {
            number,
            at,
            also,
            label,
        } => {
            if label != wanted {
                return Ok(None);
            }
            let event = Event {
                number,
                at,
                also,
                label,
            };
            let at = widened(alloc, &Block::empty(alloc), term.instances())?;
            Ok(Some(Taken { event, at }))
        }
        _ => Ok(None),
    }
}
