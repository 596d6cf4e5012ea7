//! The way down a term to an event with a label that leaves a given term of it, or anything.

ghost use Rattle.std.specs.Prelude.{◌≡◌, ◌∷◌, ℕ, List, Some, IfNone, IfOk, IfSome, IsTrue, MatchOption, OnOk};
ghost use Rattle.chart_term.specs.Terms.{Tree};
ghost use Rattle.term_laws.specs.Permission.{permits_of};
ghost use Rattle.term_laws.specs.Placing.{AreEventsPlaced, HaveOnePlace};
ghost use Rattle.term_permission.specs.Ready.{AreReadyTables, IsReady};
ghost use Rattle.term_step.specs.Kept.{AreLinked};
ghost use Rattle.term_step.specs.Searches.{AreReadyFrames, IsTaken};
ghost use Rattle.term_step.specs.Skips.{IsMetAt};
ghost use Rattle.term_ways.specs.Searches.{Fits, FitsNot, IsWanted, IsWayWanted, LeavesNoWanted};
ghost use Rattle.term_ways.specs.Ways.{IsWay, LeavesNever, LeavesNothing};

use chart_term::Term;
use msc_base::NoMemory;
use std::alloc::Global;
use term_step::{Frame, Taken, behind, next_child, rebuilt, taken_of};
use term_tables::Nets;

/// The way down a term to an event in it.
#[derive(Drop)]
pub struct Way {
    /// The event.
    pub taken: Taken,
    /// The terms above it, from the whole one on, each with the index of the child where the way goes on. The last child is the event.
    pub frames: Vec<Frame>,
}

/// The way to an event with the label of that number by which `goal` is left of the term, if there is one: the first that a search from
/// the first child on meets. Of the term events of one label have the same instances.
pub fn way_to(
    alloc: Global,
    nets: &Nets,
    term: &Term,
    number: u32,
    goal: &Term,
) -> Result<Option<Way>, NoMemory>
    requires tables { AreReadyTables nets.now.tables }
    requires term { IsReady nets.now.tables term.now }
    requires placed { HaveOnePlace nets.now.tables term.now }
    ensures { IfOk result (λ found. MatchOption found (LeavesNever nets.now.tables number term.now goal.now)
        (IsWay nets.now.tables number term.now goal.now)) }
{
    let wanted = Some(goal.copy(alloc)?);
    let found = find_way(alloc, nets, term, number, &wanted)?;
    Ok(found)
}

/// The way to the first event with the label of that number that leaves anything of the term, if there is one. Of the term events of one
/// label have the same instances.
pub fn first_way(
    alloc: Global,
    nets: &Nets,
    term: &Term,
    number: u32,
) -> Result<Option<Way>, NoMemory>
    requires tables { AreReadyTables nets.now.tables }
    requires term { IsReady nets.now.tables term.now }
    requires placed { HaveOnePlace nets.now.tables term.now }
    ensures { IfOk result (λ found. MatchOption found (LeavesNothing nets.now.tables number term.now)
        (λ way. (left : Tree) × IsWay nets.now.tables number term.now left way)) }
{
    let found = find_way(alloc, nets, term, number, &None)?;
    Ok(found)
}

/// The way to the first event with the label of that number that leaves the goal of the term; without a goal, that leaves anything.
fn find_way(
    alloc: Global,
    nets: &Nets,
    term: &Term,
    number: u32,
    goal: &Option<Term>,
) -> Result<Option<Way>, NoMemory>
    requires tables { AreReadyTables nets.now.tables }
    requires term { IsReady nets.now.tables term.now }
    requires placed { HaveOnePlace nets.now.tables term.now }
    ensures { IfOk result (λ found. MatchOption found (LeavesNoWanted nets.now.tables number term.now goal.now)
        (IsWayWanted nets.now.tables number term.now goal.now)) }
{
    let mut path = Vec::new(alloc);
    let mut here = term.copy(alloc)?;
    let mut next = 0;
    let mut met = None;
    'search: loop {
        match next_child(alloc, nets, number, &here, next, &met, true)? {
            Some(step) => {
                path.push(Frame {
                    parent: here,
                    index: step.index,
                })?;
                here = step.inner;
                next = 0;
            }
            None => {
                let found = fitting(alloc, nets, number, &here, &path, &mut met, goal)?;
                if let Some(taken) = found {
                    return Ok(Some(Way {
                        taken,
                        frames: path,
                    }));
                }
                match path.pop() {
                    None => return Ok(None),
                    Some(frame) => {
                        let Frame { parent, index } = frame;
                        next = behind(nets, &parent, index);
                        here = parent;
                    }
                }
            }
        }
    }
}

/// The event that the term is, to which the path leads, where it has the label and leaves what is wanted of the whole. Where it leaves
/// nothing or something else, it is the last event that was met.
fn fitting(
    alloc: Global,
    nets: &Nets,
    number: u32,
    term: &Term,
    path: &Vec<Frame>,
    met: &mut Option<Taken>,
    goal: &Option<Term>,
) -> Result<Option<Taken>, NoMemory>
    requires tables { AreReadyTables nets.now.tables }
    requires path { AreReadyFrames nets.now.tables path.now.items }
    requires linked { AreLinked (permits_of nets.now.tables) path.now.items term.now }
    requires met { IfSome met.old IsTaken }
    ensures met { OnOk result (IfSome met.new IsTaken) }
    ensures placed { OnOk result ((places : ℕ → List ℕ) → AreEventsPlaced places term.now → IfSome met.old (IsMetAt places number) → IfSome met.new (IsMetAt places number)) }
    ensures fits { IfOk result (λ found. IfSome found (Fits nets.now.tables number path.now.items term.now goal.now)) }
    ensures none { IfOk result (λ found. IfNone found (FitsNot nets.now.tables number path.now.items term.now goal.now)) }
{
    let Some(taken) = taken_of(alloc, term, number)? else {
        return Ok(None);
    };
    let left = rebuilt(alloc, nets, &taken, path)?;
    if is_wanted(&left, goal) {
        return Ok(Some(taken));
    }
    *met = Some(taken);
    Ok(None)
}

/// Whether something is left that is wanted.
fn is_wanted(left: &Option<Term>, goal: &Option<Term>) -> bool
    ensures some { IsTrue result → (z : Tree) × (left.now ≡ Some z) × IsWanted goal.now z }
    ensures each { (z : Tree) → left.now ≡ Some z → IsWanted goal.now z → IsTrue result }
{
    match (left, goal) {
        (Some(left), Some(goal)) => left.same(goal),
        (Some(_), None) => true,
        (None, _) => false,
    }
}
