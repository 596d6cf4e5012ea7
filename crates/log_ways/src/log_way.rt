//! The way of a whole log: forward over its sets, and back from a term that may end.

ghost use Rattle.std.specs.Prelude.{◌≡◌, ◌≤◌, ◌<◌, ◌+◌, ◌∷◌, [], ℕ, List, IfOk, IfSome, MatchOption, OnOk, Some, true, length, slice_get};
ghost use Rattle.chart_term.specs.Properties.{Each};
ghost use Rattle.chart_term.specs.Tables.{Tables};
ghost use Rattle.chart_term.specs.Terms.{Tree};
ghost use Rattle.line_events.specs.declared.event.LineEvent.{LineEvent};
ghost use Rattle.log_ways.specs.LogWays.{AreLabelled, DoesConform, IsLogWay};
ghost use Rattle.log_ways.specs.Stepping.{AreKnown, ComesFrom, IsBack, IsEnding, LeaveOnly};
ghost use Rattle.log_ways.specs.Trails.{IsTrail};
ghost use Rattle.msc_base.specs.declared.limits.TheConstants.Limits.{BUDGET_MOST};
ghost use Rattle.term_laws.specs.Placing.{HaveOnePlace};
ghost use Rattle.term_permission.specs.Ready.{AreReadyTables, IsReady};
ghost use Rattle.term_sets.specs.Memories.{set_at};
ghost use Rattle.trace_judge.specs.Logs.{AreNumbers, labels_of};
ghost use Rattle.trace_judge.specs.Sets.{IsSoundFor};

use crate::history::{History, history_of};
use crate::steps::{Known, StepBack, Steps};
use crate::terms::{Found, first_ending, is_alone};
use chart_term::Term;
use msc_base::NoMemory;
use std::alloc::Global;
use std::marker::Model;
use term_sets::SetMemory;
use term_tables::Nets;

/// The way of a log: for each event the term before it, the way down to it, and the term that it left. Steps that are alike are held
/// once.
///
/// A contract sees the steps in the order of the log.
#[derive(Drop)]
pub struct LogWay {
    known: Vec<Known>,
    /// For each event the place of its step.
    places: Vec<u32>,
}

impl Model for LogWay {
    ghost use Rattle.std.specs.Prelude.{List};
    ghost use Rattle.log_ways.specs.Stepping.{AreThere, steps_at};
    ghost use Rattle.log_ways.specs.declared.steps.StepBack.{StepBack as StepValue};
    ghost use Rattle.std.specs.Coded.{codes};
    ghost use Rattle.chart_term.specs.Codes.{coded_tree};

    ghost Value = { List StepValue };

    ghost coded = { Prim.hlevel (codes, coded_tree) };

    ghost view = { λ w. steps_at w.known.items w.places.items };

    ghost invariant = { λ w. AreThere w.known.items w.places.items };
}

impl LogWay {
    /// How many events the log has.
    pub fn len(&self) -> usize
        ensures { result ≡ length self.now }
    {
        self.places.len()
    }

    /// The step of the event of that index, from 0.
    pub fn step(&self, index: usize) -> &StepBack
        requires { index < length self.now }
        ensures { slice_get self.now index ≡ Some result.now }
    {
        &self.known[self.places[index] as usize].step
    }
}

/// Steps from some term back to another.
#[derive(Drop)]
pub(crate) struct Back {
    /// The steps, each once.
    pub(crate) steps: Steps,
    /// Their places, from the last event to the first.
    pub(crate) places: Vec<u32>,
    /// The term to which they lead back.
    pub(crate) goal: Found,
}

impl Back {
    /// No steps back from a term that may end.
    fn from(alloc: Global, found: Found) -> Back
        ensures { (w : Tables) (sets : List (List Tree)) (terms : List Tree) → IsEnding w terms found → IsBack w sets terms [] result }
    {
        Back {
            steps: Steps::new(alloc),
            places: Vec::new(alloc),
            goal: found,
        }
    }

    /// One step more, to a term of the set of that number, by an event whose label has that number.
    fn go_back(
        &mut self,
        alloc: Global,
        nets: &Nets,
        memory: &SetMemory,
        from: u32,
        label: u32,
    ) -> Result<(), NoMemory>
        requires tables { AreReadyTables nets.now.tables }
        requires from { from < length memory.now.sets }
        requires terms { Each (IsReady nets.now.tables) (set_at memory.now.sets from) }
        requires placed { Each (HaveOnePlace nets.now.tables) (set_at memory.now.sets from) }
        requires known { AreKnown nets.now.tables memory.now.sets self.old.steps.known.items }
        requires comes { ComesFrom nets.now.tables label (set_at memory.now.sets from) self.old.goal.term }
        requires alone { self.old.goal.alone ≡ true → LeaveOnly nets.now.tables label (set_at memory.now.sets from) self.old.goal.term }
        ensures { (terms : List Tree) (numbers : List ℕ) → IsBack nets.now.tables memory.now.sets terms numbers self.old
            → OnOk result (IsBack nets.now.tables memory.now.sets (set_at memory.now.sets from) (label ∷ numbers) self.new) }
    {
        let place = self
            .steps
            .step_to(alloc, nets, memory, from, label, &self.goal)?;
        self.places.push(place)?;
        let known = &self.steps.known[place as usize];
        let term = known.step.before.copy(alloc)?;
        let index = known.index;
        let alone = is_alone(memory.set(from), &term);
        self.goal = Found { term, index, alone };
        Ok(())
    }
}

/// The way of the log through the sets of its history, back from the term of the last that was found.
#[tactic(auto, using(crate::proofs::Trailing::trailing))]
fn way_back(
    alloc: Global,
    nets: &Nets,
    history: &History,
    term: &Term,
    numbers: &[u32],
    found: Found,
) -> Result<LogWay, NoMemory>
    requires tables { AreReadyTables nets.now.tables }
    requires sound { (s : ℕ) → Each (IsSoundFor nets.now) (set_at history.now.memory.sets s) }
    requires labelled { AreLabelled nets.now.labels numbers.now }
    requires trail { IsTrail nets.now history.now.memory.sets term.now numbers.now history.now.sets.items }
    requires found { (last : ℕ) → slice_get history.now.sets.items (length numbers.now) ≡ Some last → IsEnding nets.now.tables (set_at history.now.memory.sets last) found }
    ensures { IfOk result (IsLogWay nets.now.tables term.now numbers.now) }
{
    let _ = term;
    let mut back = Back::from(alloc, found);
    let mut at = numbers.len();
    while at > 0 {
        at -= 1;
        back.go_back(alloc, nets, &history.memory, history.sets[at], numbers[at])?;
    }
    let Back { steps, places, .. } = back;
    let Steps { known, .. } = steps;
    let mut places = places;
    places.reverse();
    Ok(LogWay { known, places })
}

/// The way of a log whose labels have these numbers in the tables, through the term; none where the log doesn't conform to it within the
/// budget. It ends in the first term that may end, and comes to each term from the first of those that are left before the event of which
/// the event leaves it.
pub fn way_of_log(
    alloc: Global,
    nets: &Nets,
    term: &Term,
    numbers: &[u32],
    budget: u64,
) -> Result<Option<LogWay>, NoMemory>
    requires sound { IsSoundFor nets.now term.now }
    requires labelled { AreLabelled nets.now.labels numbers.now }
    requires most { budget ≤ BUDGET_MOST }
    ensures conforms { (events : List LineEvent) → AreNumbers nets.now.labels (labels_of events) numbers.now
        → IfOk result (λ found. MatchOption found (DoesConform nets.now term.now budget events → ⊥) (λ way. DoesConform nets.now term.now budget events)) }
    ensures way { IfOk result (λ found. IfSome found (IsLogWay nets.now.tables term.now numbers.now)) }
{
    if term.weight() > budget {
        return Ok(None);
    }
    let Some(history) = history_of(alloc, nets, term, numbers, budget)? else {
        return Ok(None);
    };
    let last = history.memory.set(history.sets[numbers.len()]);
    let Some(found) = first_ending(alloc, nets, last)? else {
        return Ok(None);
    };
    Ok(Some(way_back(alloc, nets, &history, term, numbers, found)?))
}
