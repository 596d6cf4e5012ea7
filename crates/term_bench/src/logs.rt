//! Logs that are made of turns, and what a term's residuals come to on one.
ghost use Rattle.std.specs.Prelude.{◌≡◌, ◌≤◌, ◌+◌, [], length, OnOk};
ghost use Rattle.term_bench.specs.Charts.{labels, IsChart};
ghost use Rattle.trace_judge.specs.Sets.{IsSoundFor};
ghost use Rattle.trace_judge.specs.Tracks.{IfHeld};

use chart_term::Term;
use msc_base::{LabelList, Limits, NoMemory, Verdict};
use std::alloc::Global;
use term_tables::Nets;
use trace_judge::{Store, Track};

/// The budget of a set.
const BUDGET: u64 = Limits::BUDGET_MOST;

/// The most turns of a log, or of each half of it.
const MOST_TURNS: u64 = 1_000_000_000;

/// Which turns a log has, one after another.
#[derive(Clone, Copy, Debug, PartialEq, Eq)]
pub(crate) enum Order {
    /// The first turn each time.
    First,
    /// The first turn each time, and then the second one as often.
    Halves,
    /// The first or the second turn each time, as drawn.
    Drawn,
}

/// A log of turns, of four events each at most.
#[derive(Drop)]
pub(crate) struct Log {
    pub(crate) first: LabelList,
    pub(crate) second: LabelList,
    pub(crate) order: Order,
    /// How many turns it has, or each half of it.
    pub(crate) times: u64,
}

impl Log {
    /// How many turns the log has, or each half of it, as far as that many are judged.
    fn bounded_times(&self) -> u64
        ensures { result ≤ 1000000000 }
    {
        self.times.min(MOST_TURNS)
    }

    /// How many turns it has in all.
    fn turn_count(&self) -> u64
        ensures { result ≤ 2000000000 }
    {
        let times = self.bounded_times();
        match self.order {
            Order::First => times,
            Order::Halves => 2 * times,
            Order::Drawn => times,
        }
    }

    /// The turn at that place, where the first one is drawn or the second.
    fn turn(&self, index: u64, is_first_drawn: bool) -> &LabelList
        requires first { length self.now.first ≤ 4 }
        requires second { length self.now.second ≤ 4 }
        ensures { length result.now ≤ 4 }
    {
        let is_first = match self.order {
            Order::First => true,
            Order::Halves => index < self.bounded_times(),
            Order::Drawn => is_first_drawn,
        };
        if is_first { &self.first } else { &self.second }
    }
}

/// What a log came to.
#[derive(Clone, Copy, Debug, PartialEq, Eq)]
pub(crate) struct Judged {
    pub(crate) verdict: Verdict,
    /// The largest weight of the set.
    pub(crate) largest: u64,
}

/// Draws which turn is the next, by a linear congruence.
#[derive(Clone, Copy)]
struct Draw {
    state: u64,
}

impl Draw {
    /// Whether the next turn is the first one.
    fn is_first(&mut self) -> bool {
        self.state = self.state.wrapping_mul(1_103_515_245).wrapping_add(12_345) % 2_147_483_648;
        (self.state / 65_536) % 2 == 0
    }
}

/// Lets the track take an event of each label.
fn take_turn<S: Store + Drop>(
    track: &mut Track<S>,
    nets: &Nets,
    turn: &LabelList,
) -> Result<(), NoMemory>
    requires serves { IfHeld (λ set. S.serves set nets.now) track.old }
    requires few { length turn.now ≤ 4 }
    requires room { track.old.events ≤ 10000000000 }
    ensures serves { IfHeld (λ set. S.serves set nets.now) track.new }
    ensures count { OnOk result (track.new.events ≤ track.old.events + 4) }
{
    for index in 0..turn.len() {
        let number = nets.label(turn.at(index));
        track.take(nets, number, 1)?;
    }
    Ok(())
}

/// What a track has come to.
fn come_to<S: Store + Drop>(
    alloc: Global,
    nets: &Nets,
    track: &Track<S>,
) -> Result<Judged, NoMemory>
    requires { IfHeld (λ set. S.serves set nets.now) track.now }
{
    let verdict = track.verdict(alloc, nets)?;
    let largest = track.largest();
    Ok(Judged { verdict, largest })
}

/// Lets a track of the term take the log.
#[tactic(auto, using(crate::proofs::Made::table_rules))]
pub(crate) fn follow<S: Store + Drop>(
    alloc: Global,
    nets: &Nets,
    term: Term,
    log: &Log,
) -> Result<Judged, NoMemory>
    requires tables { nets.now.tables ≡ [] }
    requires labels { length nets.now.labels ≡ labels }
    requires chart { IsChart term }
    requires first { length log.now.first ≤ 4 }
    requires second { length log.now.second ≤ 4 }
{
    let mut track = Track::<S>::new(alloc, nets, term, BUDGET)?;
    let mut draw = Draw { state: 7 };
    for index in 0..log.turn_count() {
        take_turn(&mut track, nets, log.turn(index, draw.is_first()))?;
    }
    come_to(alloc, nets, &track)
}

/// Lets a track of the term take events of all these labels.
pub(crate) fn follow_all<S: Store + Drop>(
    alloc: Global,
    nets: &Nets,
    term: Term,
    labels: &LabelList,
) -> Result<Judged, NoMemory>
    requires { IsSoundFor nets.now term }
{
    let mut track = Track::<S>::new(alloc, nets, term, BUDGET)?;
    for index in 0..labels.len() {
        let number = nets.label(labels.at(index));
        track.take(nets, number, 1)?;
    }
    come_to(alloc, nets, &track)
}
