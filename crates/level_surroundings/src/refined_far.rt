//! The far ends of the events of refined and refining charts: for expanded_charts.

ghost use Rattle.std.specs.BTreeMap.{get};
ghost use Rattle.std.specs.Option.{option_copied};
ghost use Rattle.std.specs.Ordering.{is_eq, nat_cmp};
ghost use Rattle.std.specs.Prelude.{◌≡◌, ◌<◌, ◌++◌, ◌∷◌, ℕ, List, Some, cond, length, slice_get, IfOk, OnOk};
ghost use Rattle.msc_base.specs.declared.label.Pair.{Pair};
ghost use Rattle.msc_meaning.specs.FarEnds.{far_end, instance_or_env as far_or_env, written_far};
ghost use Rattle.msc_meaning.specs.Refinements.{Match, all_matches, inner_far, refined_far};
ghost use Rattle.msc_meaning.specs.Views.{node_view};
ghost use Rattle.refined_events.specs.MatchViews.{match_view, matches_view};
ghost use Rattle.level_surroundings.specs.FarEndViews.{HasFar, HasStanding, far_ends_view, far_view};
ghost use Rattle.level_surroundings.specs.Givens.{around_view};
ghost use Rattle.level_surroundings.specs.GateWays.{ways_view};
ghost use Rattle.level_surroundings.specs.RefiningViews.{refinings_view};

use crate::far_ends::{FarAt, FarEnds, FarMap, changed_far};
use crate::refining::Refining;
use crate::ways::{Level, leads_to};
use msc_base::{Name, NoMemory, Pair};
use msc_meaning::EventNode;
use msc_tree::Target;
use refined_events::EventMatch;
use std::alloc::Global;
use std::collections::BTreeMap;

/// The instance as a far end, or the environment.
fn instance_or_env<'a>(name: Option<&'a Name>) -> FarAt<'a>
    ensures { far_view result ≡ far_or_env (option_copied name.entry) }
{
    match name {
        None => FarAt::Env,
        Some(name) => FarAt::Instance(name),
    }
}

/// The far end that an event of a level names.
fn named_far<'a>(level: Level<'_, 'a>, target: &'a Target) -> FarAt<'a>
    ensures { far_view result ≡ written_far level.entry.called.now.ends (ways_view level.entry.given.ways.now) target.now }
{
    match target {
        Target::Nobody => FarAt::Nobody,
        Target::Env(None) => FarAt::Env,
        Target::Env(Some(gate)) => {
            instance_or_env(leads_to(level.given.ways, gate.name().bytes()))
        }
        Target::Instance(name) => FarAt::Instance(name),
        Target::Gate(name, gate) => instance_or_env(
            level
                .called
                .instance_at(name.name().bytes(), gate.name().bytes()),
        ),
    }
}

/// The far end of an event of a level.
fn far_of<'a>(level: Level<'_, 'a>, node: &'a EventNode) -> FarAt<'a>
    ensures { far_view result ≡ far_end level.entry.called.now.ends (around_view level.entry.given) (node_view node.now) }
{
    match changed_far(level.given.far, node.number) {
        Some(far) => far,
        None => named_far(level, &node.event.target),
    }
}

/// The match at that place.
fn match_at<'a>(matches: &[EventMatch<'a>], index: usize) -> EventMatch<'a>
    requires { index < length matches.now }
    ensures { slice_get matches.now index ≡ Some result }
{
    matches[index]
}

/// Puts before those that are there the instance of an event that stands for another.
fn add_standing<'a>(far: &mut FarMap<'a>, matched: EventMatch<'a>) -> Result<(), NoMemory>
    ensures { OnOk result ((others : List Match) → HasStanding far.old others → HasStanding far.new (match_view matched.entry ∷ others)) }
{
    far.insert(matched.event.number, FarAt::Instance(&matched.inner.at))?;
    Ok(())
}

/// Puts them before those that are there.
fn add_all_standing<'a>(far: &mut FarMap<'a>, matches: &[EventMatch<'a>]) -> Result<(), NoMemory>
    ensures { OnOk result ((others : List Match) → HasStanding far.old others → HasStanding far.new (matches_view matches.now ++ others)) }
{
    let mut index = matches.len();
    while index > 0 {
        index -= 1;
        add_standing(far, match_at(matches, index))?;
    }
    Ok(())
}

/// By the numbers of events, the instances of the events that stand for them.
fn standing_of<'a>(alloc: Global, refined: &[Refining<'a>]) -> Result<FarMap<'a>, NoMemory>
    ensures { IfOk result (λ far. HasStanding far (all_matches (refinings_view refined.now))) }
{
    let mut far = BTreeMap::new(alloc);
    let mut index = refined.len();
    while index > 0 {
        index -= 1;
        add_all_standing(&mut far, refined[index].matches.as_slice())?;
    }
    Ok(far)
}

/// Puts the far end of an event in place of what is there, or takes that away.
fn put<'a>(far: &mut FarMap<'a>, number: u32, end: Option<FarAt<'a>>) -> Result<(), NoMemory>
    ensures { OnOk result ((n : ℕ) → get nat_cmp far.new n ≡ cond (is_eq (nat_cmp number n)) end.entry (get nat_cmp far.old n)) }
{
    match end {
        None => {
            far.remove(&number);
            Ok(())
        }
        Some(end) => {
            far.insert(number, end)?;
            Ok(())
        }
    }
}

/// Puts what a pair says before what is there: the far end of each of its events is the instance of the event that stands for the other.
fn put_pair<'a>(far: &mut FarMap<'a>, standing: &FarMap<'a>, pair: Pair) -> Result<(), NoMemory>
    ensures { OnOk result ((ms : List Match) (others : List Pair) → HasStanding standing.now ms → HasFar far.old (refined_far others ms) → HasFar far.new (refined_far (pair ∷ others) ms)) }
{
    put(far, pair.second, standing.get(&pair.first).copied())?;
    put(far, pair.first, standing.get(&pair.second).copied())
}

/// The pair at that place.
fn pair_at(pairs: &[Pair], index: usize) -> Pair
    requires { index < length pairs.now }
    ensures { slice_get pairs.now index ≡ Some result }
{
    pairs[index]
}

/// The far ends of the events of a refined chart, by the pairs of its level.
pub fn refined_ends<'a>(
    alloc: Global,
    pairs: &[Pair],
    refined: &[Refining<'a>],
) -> Result<FarEnds<'a>, NoMemory>
    ensures { IfOk result (λ ends. far_ends_view ends ≡ refined_far pairs.now (all_matches (refinings_view refined.now))) }
{
    let standing = standing_of(alloc, refined)?;
    let mut far = BTreeMap::new(alloc);
    let mut index = pairs.len();
    while index > 0 {
        index -= 1;
        put_pair(&mut far, &standing, pair_at(pairs, index))?;
    }
    Ok(FarEnds::Changed(far))
}

/// Puts before those that are there the far end of the event that one stands for.
fn add_inner<'a>(
    far: &mut FarMap<'a>,
    level: Level<'_, 'a>,
    matched: EventMatch<'a>,
) -> Result<(), NoMemory>
    ensures { OnOk result ((others : List Match) → HasFar far.old (inner_far (far_end level.entry.called.now.ends (around_view level.entry.given)) others) → HasFar far.new (inner_far (far_end level.entry.called.now.ends (around_view level.entry.given)) (match_view matched.entry ∷ others))) }
{
    far.insert(matched.inner.number, far_of(level, matched.event))?;
    Ok(())
}

/// The far ends of the events of a refining chart: those of the events of the refined level that they stand for.
pub fn inner_ends<'a>(
    alloc: Global,
    level: Level<'_, 'a>,
    matches: &[EventMatch<'a>],
) -> Result<FarEnds<'a>, NoMemory>
    ensures { IfOk result (λ ends. far_ends_view ends ≡ inner_far (far_end level.entry.called.now.ends (around_view level.entry.given)) (matches_view matches.now)) }
{
    let mut far = BTreeMap::new(alloc);
    let mut index = matches.len();
    while index > 0 {
        index -= 1;
        add_inner(&mut far, level, match_at(matches, index))?;
    }
    Ok(FarEnds::Changed(far))
}
