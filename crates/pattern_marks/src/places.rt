//! Whether the events of a pattern stand at the places of a log, each once, with their labels.

ghost use Rattle.std.specs.Prelude.{◌≡◌, ◌≤◌, ◌<◌, ◌↔◌, ℕ, List, [], false, length, replicate, IfOk, IsTrue};
ghost use Rattle.chart_term.specs.Terms.{Tree};
ghost use Rattle.pattern_marks.specs.Marks.{signs_of};
ghost use Rattle.pattern_marks.specs.Meetings.{AreCounted, HasMet, HaveMet, IsFree, Stands, Takes};
ghost use Rattle.pattern_marks.specs.Tests.{ArePlaced, events_in};

use crate::mark::Mark;
use msc_base::NoMemory;
use std::alloc::Global;

/// The places that have been met.
#[derive(Drop)]
pub(crate) struct Places {
    /// For each place whether it was met.
    pub(crate) met: Vec<bool>,
    /// How many were.
    pub(crate) count: usize,
}

/// So many places of which none was met.
fn unmet(alloc: Global, count: usize) -> Result<Vec<bool>, NoMemory>
    ensures { IfOk result (λ met. met.items ≡ replicate count false) }
{
    let met = vec![in alloc; false; count]?;
    Ok(met)
}

impl Places {
    /// No place was met of so many.
    fn none(alloc: Global, count: usize) -> Result<Places, NoMemory>
        ensures { IfOk result (λ places. (run : List ℕ) → length run ≡ count → HaveMet run [] places) }
    {
        let met = unmet(alloc, count)?;
        Ok(Places { met, count: 0 })
    }

    /// Whether the place is one of the log that has this label and wasn't met.
    fn is_free(&self, labels: &[u32], place: u64, label: u32) -> bool
        requires { length self.now.met.items ≡ length labels.now }
        ensures { IsTrue result ↔ IsFree labels.now place label self.now }
    {
        if place == 0 || place > labels.len() as u64 {
            return false;
        }
        let index = (place - 1) as usize;
        !self.met[index] && labels[index] == label
    }

    /// Meets the place.
    fn meet(&mut self, place: u64)
        requires some { 0 < place }
        requires within { place ≤ length self.old.met.items }
        requires few { self.old.count < length self.old.met.items }
        ensures { HasMet place self.old self.new }
    {
        self.met[(place - 1) as usize] = true;
        self.count += 1;
    }

    /// Lets an event with the label stand at the place, if this is free; it is met.
    fn stand(&mut self, labels: &[u32], place: u64, label: u32) -> bool
        requires { AreCounted labels.now self.old }
        ensures { Stands result labels.now place label self.old self.new }
    {
        if !self.is_free(labels, place, label) {
            return false;
        }
        self.meet(place);
        true
    }

    /// Takes the next mark: its event, if it is one, can stand where the place is free.
    #[tactic(auto, using(crate::proofs::Meeting::takes))]
    fn take(&mut self, labels: &[u32], mark: Mark) -> bool
        requires { AreCounted labels.now self.old }
        ensures { Takes result labels.now mark self.old self.new }
    {
        match mark {
            Mark::Event { event, place } => self.stand(labels, place, event.label),
            Mark::Open | Mark::Next | Mark::Close | Mark::OpenTie | Mark::CloseTie(_) => true,
        }
    }
}

/// Whether the events of the marks stand at all places of the log, each at one, with the labels that the log has there.
pub(crate) fn are_placed(alloc: Global, labels: &[u32], marks: &[Mark]) -> Result<bool, NoMemory>
    ensures { IfOk result (λ placed. (ts : List Tree) → IsTrue placed ↔ ArePlaced labels.now (events_in (signs_of ts marks.now))) }
{
    let mut places = Places::none(alloc, labels.len())?;
    for mark in marks {
        if !places.take(labels, *mark) {
            return Ok(false);
        }
    }
    Ok(places.count == labels.len())
}
