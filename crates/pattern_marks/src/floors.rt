//! Whether each event of a pattern stands above those before it, by the greatest place of each instance so far: its floor.

ghost use Rattle.std.specs.Prelude.{◌≡◌, ◌≤◌, ◌<◌, ◌+◌, ◌++◌, ◌∷◌, ◌↔◌, ℕ, List, [], length, IfOk, IsTrue, OnOk};
ghost use Rattle.chart_term.specs.Terms.{Tree};
ghost use Rattle.chart_term.specs.Views.{event_of};
ghost use Rattle.certificates.specs.Floors.{IsAbove};
ghost use Rattle.pattern_marks.specs.HeldFloors.{Closes, DoWait, floors_of, Goes, HasGoneBack, HasPutIn, HasUndone, HavePutIn, IsRaised, put_at, Stands, Turns};
ghost use Rattle.pattern_marks.specs.Marks.{sign_of, signs_of};
ghost use Rattle.pattern_marks.specs.Tests.{DoRise, Waiting};

use crate::mark::Mark;
use chart_term::Event;
use msc_base::NoMemory;
use std::alloc::Global;
use std::marker::Model;

/// The floor of an instance.
#[derive(Clone, Copy)]
pub(crate) struct Floor {
    /// The instance.
    pub(crate) instance: u32,
    /// The greatest place.
    pub(crate) place: u64,
}

/// Parts side by side that have begun.
#[derive(Clone, Copy)]
pub(crate) enum Level {
    /// The first of the two: how long the journal was before it.
    First(usize),
    /// The second: how many floors were put aside before those of the first.
    Second(usize),
}

/// The floors, and what it takes to go back.
#[derive(Drop)]
struct Floors {
    /// By instance; 0 behind the last.
    places: Vec<u64>,
    /// What was changed, with the places before.
    journal: Vec<Floor>,
    /// The floors behind first parts, which are put in when the second have ended.
    aside: Vec<Floor>,
    /// The innermost level last.
    levels: Vec<Level>,
}

impl Model for Floors {
    ghost use Rattle.pattern_marks.specs.HeldFloors.{HeldFloors};

    ghost Value = { HeldFloors };

    ghost view = { λ f. record { places = f.places.items; journal = f.journal.items; aside = f.aside.items; levels = f.levels.items } };
}

/// Puts the place of the floor in, in a longer list where there are too few.
fn put(places: &mut Vec<u64>, floor: Floor) -> Result<(), NoMemory>
    ensures { OnOk result (places.new.items ≡ put_at places.old.items floor) }
{
    let index = floor.instance as usize;
    if index >= places.len() {
        places.resize(index + 1, 0)?;
    }
    places[index] = floor.place;
    Ok(())
}

impl Floors {
    /// All floors are 0.
    fn new(alloc: Global) -> Floors
        ensures { result ≡ record { places = []; journal = []; aside = []; levels = [] } }
    {
        Floors {
            places: Vec::new(alloc),
            journal: Vec::new(alloc),
            aside: Vec::new(alloc),
            levels: Vec::new(alloc),
        }
    }

    /// The floor of the instance.
    fn at(&self, instance: u32) -> u64
        ensures { result ≡ floors_of self.now instance }
    {
        let index = instance as usize;
        if index < self.places.len() {
            self.places[index]
        } else {
            0
        }
    }

    /// Raises the floor of the instance to the place, if it is lower.
    #[tactic(auto, using(crate::proofs::Raising::raised_low))]
    fn raise(&mut self, floor: Floor) -> Result<(), NoMemory>
        ensures { OnOk result (IsRaised floor self.old self.new) }
    {
        let before = self.at(floor.instance);
        if before >= floor.place {
            return Ok(());
        }
        self.journal.push(Floor {
            instance: floor.instance,
            place: before,
        })?;
        put(&mut self.places, floor)
    }

    /// Whether the place is above the floors of the event's instances.
    #[tactic(auto, using(crate::proofs::Raising::above))]
    fn is_above(&self, event: Event, place: u64) -> bool
        ensures { IsTrue result ↔ IsAbove (floors_of self.now) (event_of event) place }
    {
        if self.at(event.at) >= place {
            return false;
        }
        match event.also {
            Some(second) => self.at(second) < place,
            None => true,
        }
    }

    /// Lets the event stand there, if it is above the floors of its instances; they are raised.
    fn stand(&mut self, event: Event, place: u64) -> Result<bool, NoMemory>
        ensures { IfOk result (λ stands. Stands stands (event_of event) place self.old self.new) }
    {
        if !self.is_above(event, place) {
            return Ok(false);
        }
        self.raise(Floor {
            instance: event.at,
            place,
        })?;
        match event.also {
            Some(second) => {
                self.raise(Floor {
                    instance: second,
                    place,
                })?;
                Ok(true)
            }
            None => Ok(true),
        }
    }

    /// The first of two parts side by side begins.
    fn open(&mut self) -> Result<(), NoMemory>
        ensures { OnOk result (self.new ≡ record self.old { levels = self.old.levels ++ Level.First (length self.old.journal) ∷ [] }) }
    {
        self.levels.push(Level::First(self.journal.len()))?;
        Ok(())
    }

    /// The second begins: the floors go back, and what they were is put aside.
    fn turn(&mut self) -> Result<bool, NoMemory>
        ensures { IfOk result (λ turns. Turns turns self.old self.new) }
    {
        let Some(Level::First(length)) = self.levels.pop() else {
            return Ok(false);
        };
        self.levels.push(Level::Second(self.aside.len()))?;
        self.go_back(length)?;
        Ok(true)
    }

    /// Undoes what the journal has behind this length.
    #[tactic(auto, using(crate::proofs::Raising::back))]
    fn go_back(&mut self, length: usize) -> Result<(), NoMemory>
        ensures { OnOk result (HasGoneBack length self.old self.new) }
    {
        while self.noted() > length {
            self.undo()?;
        }
        Ok(())
    }

    /// How long the journal is.
    fn noted(&self) -> usize
        ensures { result ≡ length self.now.journal }
    {
        self.journal.len()
    }

    /// Undoes the last that the journal has.
    fn undo(&mut self) -> Result<(), NoMemory>
        requires { 0 < length self.old.journal }
        ensures { OnOk result (HasUndone self.old self.new) }
    {
        let Some(floor) = self.journal.pop() else {
            return Ok(());
        };
        let place = self.at(floor.instance);
        self.aside.push(Floor {
            instance: floor.instance,
            place,
        })?;
        put(&mut self.places, floor)
    }

    /// Both end: the floors behind the first are put in.
    fn close(&mut self) -> Result<bool, NoMemory>
        ensures { IfOk result (λ closes. Closes closes self.old self.new) }
    {
        let Some(Level::Second(length)) = self.levels.pop() else {
            return Ok(false);
        };
        self.put_in(length)?;
        Ok(true)
    }

    /// Raises the floors to those that were put aside behind this length.
    #[tactic(auto, using(crate::proofs::Raising::in_again))]
    fn put_in(&mut self, length: usize) -> Result<(), NoMemory>
        ensures { OnOk result (HavePutIn length self.old self.new) }
    {
        while self.put_aside() > length {
            self.put_last_in()?;
        }
        Ok(())
    }

    /// How many floors were put aside.
    fn put_aside(&self) -> usize
        ensures { result ≡ length self.now.aside }
    {
        self.aside.len()
    }

    /// Raises the floors to the last that was put aside.
    fn put_last_in(&mut self) -> Result<(), NoMemory>
        requires { 0 < length self.old.aside }
        ensures { OnOk result (HasPutIn self.old self.new) }
    {
        let Some(floor) = self.aside.pop() else {
            return Ok(());
        };
        self.raise(floor)
    }

    /// Takes the next mark, if it can stand there.
    #[tactic(auto, using(crate::proofs::Waits::takes))]
    fn take(&mut self, mark: Mark) -> Result<bool, NoMemory>
        ensures { IfOk result (λ goes. (ts : List Tree) (ws : List Waiting) → DoWait self.old ws → Goes goes (sign_of ts mark) self.old ws self.new) }
    {
        match mark {
            Mark::Event { event, place } => self.stand(event, place),
            Mark::Open => {
                self.open()?;
                Ok(true)
            }
            Mark::Next => self.turn(),
            Mark::Close => self.close(),
            Mark::OpenTie | Mark::CloseTie(_) => Ok(true),
        }
    }
}

/// Whether each event stands above all before it that have one of its instances.
#[tactic(auto, using(crate::proofs::Waits::under_first))]
pub(crate) fn do_rise(alloc: Global, marks: &[Mark]) -> Result<bool, NoMemory>
    ensures { IfOk result (λ rise. (ts : List Tree) → IsTrue rise ↔ DoRise (λ i. 0) [] (signs_of ts marks.now)) }
{
    let mut floors = Floors::new(alloc);
    for mark in marks {
        if !floors.take(*mark)? {
            return Ok(false);
        }
    }
    Ok(true)
}
