//! What is woven, or where columns cross: what `levels` answers.

ghost use Rattle.std.specs.Prelude.{◌≡◌, [], IfOk, None, OnOk, Some};
ghost use Rattle.level_weaving.specs.Answers.{IsAdded, crossed_at, gathered_answer};
ghost use Rattle.msc_base.specs.Places.{earliest};

use level_pieces::earlier_of;
use msc_base::{NoMemory, Place, comes_before, earlier_place};
use std::alloc::Global;

/// What something is woven to.
#[derive(Drop)]
pub enum Answer<T> {
    /// That, with the earliest place at which a message in it has no partner.
    Woven(T, Option<Place>),
    /// To nothing: columns cross, and the earliest item that remains stands there.
    Crossed(Place),
}

/// What several are woven to, one after another.
#[derive(Drop)]
pub struct Gathered<T> {
    list: Vec<T>,
    alone: Option<Place>,
    crossed: Option<Place>,
}

impl<T: Drop> Gathered<T> {
    /// Of none. It takes no memory.
    pub fn new(alloc: Global) -> Gathered<T>
        ensures list { result.list.items ≡ [] }
        ensures alone { result.alone ≡ None }
        ensures crossed { result.crossed ≡ None }
    {
        Gathered {
            list: Vec::new(alloc),
            alone: None,
            crossed: None,
        }
    }

    /// Of none, with room for so many.
    pub fn with_room(alloc: Global, room: usize) -> Result<Gathered<T>, NoMemory>
        ensures list { IfOk result (λ gathered. gathered.list.items ≡ []) }
        ensures alone { IfOk result (λ gathered. gathered.alone ≡ None) }
        ensures crossed { IfOk result (λ gathered. gathered.crossed ≡ None) }
    {
        Ok(Gathered {
            list: Vec::with_capacity(alloc, room)?,
            alone: None,
            crossed: None,
        })
    }

    /// Adds one more.
    pub fn add(&mut self, answer: Answer<T>) -> Result<(), NoMemory>
        ensures { OnOk result (IsAdded self.old answer self.new) }
    {
        match answer {
            Answer::Woven(held, alone) => {
                self.list.push(held)?;
                self.alone = earlier_of(self.alone, alone);
            }
            Answer::Crossed(place) => {
                self.crossed = earlier_place(self.crossed, place);
            }
        }
        Ok(())
    }

    /// All of them.
    pub fn answer(self) -> Answer<Vec<T>>
        ensures { result ≡ gathered_answer self.list self.alone self.crossed }
    {
        match self.crossed {
            None => Answer::Woven(self.list, self.alone),
            Some(place) => Answer::Crossed(place),
        }
    }
}

/// Where columns cross, where they do.
pub fn crossed_place<T>(answer: &Answer<T>) -> Option<Place>
    ensures { result ≡ crossed_at answer.now }
{
    match answer {
        Answer::Woven(_, _) => None,
        Answer::Crossed(place) => Some(*place),
    }
}

/// The place, or one before it.
pub fn earlier_than(so_far: Option<Place>, place: Place) -> Place
    ensures { Some result ≡ earliest so_far place }
{
    match so_far {
        None => place,
        Some(other) => {
            if comes_before(place, other) {
                place
            } else {
                other
            }
        }
    }
}
