//! A table of slots, in which an index stands under its code.

use msc_base::NoMemory;
use std::alloc::Global;

/// In how many slots a code may stand, so that a look-up is short also where codes are made to be near one another.
const SLOTS_OF_CODE: usize = 8;

/// How many slots the smallest table has.
const LEAST_SLOTS: usize = 16;

/// An index under its code.
#[derive(Clone, Copy)]
struct Entry {
    code: u32,
    index: u32,
}

/// Indexes by codes: each in the first free slot from its code's on. One has no slot where those of its code are full, or where another
/// has its code, so that each code leads to one index at most.
#[derive(Drop)]
pub struct CodeSlots {
    /// No slots, or a power of two that is at least twice the number of indexes.
    slots: Vec<Option<Entry>>,
}

/// A number of free slots.
fn free_slots(alloc: Global, count: usize) -> Result<Vec<Option<Entry>>, NoMemory> {
    let slots = vec![in alloc; None; count]?;
    Ok(slots)
}

/// The first slot of a code that is free or has an entry of this code.
fn slot_of(slots: &[Option<Entry>], code: u32) -> Option<usize> {
    let mask = slots.len().checked_sub(1)?;
    for step in 0..SLOTS_OF_CODE {
        let slot = (code as usize + step) & mask;
        match slots.get(slot)? {
            Some(entry) if entry.code != code => {}
            _ => return Some(slot),
        }
    }
    None
}

/// Puts an entry into the slot of its code, if that is free.
fn put_into(slots: &mut [Option<Entry>], entry: Entry) {
    if let Some(index) = slot_of(slots, entry.code) {
        if let Some(slot) = slots.get_mut(index) {
            if slot.is_none() {
                *slot = Some(entry);
            }
        }
    }
}

impl CodeSlots {
    /// The table without slots. It takes no memory.
    pub fn new(alloc: Global) -> CodeSlots {
        CodeSlots {
            slots: Vec::new(alloc),
        }
    }

    /// Forgets all indexes.
    pub fn clear(&mut self) {
        self.slots.clear();
    }

    /// The index that stands under this code, if one does.
    pub fn guess(&self, code: u32) -> Option<u32> {
        let slot = slot_of(self.slots.as_slice(), code)?;
        match self.slots.get(slot)? {
            Some(entry) => Some(entry.index),
            None => None,
        }
    }

    /// Makes room for one index more than these. It fails only for want of memory, and then all is as it was.
    pub fn make_room(&mut self, alloc: Global, count: usize) -> Result<(), NoMemory> {
        let length = self.slots.len();
        if length / 2 > count {
            return Ok(());
        }
        let mut slots = free_slots(alloc, length.saturating_mul(2).max(LEAST_SLOTS))?;
        for slot in self.slots.iter() {
            if let Some(entry) = slot {
                put_into(slots.as_mut_slice(), *entry);
            }
        }
        self.slots = slots;
        Ok(())
    }

    /// A free slot for this code.
    pub fn free_slot(&self, code: u32) -> Option<usize> {
        let slot = slot_of(self.slots.as_slice(), code)?;
        match self.slots.get(slot)? {
            Some(_) => None,
            None => Some(slot),
        }
    }

    /// Puts an index into a free slot, under its code. It takes no memory.
    pub fn fill(&mut self, slot: usize, code: u32, index: u32) {
        if let Some(free) = self.slots.get_mut(slot) {
            *free = Some(Entry { code, index });
        }
    }

    /// Puts an index under its code, if that has a free slot. It takes no memory.
    pub fn put(&mut self, code: u32, index: u32) {
        put_into(self.slots.as_mut_slice(), Entry { code, index });
    }
}
