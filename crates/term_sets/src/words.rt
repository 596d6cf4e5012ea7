//! Words that were found, each once: for `subsets`.

ghost use Rattle.std.specs.Prelude.{◌≡◌, ◌<◌, ◌≤◌, [], ℕ, IfOk, length};
ghost use Rattle.msc_base.specs.Lists.{IsAmong};
ghost use Rattle.term_sets.specs.Words.{AddsWord, AreWords, IsEachLeft, TakesEach};

use msc_base::NoMemory;
use std::alloc::Global;
use std::collections::HashSet;

/// Words, each once, and how many there may be.
#[derive(Drop)]
pub(crate) struct Words {
    /// The words, in the order in which they were found.
    pub(crate) list: Vec<u64>,
    /// The same words.
    seen: HashSet<u64>,
    /// How many there may be.
    room: u64,
}

impl Words {
    /// No words. It takes no memory.
    #[tactic(auto, using(crate::proofs::Gaining::gaining))]
    pub(crate) fn new(alloc: Global, room: u64) -> Words
        ensures words { AreWords result }
        ensures none { result.list.items ≡ [] }
        ensures room { result.room ≡ room }
    {
        Words {
            list: Vec::new(alloc),
            seen: HashSet::new(alloc),
            room,
        }
    }

    /// Adds the word where it is new, and says whether there are no more than there may be.
    fn add(&mut self, word: u64) -> Result<bool, NoMemory>
        requires words { AreWords self.old }
        requires within { length self.old.list.items ≤ self.old.room }
        ensures { IfOk result (λ all. AddsWord word self.old self.new all) }
    {
        if !self.seen.insert(word)? {
            return Ok(true);
        }
        self.list.push(word)?;
        Ok(self.list.len() as u64 <= self.room)
    }

    /// Adds the word without each one of these bits that it has. It says whether there are no more words than there may be: it ends
    /// where there are more.
    #[tactic(auto, using(crate::proofs::Gaining::gaining))]
    fn take_each(&mut self, word: u64, bits: &[u32]) -> Result<bool, NoMemory>
        requires bits { (bit : ℕ) → IsAmong bits.now bit → bit < 64 }
        requires words { AreWords self.old }
        requires within { length self.old.list.items ≤ self.old.room }
        ensures { IfOk result (λ all. TakesEach bits.now word self.old self.new all) }
    {
        for index in 0..bits.len() {
            let bit = bits[index];
            if (word >> bit) % 2 == 1 && !self.add(word - (1u64 << bit))? {
                return Ok(false);
            }
        }
        Ok(true)
    }

    /// The same of each of the words.
    #[tactic(auto, using(crate::proofs::Gaining::gaining))]
    pub(crate) fn take_all(&mut self, words: &[u64], bits: &[u32]) -> Result<bool, NoMemory>
        requires bits { (bit : ℕ) → IsAmong bits.now bit → bit < 64 }
        requires words { AreWords self.old }
        requires none { self.old.list.items ≡ [] }
        ensures { IfOk result (λ all. IsEachLeft bits.now words.now self.old self.new all) }
    {
        for index in 0..words.len() {
            if !self.take_each(words[index], bits)? {
                return Ok(false);
            }
        }
        Ok(true)
    }
}
