//! What a node of a term stores of it: weight, instances, ranges of numbers and labels, a code of the numbers; it looks at no table.

ghost use Rattle.std.specs.Prelude.{◌≡◌, ◌+◌, ◌<◌, ◌∷◌, ◌||◌, ℕ, [], true, false, min, max, OnOk, IfOk, Some, option_to_list};
ghost use Rattle.bit_sets.specs.Blocks.{is_among};
ghost use Rattle.std.specs.List.{list_any};
ghost use Rattle.std.specs.Option.{ForSome};
ghost use Rattle.msc_base.specs.Stored.{most_stored};
ghost use Rattle.term_facts.specs.NodeFacts.{Adds, AreFacts, FactsPassed, FactsWithin, facts_may, facts_miss, labels_in, lies_in, number_code, numbers_in, wider};

use bit_sets::Block;
use msc_base::{Limits, NoMemory};
use std::alloc::Global;
use std::cmp::Ordering;

/// The least and the greatest of some numbers.
#[derive(Clone, Copy, Debug, PartialEq, Eq)]
pub struct Span {
    /// The least.
    pub least: u32,
    /// The greatest.
    pub greatest: u32,
}

/// The ranges of some events, of which there is one at least.
#[derive(Clone, Copy, Debug, PartialEq, Eq)]
pub struct Ranges {
    /// The least and the greatest of their numbers.
    pub numbers: Span,
    /// The least and the greatest of the numbers of their labels.
    pub labels: Span,
}

/// What a node stores of its term. No fact depends on the tables.
#[derive(Drop)]
pub struct Facts {
    /// The weight, or the largest `u64` where it is larger.
    pub weight: u64,
    /// A code of the event numbers, by which terms are told apart before they are compared part by part.
    pub code: u64,
    /// The instances of the events of the term, of its loop operands and of its begun turns.
    pub instances: Block,
    /// The ranges of these events.
    pub ranges: Option<Ranges>,
    /// Whether a walk stands in the term, in a loop operand of it or in a begun turn.
    pub holds_walk: bool,
}

impl Span {
    /// From the number to itself.
    pub fn of(number: u32) -> Span
        ensures { result ≡ record { least = number; greatest = number } }
    {
        Span {
            least: number,
            greatest: number,
        }
    }

    /// Whether the number lies from the least to the greatest.
    fn has(&self, number: u32) -> bool
        ensures { result ≡ lies_in (Some self.now) number }
    {
        self.least <= number && number <= self.greatest
    }

    /// Whether one of the numbers lies from the least to the greatest.
    fn has_any(&self, numbers: &[u32]) -> bool
        ensures { result ≡ list_any (lies_in (Some self.now)) numbers.now }
    {
        numbers
            .iter()
            .any(|number| self.least <= *number && *number <= self.greatest)
    }

    /// From the least to the greatest number of both.
    pub fn wider(self, other: Span) -> Span
        ensures { result ≡ record { least = min self.least other.least; greatest = max self.greatest other.greatest } }
    {
        Span {
            least: self.least.min(other.least),
            greatest: self.greatest.max(other.greatest),
        }
    }
}

/// The ranges of both.
fn widened(ranges: Option<Ranges>, other: Option<Ranges>) -> Option<Ranges>
    ensures numbers { numbers_in result ≡ wider (numbers_in ranges) (numbers_in other) }
    ensures labels { labels_in result ≡ wider (labels_in ranges) (labels_in other) }
{
    match (ranges, other) {
        (None, _) => other,
        (_, None) => ranges,
        (Some(first), Some(second)) => Some(Ranges {
            numbers: first.numbers.wider(second.numbers),
            labels: first.labels.wider(second.labels),
        }),
    }
}

/// What an event number adds to a code: one of 32 bits, so that sets that differ little lie near each other in the order of codes, and
/// below them bits that tell the numbers apart which have the same.
#[tactic(auto, using(crate::proofs::Coding::coding))]
fn number_code(number: u32) -> u64
    ensures { result ≡ number_code number }
{
    let next = number as u64 + 1;
    let spread = next.wrapping_mul(11_400_714_819_323_198_485);
    let mixed = (spread >> 32).wrapping_mul(spread);
    let folded = (mixed >> 32).wrapping_mul(spread);
    let bit = 1u64 << (32 + number % 32);
    bit.wrapping_add(folded >> 37)
}

/// Adds the instances of the other block, which often are the same.
fn unite(block: &mut Block, other: &Block) -> Result<(), NoMemory>
    ensures { OnOk result ((n : ℕ) → is_among block.new.instances n ≡ (is_among block.old.instances n || is_among other.now.instances n)) }
{
    if block.compare_instances(other) == Ordering::Equal {
        return Ok(());
    }
    block.add_instances(other)?;
    Ok(())
}

impl Facts {
    /// The facts of no term. It takes no memory.
    pub fn none(alloc: Global) -> Facts
        ensures { AreFacts 0 false [] [] [] result }
    {
        Facts {
            weight: 0,
            holds_walk: false,
            instances: Block::empty(alloc),
            ranges: None,
            code: 0,
        }
    }

    /// The facts of an event of that number, at one instance or two, with that label.
    #[tactic(auto, using(crate::proofs::Coding::coding))]
    pub fn of_event(
        alloc: Global,
        number: u32,
        at: u32,
        also: Option<u32>,
        label: u32,
    ) -> Result<Facts, NoMemory>
        requires at { at < Limits.INSTANCES }
        requires also { ForSome also (λ second. second < Limits.INSTANCES) }
        ensures { IfOk result (λ facts. AreFacts 1 false (at ∷ option_to_list also) (number ∷ []) (label ∷ []) facts) }
    {
        let mut instances = Block::empty(alloc);
        instances.add_instance(at)?;
        if let Some(also) = also {
            instances.add_instance(also)?;
        }
        let ranges = Ranges {
            numbers: Span::of(number),
            labels: Span::of(label),
        };
        Ok(Facts {
            weight: 1,
            holds_walk: false,
            instances,
            ranges: Some(ranges),
            code: number_code(number),
        })
    }

    /// The facts of a walk. It takes no memory.
    pub fn of_walk(alloc: Global) -> Facts
        ensures { AreFacts 1 true [] [] [] result }
    {
        Facts {
            weight: 1,
            holds_walk: true,
            instances: Block::empty(alloc),
            ranges: None,
            code: 0,
        }
    }

    /// Adds the facts of another term.
    pub fn add(&mut self, other: &Facts) -> Result<(), NoMemory>
        ensures { OnOk result (Adds self.old other.now self.new) }
    {
        unite(&mut self.instances, &other.instances)?;
        self.weight = self.weight.saturating_add(other.weight);
        self.holds_walk |= other.holds_walk;
        self.ranges = widened(self.ranges, other.ranges);
        self.code = self.code.wrapping_add(other.code);
        Ok(())
    }

    /// Adds to the weight alone.
    pub fn add_weight(&mut self, weight: u64)
        ensures { self.new ≡ record self.old { weight = min (self.old.weight + weight) most_stored } }
    {
        self.weight = self.weight.saturating_add(weight);
    }

    /// The same facts once more.
    pub fn copy(&self, alloc: Global) -> Result<Facts, NoMemory>
        ensures { IfOk result (λ facts. facts ≡ self.now) }
    {
        let instances = self.instances.copy(alloc)?;
        Ok(Facts {
            weight: self.weight,
            holds_walk: self.holds_walk,
            instances,
            ranges: self.ranges,
            code: self.code,
        })
    }

    /// Whether no event of the block can hit a term with these facts.
    #[tactic(auto, using(crate::proofs::Missing::missing))]
    pub fn misses(&self, block: &Block) -> bool
        ensures { result ≡ facts_miss block.now self.now }
    {
        if self.holds_walk || block.shares_instance(&self.instances) {
            return false;
        }
        match self.ranges {
            None => true,
            Some(ranges) => !ranges.numbers.has_any(block.events()),
        }
    }

    /// Whether a term with these facts may have an event with the label, as far as they tell.
    pub fn may_have(&self, label: u32) -> bool
        ensures { result ≡ facts_may label self.now }
    {
        if self.holds_walk {
            return true;
        }
        match self.ranges {
            None => false,
            Some(ranges) => ranges.labels.has(label),
        }
    }

    /// Whether the number lies from the least to the greatest of the event numbers.
    pub fn spans(&self, number: u32) -> bool
        ensures { result ≡ lies_in (numbers_in self.now.ranges) number }
    {
        match self.ranges {
            None => false,
            Some(ranges) => ranges.numbers.has(number),
        }
    }

    /// Where all event numbers lie, from the least to the greatest; without any it is of no meaning.
    pub fn range(&self) -> Span
        ensures { (n : ℕ) → lies_in (numbers_in self.now.ranges) n ≡ true → lies_in (Some result) n ≡ true }
    {
        match self.ranges {
            None => Span::of(0),
            Some(ranges) => ranges.numbers,
        }
    }

    /// Whether a search for the label passes over the terms with these facts, as far as they tell.
    pub fn are_passed(&self, label: u32, skip: &Block) -> bool
        ensures { result ≡ true → FactsPassed label skip.now.instances self.now }
    {
        !self.may_have(label) || self.are_within(skip)
    }

    /// Whether no walk is in the terms, and their events are at the instances of the block.
    fn are_within(&self, block: &Block) -> bool
        ensures { result ≡ true → FactsWithin block.now.instances self.now }
    {
        !self.holds_walk && self.instances.compare_instances(block) == Ordering::Equal
    }
}
