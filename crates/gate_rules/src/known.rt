//! What is known of the gates that a caller calls: for `judging`.

ghost use Rattle.std.specs.Prelude.{◌≡◌, ◌&&◌, ◌||◌, not, option_map};
ghost use Rattle.gate_rules.specs.Callers.{caller_view, key_view};
ghost use Rattle.gate_rules.specs.GateRules.{inner_at};
ghost use Rattle.gate_rules.specs.KnownGates.{along, answering, clashing, ends_found, ends_view, has_other, known_view, lacks, opposed, some_end, tied_ways, with_facts};
ghost use Rattle.gate_tables.specs.FactViews.{facts_view};
ghost use Rattle.gate_tables.specs.ChartGates.{AreFactsOf};
ghost use Rattle.gate_tables.specs.GateFacts.{facts_of};
ghost use Rattle.gate_tables.specs.MessageTexts.{message_view, text_parts};
ghost use Rattle.msc_meaning.specs.Bodies.{WovenItems};
ghost use Rattle.msc_meaning.specs.Tables.{Table};

use crate::caller::{Caller, GateKey};
use gate_tables::{GateFacts, LevelFacts, MessageText};
use msc_base::Kind;
use msc_tree::RawEvent;

/// What is known of a gate that a caller may call.
#[derive(Clone, Copy)]
pub(crate) enum Known<'a> {
    /// It calls no such gate.
    Uncalled,
    /// The gate has no inner event.
    Empty,
    /// The gate has inner events.
    Events(&'a GateFacts),
}

/// What is known of the gates that a caller calls: of that of its own reference, and of another's.
#[derive(Clone, Copy)]
pub(crate) struct Ends<'a> {
    pub(crate) own: Known<'a>,
    pub(crate) far: Known<'a>,
}

/// What is known of a gate, where one is called.
fn known_at<'a>(facts: &'a LevelFacts, key: Option<GateKey<'_>>) -> Known<'a>
    ensures { (table : Table) (held : WovenItems) → AreFactsOf table held facts.now → known_view result ≡ option_map (λ x. facts_of (inner_at table held x)) (option_map key_view key.entry) }
{
    match key {
        Some(key) => match facts.facts_at(key.name, key.gate) {
            Some(facts) => Known::Events(facts),
            None => Known::Empty,
        },
        None => Known::Uncalled,
    }
}

/// What is known of the gates that a caller calls.
pub(crate) fn ends_of<'a>(facts: &'a LevelFacts, caller: Caller<'_>) -> Ends<'a>
    ensures { (table : Table) (held : WovenItems) → AreFactsOf table held facts.now → ends_view result ≡ ends_found table held (caller_view caller.entry) }
{
    let own = caller.own();
    let far = caller.far();
    match far {
        Some(_) => Ends {
            own: known_at(facts, own),
            far: known_at(facts, far),
        },
        None => Ends {
            own: Known::Uncalled,
            far: Known::Uncalled,
        },
    }
}

impl<'a> Known<'a> {
    /// Whether the gate is called, and has no inner event.
    fn lacks(self) -> bool
        ensures { result ≡ lacks (known_view self.entry) }
    {
        match self {
            Known::Uncalled => false,
            Known::Empty => true,
            Known::Events(_) => false,
        }
    }

    /// Whether one branch has two of its inner events.
    fn is_several(self) -> bool
        ensures { result ≡ with_facts (λ f. f.several) (known_view self.entry) }
    {
        match self {
            Known::Uncalled => false,
            Known::Empty => false,
            Known::Events(facts) => facts.several,
        }
    }

    /// Whether they happen at two instances.
    fn is_split(self) -> bool
        ensures { result ≡ with_facts (λ f. f.apart) (known_view self.entry) }
    {
        match self {
            Known::Uncalled => false,
            Known::Empty => false,
            Known::Events(facts) => facts.apart,
        }
    }

    /// Whether one of them stands in a loop.
    fn is_looped(self) -> bool
        ensures { result ≡ with_facts (λ f. f.looped) (known_view self.entry) }
    {
        match self {
            Known::Uncalled => false,
            Known::Empty => false,
            Known::Events(facts) => facts.looped,
        }
    }

    /// Whether one of them doesn't go the other way than the event, or has another text.
    pub(crate) fn goes_along(self, event: &RawEvent) -> bool
        ensures { result ≡ with_facts (along event.now.kind (text_parts event.now)) (known_view self.entry) }
    {
        match self {
            Known::Uncalled => false,
            Known::Empty => false,
            Known::Events(facts) => goes_along(facts, event),
        }
    }
}

/// Whether all inner events go the other way than events of that kind.
fn answer(facts: &GateFacts, kind: Kind) -> bool
    ensures { result ≡ answering kind (facts_view facts.now) }
{
    match kind {
        Kind::Output => facts.inputs,
        Kind::Input => facts.outputs,
        Kind::OutputLost
        | Kind::InputFound
        | Kind::Action
        | Kind::TimerStart
        | Kind::TimerStop
        | Kind::Timeout
        | Kind::Create => false,
    }
}

/// Whether an inner event has another text.
fn has_other(facts: &GateFacts, text: MessageText<'_>) -> bool
    ensures { result ≡ has_other (facts_view facts.now) (message_view text.entry) }
{
    !facts.message().same(text) || facts.differ
}

/// Whether an inner event doesn't go the other way than the event, or has another text.
fn goes_along(facts: &GateFacts, event: &RawEvent) -> bool
    ensures { result ≡ along event.now.kind (text_parts event.now) (facts_view facts.now) }
{
    !answer(facts, event.kind) || has_other(facts, MessageText::of(event))
}

/// Whether the inner events of one gate all go out, and those of the other in.
fn are_opposed(own: &GateFacts, far: &GateFacts) -> bool
    ensures { result ≡ opposed (facts_view own.now) (facts_view far.now) }
{
    (own.outputs && far.inputs) || (own.inputs && far.outputs)
}

/// Whether the inner events of both gates don't go in two ways, or have two texts.
fn clash(own: &GateFacts, far: &GateFacts) -> bool
    ensures { result ≡ tied_ways (facts_view own.now) (facts_view far.now) }
{
    !are_opposed(own, far) || own.differ || has_other(far, own.message())
}

impl<'a> Ends<'a> {
    /// Whether one of the gates has no inner event.
    pub(crate) fn lack(self) -> bool
        ensures { result ≡ some_end lacks (ends_view self.entry) }
    {
        self.own.lacks() || self.far.lacks()
    }

    /// Whether one branch has two inner events of one of them.
    pub(crate) fn are_several(self) -> bool
        ensures { result ≡ some_end (with_facts (λ f. f.several)) (ends_view self.entry) }
    {
        self.own.is_several() || self.far.is_several()
    }

    /// Whether inner events of one of them happen at two instances.
    pub(crate) fn are_split(self) -> bool
        ensures { result ≡ some_end (with_facts (λ f. f.apart)) (ends_view self.entry) }
    {
        self.own.is_split() || self.far.is_split()
    }

    /// Whether an inner event of one of them stands in a loop.
    pub(crate) fn are_looped(self) -> bool
        ensures { result ≡ some_end (with_facts (λ f. f.looped)) (ends_view self.entry) }
    {
        self.own.is_looped() || self.far.is_looped()
    }

    /// Whether the inner events of both gates don't go in two ways, or have two texts.
    pub(crate) fn clash(self) -> bool
        ensures { result ≡ clashing (ends_view self.entry) }
    {
        match self.own {
            Known::Uncalled => false,
            Known::Empty => false,
            Known::Events(own) => match self.far {
                Known::Uncalled => false,
                Known::Empty => false,
                Known::Events(far) => clash(own, far),
            },
        }
    }
}
