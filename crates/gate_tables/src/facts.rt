//! What rules ask of the inner events of a gate.

ghost use Rattle.std.specs.Prelude.{◌≡◌, ◌+◌, ◌&&◌, ◌||◌, min, not, IfOk};
ghost use Rattle.std.specs.Str.{bytes_eq};
ghost use Rattle.gate_tables.specs.FactViews.{facts_view, seen_view};
ghost use Rattle.gate_tables.specs.GateFacts.{is_input, is_output, most_counted};
ghost use Rattle.gate_tables.specs.MessageTexts.{message_view};
ghost use Rattle.gate_tables.specs.Together.{event_facts, joined_facts, looped_facts};
ghost use Rattle.msc_meaning.specs.Views.{node_view};

use crate::messages::MessageText;
use msc_base::{Kind, Limits, Name, NoMemory, Text};
use msc_meaning::EventNode;
use msc_tree::Parameters;
use std::alloc::Global;

/// How far inner events are counted: one more than the sum of all sizes may be.
const MOST_COUNTED: u32 = 2_000_001;

const _: () = prove!(MOST_COUNTED as u64 == Limits::TOTAL_SIZE + 1);

/// What is known of the inner events of a gate, of which there is one at least.
#[derive(Drop)]
pub struct GateFacts {
    /// The instance of the first.
    pub at: Name,
    /// Its kind.
    pub kind: Kind,
    /// The name in its text.
    pub text: Text,
    /// The list in parentheses behind the name, where there is one.
    pub parameters: Parameters,
    /// All are inputs.
    pub inputs: bool,
    /// All are outputs.
    pub outputs: bool,
    /// Some have another text than the first.
    pub differ: bool,
    /// Some happen at another instance.
    pub apart: bool,
    /// Some stand in a loop.
    pub looped: bool,
    /// One branch has two of them.
    pub several: bool,
    /// How many there are; where it is 2,000,001, above the limit of all sizes, there may be more.
    pub count: u32,
}

/// The same, with the instance and the text of the first where they stand.
#[derive(Clone, Copy)]
pub struct SeenFacts<'a> {
    pub at: &'a Name,
    pub kind: Kind,
    pub text: MessageText<'a>,
    pub inputs: bool,
    pub outputs: bool,
    pub differ: bool,
    pub apart: bool,
    pub looped: bool,
    pub several: bool,
    pub count: u32,
}

impl GateFacts {
    /// The text of the first. It takes no memory.
    pub fn message(&self) -> MessageText<'_>
        ensures { message_view result ≡ (facts_view self.now).text }
    {
        MessageText {
            name: &self.text,
            parameters: &self.parameters,
        }
    }

    /// The facts where they stand. It takes no memory.
    pub fn seen(&self) -> SeenFacts<'_>
        ensures { seen_view result ≡ facts_view self.now }
    {
        SeenFacts {
            at: &self.at,
            kind: self.kind,
            text: self.message(),
            inputs: self.inputs,
            outputs: self.outputs,
            differ: self.differ,
            apart: self.apart,
            looped: self.looped,
            several: self.several,
            count: self.count,
        }
    }
}

/// Whether the kind is that of an input.
fn is_input(kind: Kind) -> bool
    ensures { result ≡ is_input kind }
{
    kind == Kind::Input
}

/// Whether the kind is that of an output.
fn is_output(kind: Kind) -> bool
    ensures { result ≡ is_output kind }
{
    kind == Kind::Output
}

/// Whether these are other bytes.
fn is_other(first: &[u8], other: &[u8]) -> bool
    ensures { result ≡ not (bytes_eq other.now first.now) }
{
    other != first
}

/// Whether both are so.
fn are_both(first: bool, second: bool) -> bool
    ensures { result ≡ (first && second) }
{
    first && second
}

/// Whether one of two is so.
fn any_of(first: bool, second: bool) -> bool
    ensures { result ≡ first || second }
{
    first || second
}

/// Whether one of three is so.
fn any_of_three(first: bool, second: bool, third: bool) -> bool
    ensures { result ≡ first || second || third }
{
    first || second || third
}

/// How many these and those are, as far as they are counted.
fn all_counted(these: u32, those: u32) -> u32
    ensures { result ≡ min (these + those) most_counted }
{
    these.saturating_add(those).min(MOST_COUNTED)
}

impl<'a> SeenFacts<'a> {
    /// The facts of an event by itself. It takes no memory.
    pub fn of_event(node: &'a EventNode) -> SeenFacts<'a>
        ensures { seen_view result ≡ event_facts (node_view node.now) }
    {
        let kind = node.event.kind;
        SeenFacts {
            at: &node.at,
            kind,
            text: MessageText::of(&node.event),
            inputs: is_input(kind),
            outputs: is_output(kind),
            differ: false,
            apart: false,
            looped: false,
            several: false,
            count: 1,
        }
    }

    /// Those of these and of other events behind them, where one branch has both, or a branch has the one or the other. It takes no
    /// memory.
    pub fn with(self, others: SeenFacts<'a>, both: bool) -> SeenFacts<'a>
        ensures { seen_view result ≡ joined_facts both (seen_view self.entry) (seen_view others.entry) }
    {
        let another_text = !others.text.same(self.text);
        let elsewhere = is_other(self.at.bytes(), others.at.bytes());
        SeenFacts {
            at: self.at,
            kind: self.kind,
            text: self.text,
            inputs: are_both(self.inputs, others.inputs),
            outputs: are_both(self.outputs, others.outputs),
            differ: any_of_three(self.differ, others.differ, another_text),
            apart: any_of_three(self.apart, others.apart, elsewhere),
            looped: any_of(self.looped, others.looped),
            several: any_of_three(both, self.several, others.several),
            count: all_counted(self.count, others.count),
        }
    }

    /// Those of the same events in a loop. It takes no memory.
    pub fn in_loop(self) -> SeenFacts<'a>
        ensures { seen_view result ≡ looped_facts (seen_view self.entry) }
    {
        SeenFacts {
            looped: true,
            ..self
        }
    }

    /// The same facts with names of their own. It fails only for want of memory.
    pub fn copy(self, alloc: Global) -> Result<GateFacts, NoMemory>
        ensures { IfOk result (λ facts. facts_view facts ≡ seen_view self.entry) }
    {
        let at = self.at.copy(alloc)?;
        let text = self.text.name.copy(alloc)?;
        let parameters = self.text.parameters.copy(alloc)?;
        Ok(GateFacts {
            at,
            kind: self.kind,
            text,
            parameters,
            inputs: self.inputs,
            outputs: self.outputs,
            differ: self.differ,
            apart: self.apart,
            looped: self.looped,
            several: self.several,
            count: self.count,
        })
    }
}
