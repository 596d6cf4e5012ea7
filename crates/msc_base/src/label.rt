//! Labels: what an event says, where and with whom; and lists of names, numbers and pairs. For nearly all crates.

ghost use Rattle.std.specs.Prelude.{◌≡◌, ◌↔◌, IfOk, IsTrue};

use crate::{Items, Name, NoMemory, Place, Text};
use std::alloc::Global;

/// What an event does (Z.120, clauses 4.3 to 4.9).
#[derive(Clone, Copy, Debug, PartialEq, Eq)]
pub enum Kind {
    /// A message is sent.
    Output,
    /// A message is received.
    Input,
    /// A message is sent that is never received.
    OutputLost,
    /// A message is received whose sender isn't known.
    InputFound,
    /// A local action.
    Action,
    /// A timer is started.
    TimerStart,
    /// A timer is stopped.
    TimerStop,
    /// A timer runs out.
    Timeout,
    /// An instance is created.
    Create,
}

/// The far end of an event.
#[derive(Drop)]
pub enum Far {
    /// The event has no far end.
    Nobody,
    /// The environment, what lies outside the chart.
    Env,
    /// The instance of this name.
    Instance(Name),
}

/// What an event says.
#[derive(Drop)]
pub struct Label {
    /// The instance at which it happens.
    pub at: Name,
    /// What it does.
    pub kind: Kind,
    /// The message, action or timer: its tokens, without blanks between them.
    pub text: Text,
    /// To whom a message goes, or from whom it comes.
    pub far: Far,
}

/// A pair of event numbers.
#[derive(Clone, Copy, Debug, PartialEq, Eq)]
pub struct Pair {
    /// The number of the first event.
    pub first: u32,
    /// The number of the second event.
    pub second: u32,
}

/// A name and where it stands.
#[derive(Drop)]
pub struct LabelRef {
    /// The name.
    pub name: Name,
    /// Where it stands.
    pub place: Place,
}

/// A list of names.
pub type Names = Items<Name>;

/// A list of texts, as the words of a command line.
pub type Words = Items<Text>;

/// A list of labels.
pub type LabelList = Items<Label>;

/// A list of numbers.
pub type NumberList = Items<u32>;

/// A list of pairs of event numbers.
pub type PairList = Items<Pair>;

/// A list of names and where they stand.
pub type LabelRefs = Items<LabelRef>;

impl Far {
    /// Whether both are the same far end.
    pub fn same(&self, other: &Far) -> bool
        ensures { IsTrue result ↔ (self.now ≡ other.now) }
    {
        match (self, other) {
            (Far::Nobody, Far::Nobody) | (Far::Env, Far::Env) => true,
            (Far::Instance(a), Far::Instance(b)) => a.same(b),
            _ => false,
        }
    }

    /// The same far end once more. It fails only for want of memory.
    pub fn copy(&self, alloc: Global) -> Result<Far, NoMemory>
        ensures { IfOk result (λ far. far ≡ self.now) }
    {
        match self {
            Far::Nobody => Ok(Far::Nobody),
            Far::Env => Ok(Far::Env),
            Far::Instance(name) => {
                let name = name.copy(alloc)?;
                Ok(Far::Instance(name))
            }
        }
    }
}

impl Label {
    /// Whether all four parts are equal.
    pub fn same(&self, other: &Label) -> bool
        ensures { IsTrue result ↔ (self.now ≡ other.now) }
    {
        self.at.same(&other.at)
            && self.kind == other.kind
            && self.text.same(&other.text)
            && self.far.same(&other.far)
    }

    /// The same label once more. It fails only for want of memory.
    pub fn copy(&self, alloc: Global) -> Result<Label, NoMemory>
        ensures { IfOk result (λ label. label ≡ self.now) }
    {
        let at = self.at.copy(alloc)?;
        let text = self.text.copy(alloc)?;
        let far = self.far.copy(alloc)?;
        Ok(Label {
            at,
            kind: self.kind,
            text,
            far,
        })
    }
}
