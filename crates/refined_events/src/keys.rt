//! The direction and the text of an event: for `counts` and `placed`.

ghost use Rattle.std.specs.Prelude.{◌≡◌, IfOk};
ghost use Rattle.msc_meaning.specs.Views.{node_view};
ghost use Rattle.refined_events.specs.Keys.{IsKeyOf, key_view, way};

use msc_base::{Kind, NoMemory};
use msc_meaning::EventNode;
use msc_tree::label_text;
use std::alloc::Global;

/// The direction and the text of a message event.
#[derive(Drop, PartialEq, Eq, Hash)]
pub(crate) struct EventKey {
    /// Whether it goes out.
    pub(crate) output: bool,
    /// Its text.
    pub(crate) text: Vec<u8>,
}

/// Whether an event of the kind goes out, where it goes out or comes in.
fn way_of(kind: Kind) -> Option<bool>
    ensures { result ≡ way kind }
{
    match kind {
        Kind::Output => Some(true),
        Kind::Input => Some(false),
        Kind::OutputLost
        | Kind::InputFound
        | Kind::Action
        | Kind::TimerStart
        | Kind::TimerStop
        | Kind::Timeout
        | Kind::Create => None,
    }
}

impl EventKey {
    /// The key of an event, where it is an output or an input.
    pub(crate) fn of(alloc: Global, node: &EventNode) -> Result<Option<EventKey>, NoMemory>
        ensures { IfOk result (λ key. IsKeyOf (node_view node.now) key) }
    {
        match way_of(node.event.kind) {
            None => Ok(None),
            Some(output) => {
                let name = node.event.text.bytes();
                let text = label_text(alloc, name, node.event.parameters.items())?;
                Ok(Some(EventKey { output, text }))
            }
        }
    }

    /// The same key once more.
    pub(crate) fn copy(&self, alloc: Global) -> Result<EventKey, NoMemory>
        ensures { IfOk result (λ key. key_view key ≡ key_view self.now) }
    {
        let text = Vec::from_slice(alloc, self.text.as_slice())?;
        Ok(EventKey {
            output: self.output,
            text,
        })
    }
}
