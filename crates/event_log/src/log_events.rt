//! The events of a log of one run: what its lines say.

ghost use Rattle.std.specs.Prelude.{◌≡◌};
ghost use Rattle.event_log.specs.Logs.{log_rules};
ghost use Rattle.event_log.specs.States.{event_of, IsNumbered};

use crate::json_line::object_event;
use crate::meaning::LineMeaning;
use crate::text_line::event_of_tokens;
use crate::{LineEvent, NumberedEvent, SharedLabel, Version};
use msc_base::{Label, NoMemory};
use msc_tokens::TokenList;
use serde_json::Value;
use std::alloc::Global;

/// Each line is one event, for which there is always room.
#[derive(Drop)]
pub struct LogEvents;

impl LineMeaning for LogEvents {
    type Said = SharedLabel;

    type Event = LineEvent;

    type Entry = NumberedEvent;

    type Met = ();

    ghost rules = { log_rules };

    ghost event_of = { event_of };

    ghost is_numbered = { IsNumbered };

    fn nothing_met(_alloc: Global) {}

    fn event_of_tokens(
        alloc: Global,
        version: Version,
        tokens: &TokenList,
    ) -> Result<Option<SharedLabel>, NoMemory> {
        match event_of_tokens(alloc, version, tokens)? {
            Some(label) => Ok(Some(SharedLabel::new(alloc, label)?)),
            None => Ok(None),
        }
    }

    fn event_of_value(
        alloc: Global,
        version: Version,
        value: &Value,
    ) -> Result<Option<SharedLabel>, NoMemory> {
        match object_event(alloc, version, value)? {
            Some(label) => Ok(Some(SharedLabel::new(alloc, label)?)),
            None => Ok(None),
        }
    }

    fn label_of(event: &SharedLabel) -> &Label {
        event.label()
    }

    fn copy(event: &SharedLabel) -> Result<SharedLabel, NoMemory> {
        event.copy()
    }

    fn entry(
        _alloc: Global,
        _met: &mut (),
        label: SharedLabel,
        number: Option<u32>,
        line: u64,
    ) -> Result<Option<NumberedEvent>, NoMemory> {
        let event = LineEvent { label, line };
        Ok(Some(NumberedEvent { event, number }))
    }
}
