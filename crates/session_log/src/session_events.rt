//! The events of a log of many sessions: what its lines say, and how many sessions it may have.

ghost use Rattle.std.specs.Prelude.{◌≡◌};
ghost use Rattle.session_log.specs.Sessions.{session_rules, event_of, IsNumbered};

use crate::keyed_tokens::keyed_event;
use crate::keyed_values::keyed_object;
use crate::{KeyedEvent, KeyedLabel, KeyedNumberedEvent, SessionKeys};
use event_log::{LineMeaning, LineReader, Version};
use msc_base::{Label, NoMemory};
use msc_tokens::TokenList;
use serde_json::Value;
use std::alloc::Global;

/// Each line is one event of a session, and there are 1,000 sessions at most.
#[derive(Drop)]
pub struct SessionEvents;

/// The reader of a log of many sessions.
pub type SessionReader<N> = LineReader<SessionEvents, N>;

impl LineMeaning for SessionEvents {
    type Said = KeyedLabel;

    type Event = KeyedEvent;

    type Entry = KeyedNumberedEvent;

    type Met = SessionKeys;

    ghost rules = { session_rules };

    ghost event_of = { event_of };

    ghost is_numbered = { IsNumbered };

    fn nothing_met(alloc: Global) -> SessionKeys {
        SessionKeys::new(alloc)
    }

    fn event_of_tokens(
        alloc: Global,
        version: Version,
        tokens: &TokenList,
    ) -> Result<Option<KeyedLabel>, NoMemory> {
        keyed_event(alloc, version, tokens)
    }

    fn event_of_value(
        alloc: Global,
        version: Version,
        value: &Value,
    ) -> Result<Option<KeyedLabel>, NoMemory> {
        keyed_object(alloc, version, value)
    }

    fn label_of(event: &KeyedLabel) -> &Label {
        event.label.label()
    }

    fn copy(event: &KeyedLabel) -> Result<KeyedLabel, NoMemory> {
        event.copy()
    }

    fn entry(
        alloc: Global,
        keys: &mut SessionKeys,
        event: KeyedLabel,
        number: Option<u32>,
        line: u64,
    ) -> Result<Option<KeyedNumberedEvent>, NoMemory> {
        let KeyedLabel { key, label } = event;
        let Some(session) = keys.session_of(alloc, key.name().bytes())? else {
            return Ok(None);
        };
        let event = KeyedEvent { key, label, line };
        Ok(Some(KeyedNumberedEvent {
            event,
            session,
            number,
        }))
    }
}
