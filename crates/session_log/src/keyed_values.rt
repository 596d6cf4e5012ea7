//! The event of a session that the JSON value of a line is.

ghost use Rattle.std.specs.Prelude.{◌≡◌, ◌↔◌, ℕ, List, IsTrue, IfOk, MatchOption, Some, codes, string_bytes};
ghost use Rattle.std.specs.List.{list_all};
ghost use Rattle.std.specs.BTreeMap.{keys};
ghost use Rattle.serde_json.specs.View.{view};
ghost use Rattle.event_log.specs.Objects.{HasMembers, text_at};
ghost use Rattle.msc_base.specs.Names.{IsName};
ghost use Rattle.msc_base.specs.Only.{Never, Only};
ghost use Rattle.session_log.specs.Sessions.{is_session_member, IsKeyedObject};

use crate::KeyedLabel;
use event_log::{Version, event_of_members, is_event_member, name_of, text_at};
use msc_base::{Name, NoMemory};
use serde_json::{Map, Value};
use std::alloc::Global;

/// Whether a member with this name belongs to an event of a session.
fn is_session_member(key: &str) -> bool
    ensures { result ≡ is_session_member key.now }
{
    is_event_member(key) || key == "session"
}

/// Whether each member belongs to an event of a session.
fn are_session_members(members: &Map<String, Value>) -> bool
    ensures { result ≡ list_all (λ k. is_session_member (string_bytes k)) (keys members.now) }
{
    members.keys().all(|key| is_session_member(key.as_str()))
}

/// Whether the value is an object with members of an event of a session alone.
fn has_session_members(value: &Value) -> bool
    ensures { IsTrue result ↔ HasMembers is_session_member (view value.now) }
{
    match value.as_object() {
        Some(members) => are_session_members(members),
        None => false,
    }
}

/// The key that the member `session` is, if it is a name.
fn key_at(alloc: Global, value: &Value) -> Result<Option<Name>, NoMemory>
    ensures { IfOk result (λ found. MatchOption found
        ((key : List ℕ) → text_at (codes "session") (view value.now) ≡ Some key → IsName key → ⊥)
        (λ key. (text_at (codes "session") (view value.now) ≡ Some key) × IsName key)) }
{
    match text_at(value, "session") {
        Some(key) => name_of(alloc, key.as_bytes()),
        None => Ok(None),
    }
}

/// The event of a session that the value is, in a log of this version.
pub fn keyed_object(
    alloc: Global,
    version: Version,
    value: &Value,
) -> Result<Option<KeyedLabel>, NoMemory>
    ensures { IfOk result (λ found. MatchOption found (Never (IsKeyedObject version (view value.now)))
        (λ event. Only (IsKeyedObject version (view value.now)) event)) }
{
    if !has_session_members(value) {
        return Ok(None);
    }
    let Some(key) = key_at(alloc, value)? else {
        return Ok(None);
    };
    match event_of_members(alloc, version, value)? {
        Some(label) => Ok(Some(KeyedLabel::new(alloc, key, label)?)),
        None => Ok(None),
    }
}
