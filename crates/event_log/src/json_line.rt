//! What a line in JSON says: a version, an event, nothing, or neither: for `line` and `log_events`.

ghost use Rattle.std.specs.Prelude.{◌≡◌, ◌<◌, ◌^◌, ◌↔◌, All, IsTrue, false, IfOk, MatchOption, Some, None, codes, option_map, string_bytes, IsUtf8};
ghost use Rattle.std.specs.List.{list_all};
ghost use Rattle.std.specs.BTreeMap.{keys};
ghost use Rattle.serde_json.specs.View.{view};
ghost use Rattle.serde_json.specs.Find.{get};
ghost use Rattle.serde_json.specs.Read.{read};
ghost use Rattle.event_log.specs.Meanings.{SaysBy, LineSays};
ghost use Rattle.msc_tokens.specs.Spelling.{IsBlank};
ghost use Rattle.msc_base.specs.Only.{Never, Only};
ghost use Rattle.event_log.specs.Objects.{IsVersionObject, IsEventObject, HasEvent, HasMembers, is_version_member, is_event_member, text_at, text_or_none, version_of_number};
ghost use Rattle.event_log.specs.declared.event.LogForm.TheVariants.{Json};

use crate::Version;
use crate::line::Line;
use crate::meaning::LineMeaning;
use crate::object::said_event;
use msc_base::{Label, NoMemory};
use serde_json::{Category, Map, Value};
use std::alloc::Global;

/// Whether the byte is a blank of JSON.
fn is_blank_byte(byte: u8) -> bool
    ensures { IsTrue result ↔ IsBlank byte }
{
    matches!(byte, b'\t' | b'\n' | b'\r' | b' ')
}

/// Whether the line has blanks alone.
fn is_blank(bytes: &[u8]) -> bool
    ensures { IsTrue result ↔ All IsBlank bytes.now }
{
    bytes.iter().all(|byte| is_blank_byte(*byte))
}

/// Whether a member with this name belongs to a version line.
fn is_version_member(key: &str) -> bool
    ensures { result ≡ is_version_member key.now }
{
    key == "log"
}

/// Whether a member with this name belongs to an event.
pub fn is_event_member(key: &str) -> bool
    ensures { result ≡ is_event_member key.now }
{
    key == "at" || key == "kind" || key == "text" || key == "far"
}

/// Whether each member is `log`.
fn are_version_members(members: &Map<String, Value>) -> bool
    ensures { result ≡ list_all (λ k. is_version_member (string_bytes k)) (keys members.now) }
{
    members.keys().all(|key| is_version_member(key.as_str()))
}

/// Whether each member belongs to an event.
fn are_event_members(members: &Map<String, Value>) -> bool
    ensures { result ≡ list_all (λ k. is_event_member (string_bytes k)) (keys members.now) }
{
    members.keys().all(|key| is_event_member(key.as_str()))
}

/// Whether the value is an object with members of a version line alone.
fn has_version_members(value: &Value) -> bool
    ensures { IsTrue result ↔ HasMembers is_version_member (view value.now) }
{
    match value.as_object() {
        Some(members) => are_version_members(members),
        None => false,
    }
}

/// Whether the value is an object with members of an event alone.
fn has_event_members(value: &Value) -> bool
    ensures { IsTrue result ↔ HasMembers is_event_member (view value.now) }
{
    match value.as_object() {
        Some(members) => are_event_members(members),
        None => false,
    }
}

/// The version that the number states, if it is one of the two.
fn version_of_number(number: Option<u64>) -> Option<Version>
    ensures { result ≡ version_of_number number }
{
    match number {
        Some(1) => Some(Version::First),
        Some(2) => Some(Version::Second),
        _ => None,
    }
}

/// The version that the value states, or another, if it is an object with the one member `log`.
fn stated_version(value: &Value) -> Option<Option<Version>>
    ensures { MatchOption result (Never (IsVersionObject (view value.now))) (λ stated. Only (IsVersionObject (view value.now)) stated) }
{
    if !has_version_members(value) {
        return None;
    }
    match value.get("log") {
        Some(number) => Some(version_of_number(number.as_u64())),
        None => None,
    }
}

/// The version that the value states, if it is that of the first line.
fn first_version(number: u64, value: &Value) -> Option<Option<Version>>
    ensures { MatchOption result (number ≡ 1 → Never (IsVersionObject (view value.now)))
        (λ stated. (number ≡ 1) × Only (IsVersionObject (view value.now)) stated) }
{
    if number == 1 {
        return stated_version(value);
    }
    None
}

/// A member that is a text.
pub fn text_at<'a>(value: &'a Value, key: &str) -> Option<&'a str>
    ensures { option_map (λ s. s.now) result ≡ text_at key.now (view value.now) }
{
    value.get(key).and_then(Value::as_str)
}

/// The member `far`, which may be missing and else is a text.
fn far_at(value: &Value) -> Option<Option<&str>>
    ensures { option_map (λ o. option_map (λ s. s.now) o) result ≡ text_or_none (get (codes "far") (view value.now)) }
{
    match value.get("far") {
        None => Some(None),
        Some(far) => match far.as_str() {
            None => None,
            Some(far) => Some(Some(far)),
        },
    }
}

/// The event that the members of an event say, in a log of this version.
pub fn event_of_members(
    alloc: Global,
    version: Version,
    value: &Value,
) -> Result<Option<Label>, NoMemory>
    ensures { IfOk result (λ found. MatchOption found (Never (HasEvent version (view value.now)))
        (λ label. Only (HasEvent version (view value.now)) label)) }
{
    let Some(at) = text_at(value, "at") else {
        return Ok(None);
    };
    let Some(kind) = text_at(value, "kind") else {
        return Ok(None);
    };
    let Some(text) = text_at(value, "text") else {
        return Ok(None);
    };
    let Some(far) = far_at(value) else {
        return Ok(None);
    };
    said_event(alloc, version, at, kind, text, far)
}

/// The event that the value is, in a log of this version.
pub fn object_event(
    alloc: Global,
    version: Version,
    value: &Value,
) -> Result<Option<Label>, NoMemory>
    ensures { IfOk result (λ found. MatchOption found (Never (IsEventObject version (view value.now)))
        (λ label. Only (IsEventObject version (view value.now)) label)) }
{
    if !has_event_members(value) {
        return Ok(None);
    }
    event_of_members(alloc, version, value)
}

/// What the line of this number says by its value.
fn read_value<M: LineMeaning>(
    alloc: Global,
    version: Version,
    number: u64,
    value: &Value,
) -> Result<Line<M::Said>, NoMemory>
    ensures { IfOk result (λ line. SaysBy (IsVersionObject (view value.now)) (M.rules.value_is version (view value.now)) number line) }
{
    if let Some(stated) = first_version(number, value) {
        return Ok(Line::VersionLine(stated));
    }
    match M::event_of_value(alloc, version, value)? {
        Some(event) => Ok(Line::Event(event)),
        None => Ok(Line::NoEvent),
    }
}

/// The value that the bytes are in JSON, if they are one.
fn value_of(alloc: Global, bytes: &[u8]) -> Result<Option<Value>, NoMemory>
    ensures { IfOk result (λ found. MatchOption found (IsUtf8 bytes.now → read bytes.now ≡ None) (λ value. IsUtf8 bytes.now × (read bytes.now ≡ Some (view value)))) }
{
    match Value::from_slice(alloc, bytes) {
        Ok(value) => Ok(Some(value)),
        Err(error) => match error.classify() {
            Category::Memory => Err(NoMemory),
            _ => Ok(None),
        },
    }
}

/// What the line of this number says in JSON, in a log of this version.
pub fn read_json_line<M: LineMeaning>(
    alloc: Global,
    version: Version,
    number: u64,
    bytes: &[u8],
) -> Result<Line<M::Said>, NoMemory>
    ensures { IfOk result (λ line. LineSays M.rules Json version number bytes.now line) }
{
    if is_blank(bytes) {
        return Ok(Line::Blank);
    }
    let Some(value) = value_of(alloc, bytes)? else {
        return Ok(Line::NoEvent);
    };
    read_value::<M>(alloc, version, number, &value)
}
