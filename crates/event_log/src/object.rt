//! The event that the members of a JSON object say: for `json_line` alone.

ghost use Rattle.std.specs.Prelude.{◌≡◌, ◌<◌, ◌^◌, ◌↔◌, length, IfOk, MatchOption, Some, None, option_map};
ghost use Rattle.msc_base.specs.Names.{IsName};
ghost use Rattle.token_grammar.specs.Languages.{texts};
ghost use Rattle.msc_events.specs.LogEvents.{ReadsText};
ghost use Rattle.msc_base.specs.Only.{Never, Only};
ghost use Rattle.event_log.specs.Objects.{Said, Spelled, IsSaid, IsFarOf, IsEnd, IsInstance, kind_of, message_kind_of, local_kind_of};

use crate::Version;
use crate::text_line::{is_allowed, tokens_of};
use msc_base::{Far, Kind, Label, Name, NameRefused, NoMemory, Text};
use msc_events::parse_text;
use msc_tokens::TokenList;
use std::alloc::Global;
use token_grammar::ParseFault;

/// The kind with a message that the text names.
fn message_kind_of(text: &str) -> Option<Kind>
    ensures { result ≡ message_kind_of text.now }
{
    if text == "out" {
        return Some(Kind::Output);
    }
    if text == "in" {
        return Some(Kind::Input);
    }
    if text == "lost" {
        return Some(Kind::OutputLost);
    }
    if text == "found" {
        return Some(Kind::InputFound);
    }
    None
}

/// The kind without a message that the text names.
fn local_kind_of(text: &str) -> Option<Kind>
    ensures { result ≡ local_kind_of text.now }
{
    if text == "action" {
        return Some(Kind::Action);
    }
    if text == "start" {
        return Some(Kind::TimerStart);
    }
    if text == "stop" {
        return Some(Kind::TimerStop);
    }
    if text == "timeout" {
        return Some(Kind::Timeout);
    }
    if text == "create" {
        return Some(Kind::Create);
    }
    None
}

/// The kind that the text names.
fn kind_of(text: &str) -> Option<Kind>
    ensures { result ≡ kind_of text.now }
{
    match message_kind_of(text) {
        Some(kind) => Some(kind),
        None => local_kind_of(text),
    }
}

/// The name that the bytes are.
pub fn name_of(alloc: Global, bytes: &[u8]) -> Result<Option<Name>, NoMemory>
    ensures { IfOk result (λ found. MatchOption found (IsName bytes.now → ⊥) (λ name. IsName bytes.now × (name ≡ bytes.now))) }
{
    match Name::from_bytes(alloc, bytes) {
        Ok(name) => Ok(Some(name)),
        Err(NameRefused::NotAName) => Ok(None),
        Err(NameRefused::NoMemory) => Err(NoMemory),
    }
}

/// The far end that the bytes are as a name.
fn instance_of(alloc: Global, bytes: &[u8]) -> Result<Option<Far>, NoMemory>
    ensures { IfOk result (λ found. MatchOption found (Never (IsInstance bytes.now)) (λ far. IsInstance bytes.now far)) }
{
    match name_of(alloc, bytes)? {
        Some(name) => Ok(Some(Far::Instance(name))),
        None => Ok(None),
    }
}

/// The far end that the text is: `env`, or a name.
fn end_of(alloc: Global, text: &str) -> Result<Option<Far>, NoMemory>
    ensures { IfOk result (λ found. MatchOption found (Never (IsEnd text.now)) (λ far. IsEnd text.now far)) }
{
    if text == "env" {
        return Ok(Some(Far::Env));
    }
    instance_of(alloc, text.as_bytes())
}

/// The far end of an event of this kind, whose text and far member are these.
fn far_of(
    alloc: Global,
    kind: Kind,
    text: &Text,
    far: Option<&str>,
) -> Result<Option<Far>, NoMemory>
    ensures { IfOk result (λ found. MatchOption found (Never (IsFarOf kind text.now (option_map (λ s. s.now) far.entry)))
        (λ end. IsFarOf kind text.now (option_map (λ s. s.now) far.entry) end)) }
{
    match kind {
        Kind::Output | Kind::Input => match far {
            Some(name) => end_of(alloc, name),
            None => Ok(None),
        },
        Kind::OutputLost | Kind::InputFound => match far {
            Some(name) => instance_of(alloc, name.as_bytes()),
            None => Ok(Some(Far::Nobody)),
        },
        Kind::Create => match far {
            Some(_) => Ok(None),
            None => instance_of(alloc, text.bytes()),
        },
        Kind::Action | Kind::TimerStart | Kind::TimerStop | Kind::Timeout => match far {
            Some(_) => Ok(None),
            None => Ok(Some(Far::Nobody)),
        },
    }
}

/// The text, in the form of a label, that the tokens are for an event of this kind.
fn text_of_tokens(alloc: Global, kind: Kind, tokens: &TokenList) -> Result<Option<Text>, NoMemory>
    ensures { IfOk result (λ found. MatchOption found (Never (ReadsText kind (texts tokens.now.tokens)))
        (λ text. Only (ReadsText kind (texts tokens.now.tokens)) text)) }
{
    match parse_text(alloc, kind, tokens) {
        Ok(text) => Ok(Some(text)),
        Err(fault) => match fault {
            ParseFault::NoMemory => Err(NoMemory),
            _ => Ok(None),
        },
    }
}

/// The text, in the form of a label, that the bytes are for an event of this kind.
fn text_of(alloc: Global, kind: Kind, bytes: &[u8]) -> Result<Option<Text>, NoMemory>
    requires { length bytes.now < 2 ^ 63 }
    ensures { IfOk result (λ found. MatchOption found (Never (Spelled (ReadsText kind) bytes.now))
        (λ text. Only (Spelled (ReadsText kind) bytes.now) text)) }
{
    let Some(tokens) = tokens_of(alloc, bytes)? else {
        return Ok(None);
    };
    text_of_tokens(alloc, kind, &tokens)
}

/// The event that the texts of the members are, in a log of this version.
pub fn said_event(
    alloc: Global,
    version: Version,
    at: &str,
    kind: &str,
    text: &str,
    far: Option<&str>,
) -> Result<Option<Label>, NoMemory>
    requires { length text.now < 2 ^ 63 }
    ensures { IfOk result (λ found.
        let said : Said = record { at = at.now; kind = kind.now; text = text.now; far = option_map (λ s. s.now) far.entry } in
        MatchOption found (Never (IsSaid version said)) (λ label. Only (IsSaid version said) label)) }
{
    let Some(kind) = kind_of(kind) else {
        return Ok(None);
    };
    if !is_allowed(version, kind) {
        return Ok(None);
    }
    let Some(at) = name_of(alloc, at.as_bytes())? else {
        return Ok(None);
    };
    let Some(text) = text_of(alloc, kind, text.as_bytes())? else {
        return Ok(None);
    };
    let Some(far) = far_of(alloc, kind, &text, far)? else {
        return Ok(None);
    };
    Ok(Some(Label {
        at,
        kind,
        text,
        far,
    }))
}
