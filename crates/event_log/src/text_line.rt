//! What a line in the notation of charts says, and which kinds of events a version has: for `line`, `log_events` and `object`.

ghost use Rattle.std.specs.Prelude.{◌≡◌, ◌<◌, ◌≤◌, ◌^◌, ◌↔◌, ◌∷◌, [], IfOk, MatchOption, IsTrue, length, All, ℕ};
ghost use Rattle.msc_tokens.specs.Spelling.{Spells};
ghost use Rattle.token_grammar.specs.Languages.{texts};
ghost use Rattle.event_log.specs.Meanings.{IsDigit, LineSays, version_of, StatesVersion, IsEventOf, SaysBy};
ghost use Rattle.msc_base.specs.Only.{Never, Only};
ghost use Rattle.event_log.specs.Objects.{IsAllowed};
ghost use Rattle.event_log.specs.declared.event.LogForm.TheVariants.{Lines};

use crate::Version;
use crate::line::Line;
use crate::meaning::LineMeaning;
use msc_base::{Kind, Label, NoMemory, is_text};
use msc_events::parse_event;
use msc_tokens::{LexFault, Token, TokenList, lex_all};
use std::alloc::Global;
use token_grammar::ParseFault;

/// Whether the bytes are digits.
fn is_digits(bytes: &[u8]) -> bool
    ensures some { IsTrue result → 0 < length bytes.now }
    ensures each { IsTrue result → All IsDigit bytes.now }
    ensures all { 0 < length bytes.now → All IsDigit bytes.now → IsTrue result }
{
    !bytes.is_empty() && bytes.iter().all(|byte| matches!(*byte, b'0'..=b'9'))
}

/// The version that these digits state, if it is one of the two.
fn version_of(digits: &[u8]) -> Option<Version>
    ensures { result ≡ version_of digits.now }
{
    if is_text(digits, "1") {
        return Some(Version::First);
    }
    if is_text(digits, "2") {
        return Some(Version::Second);
    }
    None
}

/// The version that the tokens state, or another, if they are `log`, digits and `;`.
fn stated_version(tokens: &[Token]) -> Option<Option<Version>>
    ensures { MatchOption result (Never (StatesVersion (texts tokens.now))) (λ stated. Only (StatesVersion (texts tokens.now)) stated) }
{
    let [word, digits, end] = tokens else {
        return None;
    };
    let digits = digits.bytes.bytes();
    if !is_text(word.bytes.bytes(), "log") || !is_text(end.bytes.bytes(), ";") {
        return None;
    }
    if !is_digits(digits) {
        return None;
    }
    Some(version_of(digits))
}

/// The version that the tokens state, if they are those of the first line.
fn first_version(number: u64, tokens: &[Token]) -> Option<Option<Version>>
    ensures { MatchOption result (number ≡ 1 → Never (StatesVersion (texts tokens.now)))
        (λ stated. (number ≡ 1) × Only (StatesVersion (texts tokens.now)) stated) }
{
    if number == 1 {
        return stated_version(tokens);
    }
    None
}

/// The tokens of the bytes, if they have any reading as tokens.
pub fn tokens_of(alloc: Global, bytes: &[u8]) -> Result<Option<TokenList>, NoMemory>
    requires { length bytes.now < 2 ^ 63 }
    ensures { IfOk result (λ found. MatchOption found (Never (Spells bytes.now)) (λ tokens. Only (Spells bytes.now) tokens.tokens)) }
{
    match lex_all(alloc, bytes) {
        Ok(tokens) => Ok(Some(tokens)),
        Err(fault) => match fault {
            LexFault::NoMemory => Err(NoMemory),
            _ => Ok(None),
        },
    }
}

/// Whether a log of this version has events of this kind.
pub fn is_allowed(version: Version, kind: Kind) -> bool
    ensures { IsTrue result ↔ IsAllowed version kind }
{
    match kind {
        Kind::Create => version == Version::Second,
        Kind::Output
        | Kind::Input
        | Kind::OutputLost
        | Kind::InputFound
        | Kind::Action
        | Kind::TimerStart
        | Kind::TimerStop
        | Kind::Timeout => true,
    }
}

/// The event that the tokens are, in a log of this version.
pub fn event_of_tokens(
    alloc: Global,
    version: Version,
    tokens: &TokenList,
) -> Result<Option<Label>, NoMemory>
    ensures { IfOk result (λ found. MatchOption found (Never (IsEventOf version (texts tokens.now.tokens)))
        (λ label. Only (IsEventOf version (texts tokens.now.tokens)) label)) }
{
    match parse_event(alloc, tokens) {
        Ok(label) => {
            if is_allowed(version, label.kind) {
                Ok(Some(label))
            } else {
                Ok(None)
            }
        }
        Err(fault) => match fault {
            ParseFault::NoMemory => Err(NoMemory),
            _ => Ok(None),
        },
    }
}

/// What the line of this number says by its tokens, of which there are some.
fn read_tokens<M: LineMeaning>(
    alloc: Global,
    version: Version,
    number: u64,
    tokens: &TokenList,
) -> Result<Line<M::Said>, NoMemory>
    ensures { IfOk result (λ line. SaysBy (StatesVersion (texts tokens.now.tokens)) (M.rules.tokens_are version (texts tokens.now.tokens)) number line) }
{
    if let Some(stated) = first_version(number, tokens.as_slice()) {
        return Ok(Line::VersionLine(stated));
    }
    match M::event_of_tokens(alloc, version, tokens)? {
        Some(event) => Ok(Line::Event(event)),
        None => Ok(Line::NoEvent),
    }
}

/// What the line of this number says in the text form, in a log of this version.
#[tactic(auto, using(crate::proofs::Spelling::says_spelled, crate::proofs::Spelling::says_unspelled))]
pub fn read_text_line<M: LineMeaning>(
    alloc: Global,
    version: Version,
    number: u64,
    bytes: &[u8],
) -> Result<Line<M::Said>, NoMemory>
    requires { length bytes.now < 2 ^ 63 }
    ensures { IfOk result (λ line. LineSays M.rules Lines version number bytes.now line) }
{
    let Some(tokens) = tokens_of(alloc, bytes)? else {
        return Ok(Line::NoEvent);
    };
    if tokens.len() == 0 {
        return Ok(Line::Blank);
    }
    read_tokens::<M>(alloc, version, number, &tokens)
}
