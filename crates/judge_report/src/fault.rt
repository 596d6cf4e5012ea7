//! What is told of each fault: msc_cmd names the fault, and never writes words of its own.

ghost use Rattle.std.specs.Prelude.{◌≡◌, IfOk, string_bytes, true};
ghost use Rattle.event_log.specs.Faults.{IsLogFault};
ghost use Rattle.judge_report.specs.Texts.{IsTold, document_words, fault_line, line_number, log_words, needs_no_escape};

use crate::lines::fault_line_of;
use event_log::LogFault;
use msc_base::{NoMemory, Place, Text};
use msc_rules::Rule;
use std::alloc::{AllocError, Global};

/// Why there is no verdict.
#[derive(Clone, Copy, Debug, PartialEq, Eq)]
pub enum Fault {
    /// The document breaks the rule, at this place.
    Document { rule: Rule, place: Place },
    /// The document has no chart of that name.
    NoChart,
    /// The log has this fault.
    Log { fault: LogFault },
    /// The shelf failed at the document.
    DocumentRead,
    /// The shelf failed at the log.
    LogRead,
    /// The words are no request.
    Usage,
}

/// The line in which a log's fault is decided.
fn line_of_fault(fault: &LogFault) -> u64
    ensures { result ≡ line_number fault.now }
{
    match *fault {
        LogFault::Syntax(line) => line,
        LogFault::LongLine(line) => line,
        LogFault::LogLimit(line) => line,
        LogFault::TooManySessions(line) => line,
        LogFault::Version(line) => line,
        LogFault::NoMemory => 0,
    }
}

/// What is told of a log's fault.
fn words_of_log(alloc: Global, fault: &LogFault) -> Result<String, AllocError>
    requires { IsLogFault fault.now }
    ensures words { IfOk result (λ s. string_bytes s ≡ log_words fault.now) }
    ensures plain { IfOk result (λ s. needs_no_escape (string_bytes s) ≡ true) }
{
    let line = line_of_fault(fault);
    let text = fault.text();
    format!(in alloc; "log refused at line {line}: {text}")
}

/// What is told of a broken rule.
fn words_of_document(alloc: Global, rule: &Rule, place: &Place) -> Result<String, AllocError>
    ensures words { IfOk result (λ s. string_bytes s ≡ document_words rule.now place.now) }
    ensures plain { IfOk result (λ s. needs_no_escape (string_bytes s) ≡ true) }
{
    let line = place.line;
    let column = place.column;
    let text = rule.text();
    format!(in alloc; "document refused at {line}:{column}: {text}")
}

/// The line that tells a fault, as JSON if that is asked; the usage line is plain in any case.
pub fn fault_text(alloc: Global, fault: &Fault, json: bool) -> Result<Text, NoMemory>
    requires { IsTold fault.now }
    ensures { IfOk result (λ line. line ≡ fault_line json fault.now) }
{
    match fault {
        Fault::Document { rule, place } => {
            let words = words_of_document(alloc, rule, place)?;
            fault_line_of(alloc, words.as_str(), json)
        }
        Fault::NoChart => fault_line_of(alloc, "no such chart", json),
        Fault::Log { fault } => {
            let words = words_of_log(alloc, fault)?;
            fault_line_of(alloc, words.as_str(), json)
        }
        Fault::DocumentRead => fault_line_of(alloc, "cannot read the document", json),
        Fault::LogRead => fault_line_of(alloc, "cannot read the log", json),
        Fault::Usage => fault_line_of(alloc, "usage: mscjudge COMMAND WORDS", false),
    }
}
