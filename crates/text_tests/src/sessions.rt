//! Logs of many sessions in pieces, in both forms, and what they say.
use crate::events::{add_label, line_of};
use event_log::{LogFault, LogForm};
use label_table::LabelTable;
use session_log::{KeyedNumberedEvent, SessionReader};
use std::alloc::Global;
use std::test::Fail;

/// Logs of the text form: the log, what it says, and the rule that it shows.
static TEXT_LOGS: [(&str, &str, &str); 6] = [
    (
        "s1 = i: out a to j;\ns2 = j: in a from i;\ns1 = j: in a from i;",
        "s1 0 1 i out a j / s2 1 2 j in a i / s1 0 3 j in a i / ok",
        "sessions are numbered in the order of their first lines",
    ),
    (
        "/* x */ s.1=i:action 'it''s' ;\n\n12 = i: set T;\n",
        "s.1 0 1 i action 'it''s' - / 12 1 3 i start T - / ok",
        "a key is a name, and notes, blanks and empty lines pass",
    ),
    (
        "log 2;\nlog = i: create c;\n",
        "log 0 2 i create c c / ok",
        "line 1 may state a version, and `log` is a key too",
    ),
    (
        "s1 = i: out a to j;\ns1 = s1 = i: out a to j;\n",
        "s1 0 1 i out a j / line 2 syntax",
        "a line has one key",
    ),
    (
        "i: out a to j;\n",
        "line 1 syntax",
        "a line without a key is none",
    ),
    (
        "out = i: out a to j;\n",
        "line 1 syntax",
        "a reserved word is no key",
    ),
];

/// Logs in JSON: the log, what it says, and the rule that it shows.
static JSON_LOGS: [(&str, &str, &str); 5] = [
    (
        "{\"session\":\"s1\",\"at\":\"i\",\"kind\":\"out\",\"text\":\"a\",\"far\":\"j\"}",
        "s1 0 1 i out a j / ok",
        "the member `session` is the key",
    ),
    (
        "{\"session\":\"a\",\"session\":\"\\u0062\",\"at\":\"i\",\"kind\":\"action\",\"text\":\"x\"}\n",
        "b 0 1 i action x - / ok",
        "of a repeated member the last counts, and escapes are read",
    ),
    (
        "{\"at\":\"i\",\"kind\":\"out\",\"text\":\"a\",\"far\":\"j\"}\n",
        "line 1 syntax",
        "a line without a key is none",
    ),
    (
        "{\"session\":\"s 1\",\"at\":\"i\",\"kind\":\"out\",\"text\":\"a\",\"far\":\"j\"}\n",
        "line 1 syntax",
        "a key is a name byte by byte",
    ),
    (
        "{\"session\":\"a\",\"at\":\"i\",\"kind\":\"action\",\"text\":\"x\",\"key\":\"b\"}\n",
        "line 1 syntax",
        "there is no other member",
    ),
];

/// Adds the event as `KEY SESSION LINE AT KIND TEXT FAR / `.
fn add_event(alloc: Global, next: &KeyedNumberedEvent, said: &mut Vec<u8>) -> Result<(), Fail> {
    let session = next.session;
    let number = format!(in alloc; " {session} ")?;
    said.extend_from_slice(next.event.key.name().bytes())?;
    said.extend_from_slice(number.as_bytes())?;
    add_label(alloc, next.event.line, next.event.label.label(), said)
}

/// Adds the events that wait.
fn add_events(
    alloc: Global,
    reader: &mut SessionReader<LabelTable>,
    said: &mut Vec<u8>,
) -> Result<(), Fail> {
    for _ in 0..100 {
        let Some(next) = reader.next_event() else {
            return Ok(());
        };
        add_event(alloc, &next, said)?;
    }
    Ok(())
}

/// What the log says, fed byte by byte: its events, and `ok` or its fault.
fn said_by(alloc: Global, form: LogForm, log: &str) -> Result<Vec<u8>, Fail> {
    let mut reader = SessionReader::new(alloc, form, LabelTable::new(alloc))?;
    let mut said = Vec::new(alloc);
    for byte in log.as_bytes() {
        if !reader.finished() {
            let _ = reader.feed(&[*byte]);
        }
        add_events(alloc, &mut reader, &mut said)?;
    }
    let end = reader.finish();
    add_events(alloc, &mut reader, &mut said)?;
    let words = match end {
        Ok(()) => format!(in alloc; "ok")?,
        Err(LogFault::NoMemory) => format!(in alloc; "no memory")?,
        Err(fault) => {
            let line = line_of(fault);
            format!(in alloc; "line {line} {}", fault.text())?
        }
    };
    said.extend_from_slice(words.as_bytes())?;
    Ok(said)
}

/// The rule of a log that doesn't say what its row has.
fn wrong_row(
    alloc: Global,
    form: LogForm,
    rows: &[(&'static str, &'static str, &'static str)],
) -> Result<&'static str, Fail> {
    for (log, says, rule) in rows {
        let said = said_by(alloc, form, log)?;
        if said.as_slice() != says.as_bytes() {
            return Ok(rule);
        }
    }
    Ok("")
}

/// Each log says what its row has.
#[test]
fn reads_sessions(rt: HostRuntime) -> Result<(), Fail> {
    let alloc = rt.alloc();
    assert_eq!(rt; wrong_row(alloc, LogForm::Lines, &TEXT_LOGS)?, "");
    assert_eq!(rt; wrong_row(alloc, LogForm::Json, &JSON_LOGS)?, "");
    Ok(())
}
