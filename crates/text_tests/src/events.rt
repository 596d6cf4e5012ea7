//! Logs of both forms in pieces, and what they say.
use event_log::{LineEvent, LogFault, LogForm, LogReader};
use label_table::LabelTable;
use msc_base::{Far, Kind, Label};
use std::alloc::Global;
use std::test::Fail;

/// Logs of the text form: the log, what it says, and the rule that it shows.
static TEXT_LOGS: [(&str, &str, &str); 5] = [
    (
        "\n\ni: out a , p ( b , 'c d' ) to j;\n\nj: in a(b,'c d') from i",
        "3 i out a(b,'c d') j / line 5 syntax",
        "lines that pass count, and a text has no blanks and no pairing name",
    ),
    (
        "i: out a to env;\ni: out a to lost;\ni: in a from found j;\n",
        "1 i out a env / 2 i lost a - / 3 i found a j / ok",
        "a far end is the environment, nobody or an instance",
    ),
    (
        "i: set T;\ni: reset T;\ni: timeout T;\ni: action 'it''s';",
        "1 i start T - / 2 i stop T - / 3 i timeout T - / 4 i action 'it''s' - / ok",
        "timers and actions have no far end",
    ),
    (
        "log 2;\ni: create k;\nk: action 'x';\n",
        "2 i create k k / 3 k action 'x' - / ok",
        "version 2 has creations beside the events of version 1",
    ),
    (
        "i: out a to j;\nx\ni: out a to j;\n",
        "1 i out a j / line 2 syntax",
        "events before a fault are handed out, those behind aren't",
    ),
];

/// Logs in JSON: the log, what it says, and the rule that it shows.
static JSON_LOGS: [(&str, &str, &str); 4] = [
    (
        "{\"at\":\"i\",\"kind\":\"out\",\"text\":\" a ( b ) \",\"far\":\"j\"}\n{\"at\":\"j\",\"kind\":\"found\",\"text\":\"a\"}",
        "1 i out a(b) j / 2 j found a - / ok",
        "the tokens of a text are put together as those of a line",
    ),
    (
        "{\"log\":2}\n{\"at\":\"i\",\"kind\":\"create\",\"text\":\"k\"}\n",
        "2 i create k k / ok",
        "version 2 has creations",
    ),
    (
        "{\"at\":7,\"kind\":\"out\",\"text\":\"a\",\"far\":\"j\",\"at\":\"\\u0069\"}\n",
        "1 i out a j / ok",
        "of a repeated member the last counts, and escapes are read",
    ),
    (
        "{\"log\":1.0}\n",
        "line 1 version",
        "a version has no point",
    ),
];

/// The kind in a word.
fn kind_word(kind: Kind) -> &'static str {
    match kind {
        Kind::Output => "out",
        Kind::Input => "in",
        Kind::OutputLost => "lost",
        Kind::InputFound => "found",
        Kind::Action => "action",
        Kind::TimerStart => "start",
        Kind::TimerStop => "stop",
        Kind::Timeout => "timeout",
        Kind::Create => "create",
    }
}

/// The number of the line in which the fault is decided.
pub(crate) fn line_of(fault: LogFault) -> u64 {
    match fault {
        LogFault::Syntax(line)
        | LogFault::LongLine(line)
        | LogFault::LogLimit(line)
        | LogFault::TooManySessions(line)
        | LogFault::Version(line) => line,
        LogFault::NoMemory => 0,
    }
}

/// Adds the event with this label as `LINE AT KIND TEXT FAR / `.
pub(crate) fn add_label(
    alloc: Global,
    line: u64,
    label: &Label,
    said: &mut Vec<u8>,
) -> Result<(), Fail> {
    let head = format!(in alloc; "{line} ")?;
    said.extend_from_slice(head.as_bytes())?;
    said.extend_from_slice(label.at.bytes())?;
    said.extend_from_slice(b" ")?;
    said.extend_from_slice(kind_word(label.kind).as_bytes())?;
    said.extend_from_slice(b" ")?;
    said.extend_from_slice(label.text.bytes())?;
    said.extend_from_slice(b" ")?;
    match &label.far {
        Far::Nobody => said.extend_from_slice(b"-")?,
        Far::Env => said.extend_from_slice(b"env")?,
        Far::Instance(name) => said.extend_from_slice(name.bytes())?,
    }
    said.extend_from_slice(b" / ")?;
    Ok(())
}

/// Adds the event as `LINE AT KIND TEXT FAR / `.
fn add_event(alloc: Global, event: &LineEvent, said: &mut Vec<u8>) -> Result<(), Fail> {
    add_label(alloc, event.line, event.label.label(), said)
}

/// Adds the events that wait.
fn add_events(
    alloc: Global,
    reader: &mut LogReader<LabelTable>,
    said: &mut Vec<u8>,
) -> Result<(), Fail> {
    for _ in 0..100 {
        let Some(next) = reader.next_event() else {
            return Ok(());
        };
        add_event(alloc, &next.event, said)?;
    }
    Ok(())
}

/// Feeds the log byte by byte, or whole, ends it, and adds its events.
fn feed_log(
    alloc: Global,
    reader: &mut LogReader<LabelTable>,
    log: &str,
    whole: bool,
    said: &mut Vec<u8>,
) -> Result<Result<(), LogFault>, Fail> {
    if whole {
        if !reader.finished() {
            let _ = reader.feed(log.as_bytes());
        }
        add_events(alloc, reader, said)?;
    } else {
        for byte in log.as_bytes() {
            if !reader.finished() {
                let _ = reader.feed(&[*byte]);
            }
            add_events(alloc, reader, said)?;
        }
    }
    let end = reader.finish();
    add_events(alloc, reader, said)?;
    Ok(end)
}

/// What the log says: its events, and `ok` or its fault.
fn said_by(alloc: Global, form: LogForm, log: &str, whole: bool) -> Result<Vec<u8>, Fail> {
    let mut reader = LogReader::new(alloc, form, LabelTable::new(alloc))?;
    let mut said = Vec::new(alloc);
    let end = feed_log(alloc, &mut reader, log, whole, &mut said)?;
    let words = match end {
        Ok(()) => format!(in alloc; "ok")?,
        Err(LogFault::NoMemory) => format!(in alloc; "no memory")?,
        Err(fault) => {
            let line = line_of(fault);
            format!(in alloc; "line {line} {}", fault.text())?
        }
    };
    said.extend_from_slice(words.as_bytes())?;
    Ok(said)
}

/// The rule of a log that doesn't say what its row has.
fn wrong_row(
    alloc: Global,
    form: LogForm,
    rows: &[(&'static str, &'static str, &'static str)],
    whole: bool,
) -> Result<&'static str, Fail> {
    for (log, says, rule) in rows {
        let said = said_by(alloc, form, log, whole)?;
        if said.as_slice() != says.as_bytes() {
            return Ok(rule);
        }
    }
    Ok("")
}

/// Each log says what its row has, fed byte by byte and whole.
#[test]
fn reads_logs(rt: HostRuntime) -> Result<(), Fail> {
    let alloc = rt.alloc();
    for whole in [false, true] {
        assert_eq!(rt; wrong_row(alloc, LogForm::Lines, &TEXT_LOGS, whole)?, "");
        assert_eq!(rt; wrong_row(alloc, LogForm::Json, &JSON_LOGS, whole)?, "");
    }
    Ok(())
}

/// A line of 4,096 bytes passes; a fault is decided at the next byte, before the line's end, whatever the pieces are.
#[test]
fn long_lines(rt: HostRuntime) -> Result<(), Fail> {
    let alloc = rt.alloc();
    let line = vec![in alloc; b' '; 4096]?;
    for form in [LogForm::Lines, LogForm::Json] {
        for cut in [0usize, 1, 4095, 4096] {
            let (front, back) = line.as_slice().split_at(cut.min(line.len()));
            let mut reader = LogReader::new(alloc, form, LabelTable::new(alloc))?;
            assert!(rt; reader.feed(b"\n").is_ok());
            assert!(rt; reader.feed(front).is_ok());
            assert!(rt; reader.feed(back).is_ok(), "at {cut}");
            assert_eq!(rt; reader.feed(b" "), Err(LogFault::LongLine(2)), "at {cut}");

            let mut reader = LogReader::new(alloc, form, LabelTable::new(alloc))?;
            assert!(rt; reader.feed(front).is_ok());
            assert!(rt; reader.feed(back).is_ok());
            assert!(rt; reader.feed(b"\n").is_ok(), "at {cut}");
            assert!(rt; reader.finish().is_ok(), "at {cut}");
        }
    }
    Ok(())
}

/// A fault that was answered is answered again, and the events before it are still handed out.
#[test]
fn stays_refused(rt: HostRuntime) -> Result<(), Fail> {
    let alloc = rt.alloc();
    let mut reader = LogReader::new(alloc, LogForm::Lines, LabelTable::new(alloc))?;
    let bad = Err(LogFault::Syntax(2));
    assert_eq!(rt; reader.feed(b"i: action b;\nx\ni: action c;\n"), bad);
    assert!(rt; !reader.finished());
    assert_eq!(rt; reader.feed(b"i: action d;\n"), bad);
    assert_eq!(rt; reader.finish(), bad);
    assert!(rt; reader.finished());
    assert_eq!(rt; reader.finish(), bad);
    let mut said = Vec::new(alloc);
    add_events(alloc, &mut reader, &mut said)?;
    assert_eq!(rt; said.as_slice(), b"1 i action b - / ".as_slice());
    Ok(())
}
