//! The lines of sessions: for the command `sessions` of msc_cmd.

ghost use Rattle.std.specs.Prelude.{◌≡◌, IfOk};
ghost use Rattle.judge_report.specs.SessionTexts.{session_line, sessions_end};

use crate::texts::verdict_text;
use msc_base::{Name, NoMemory, Text, Verdict};
use std::alloc::Global;

/// The line of a session: its key, and the verdict on its events.
pub fn session_line(alloc: Global, key: &Name, verdict: &Verdict) -> Result<Text, NoMemory>
    ensures { IfOk result (λ text. text ≡ session_line key.now verdict.now) }
{
    let line = verdict_text(alloc, verdict, false)?;
    let mut bytes = Vec::from_slice(alloc, key.bytes())?;
    bytes.extend_from_slice(": ".as_bytes())?;
    bytes.extend_from_slice(line.bytes())?;
    Ok(Text::from_vec(bytes))
}

/// The line behind those of all sessions: how many they are.
pub fn sessions_end(alloc: Global, sessions: u64) -> Result<Text, NoMemory>
    ensures { IfOk result (λ text. text ≡ sessions_end sessions) }
{
    let line = format!(in alloc; "sessions {sessions}\n")?;
    Text::from_bytes(alloc, line.as_bytes())
}
