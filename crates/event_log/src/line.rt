//! What a line says, in either form: for `reader`, which counts lines.

ghost use Rattle.std.specs.Prelude.{◌≡◌, ◌<◌, ◌≤◌, ◌^◌, ◌↔◌, IfOk, length};
ghost use Rattle.event_log.specs.Meanings.{LineSays};

use crate::json_line::read_json_line;
use crate::meaning::LineMeaning;
use crate::text_line::read_text_line;
use crate::{LogForm, Version};
use msc_base::NoMemory;
use std::alloc::Global;

/// What a line of a log says.
#[derive(Drop)]
pub enum Line<S> {
    /// It has no token.
    Blank,
    /// It is the first, and states a version: one of the two, or another.
    VersionLine(Option<Version>),
    /// It is one event.
    Event(S),
    /// It is none of these.
    NoEvent,
}

/// The same once more.
pub fn copy_line<M: LineMeaning>(line: &Line<M::Said>) -> Result<Line<M::Said>, NoMemory>
    ensures { IfOk result (λ other. other ≡ line.now) }
{
    match line {
        Line::Blank => Ok(Line::Blank),
        Line::VersionLine(stated) => Ok(Line::VersionLine(*stated)),
        Line::Event(event) => Ok(Line::Event(M::copy(event)?)),
        Line::NoEvent => Ok(Line::NoEvent),
    }
}

/// What the line of this number says, in a log of this version.
pub fn read_line<M: LineMeaning>(
    alloc: Global,
    form: LogForm,
    version: Version,
    number: u64,
    bytes: &[u8],
) -> Result<Line<M::Said>, NoMemory>
    requires { length bytes.now < 2 ^ 63 }
    ensures { IfOk result (λ line. LineSays M.rules form version number bytes.now line) }
{
    match form {
        LogForm::Lines => read_text_line::<M>(alloc, version, number, bytes),
        LogForm::Json => read_json_line::<M>(alloc, version, number, bytes),
    }
}
