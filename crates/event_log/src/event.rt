//! Form and version of a log, and its faults: what msc_cmd and log_judge see of logs beside its events.

ghost use Rattle.std.specs.Prelude.{◌≡◌};
ghost use Rattle.event_log.specs.Faults.{IsLogFault, fault_text};
ghost use Rattle.event_log.specs.declared.event.LogFault.TheVariants.{NoMemory};

use msc_base::NoMemory;

/// How the lines of a log are written.
#[derive(Clone, Copy, Debug, PartialEq, Eq)]
pub enum LogForm {
    /// Each line is the tokens of an event.
    Lines,
    /// Each line is a JSON object.
    Json,
}

/// The version of a log, which its first line may state.
#[derive(Clone, Copy, Debug, PartialEq, Eq)]
pub enum Version {
    /// Version 1, and where no line states one. It has no creations.
    First,
    /// Version 2.
    Second,
}

/// The first fault of a log, with the number of the line in which it is decided.
#[derive(Clone, Copy, Debug, PartialEq, Eq)]
pub enum LogFault {
    /// The line is neither blank nor an event.
    Syntax(u64),
    /// The line has more than 4,096 bytes.
    LongLine(u64),
    /// The log has more than 67,108,864 bytes or more than 1,000,000 events.
    LogLimit(u64),
    /// The log has more keys of sessions than 1,000.
    TooManySessions(u64),
    /// The first line states another version than 1 and 2.
    Version(u64),
    /// Want of memory.
    NoMemory,
}

impl From<NoMemory> for LogFault {
    ghost from_gives = { λ _ e. e ≡ NoMemory };

    fn from(_: NoMemory) -> Self {
        LogFault::NoMemory
    }
}

impl LogFault {
    /// The fault in words. The fault isn't want of memory.
    pub fn text(&self) -> &str
        requires { IsLogFault self.now }
        ensures { result.now ≡ fault_text self.now }
    {
        match self {
            LogFault::Syntax(_) => "syntax",
            LogFault::LongLine(_) => "long line",
            LogFault::LogLimit(_) => "limit",
            LogFault::TooManySessions(_) => "sessions",
            LogFault::Version(_) => "version",
            LogFault::NoMemory => unreachable!(),
        }
    }
}
