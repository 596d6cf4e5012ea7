//! What the words ask for, and the bounds of its numbers.

use event_log::LogForm;
use msc_base::Text;

/// The most turns that a sample may have: its log stays within the limits of logs.
pub const MOST_TURNS: u64 = 250_000;

/// The greatest seed. No number that is drawn is greater.
pub const MOST_SEED: u64 = 2_147_483_647;

/// The greatest budget of a session.
pub const SESSION_BUDGET_MOST: u64 = 20_000;

/// The budget of a session, where none is asked for.
pub const SESSION_BUDGET_DEFAULT: u64 = 10_000;

/// What the words ask for.
#[derive(Drop)]
pub enum Request {
    /// Judge this log by this chart of this document.
    Judge {
        document: Text,
        chart: Text,
        log: Text,
        budget: u64,
        json: bool,
        form: LogForm,
    },
    /// List the labels that may come next in this log, by this chart of this document.
    Next {
        document: Text,
        chart: Text,
        log: Text,
        budget: u64,
    },
    /// Judge each session of this log by itself, by this chart of this document.
    Sessions {
        document: Text,
        chart: Text,
        log: Text,
        /// That of each session.
        budget: u64,
        form: LogForm,
    },
    /// List the choices of this chart of this document that several instances make.
    Choices {
        document: Text,
        chart: Text,
    },
    /// Say whether this document is accepted.
    Check {
        document: Text,
        json: bool,
    },
    /// List the charts of this document, or the instances of the chart that is named.
    List {
        document: Text,
        chart: Option<Text>,
        json: bool,
    },
    /// Print this document in its canonical form.
    Print {
        document: Text,
    },
    /// Make a sample of so many turns from this seed, and judge it.
    Sample {
        turns: u64,
        seed: u64,
    },
}

/// Why the words give no request.
#[derive(Clone, Copy, Debug, PartialEq, Eq)]
pub enum WordFault {
    /// They are none.
    NoRequest,
    /// Want of memory.
    NoMemory,
}
