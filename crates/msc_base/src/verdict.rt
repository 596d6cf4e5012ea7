//! The verdict on a log: msc_cmd and trace_judge give it, judge_report prints it.

/// What a log is for a chart. Events count from 1.
#[derive(Clone, Copy, Debug, PartialEq, Eq)]
pub enum Verdict {
    /// The log is a run; it has so many events.
    Conforms { events: u64 },
    /// The first event after which no run of the chart begins so, and its line.
    Fails { event: u64, line: u64 },
    /// The log begins a run and is none; it has so many events.
    Early { events: u64 },
    /// The first event at which the budget is passed; 0 stands for the moment before the first.
    TooLarge { event: u64 },
}
