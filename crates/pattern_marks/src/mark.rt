//! A pattern with places as marks.

use chart_term::Event;

/// What stands in a pattern, from its first event to its last.
#[derive(Clone, Copy)]
pub enum Mark {
    /// An event, with its place in the log.
    Event {
        /// The event.
        event: Event,
        /// Its place.
        place: u64,
    },
    /// Two parts side by side begin, the first of them.
    Open,
    /// The first of two parts side by side ends, and the second begins.
    Next,
    /// Two parts side by side end.
    Close,
    /// What is below a tie begins.
    OpenTie,
    /// What is below the tie of this number in the outline ends.
    CloseTie(usize),
}
