//! The verdict on a session.

use msc_base::{Items, Verdict};
use session_log::SharedName;

/// The verdict on the events of a session.
#[derive(Drop)]
pub struct SessionVerdict {
    /// The key of the session.
    pub key: SharedName,
    /// Its events are counted within the session. Its lines are those of the whole log.
    pub verdict: Verdict,
}

/// Verdicts on sessions.
pub type SessionVerdictList = Items<SessionVerdict>;
