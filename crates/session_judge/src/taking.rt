//! Hands each event of the reader to the tracks once, after each piece and at the end: for `sessions` alone.

ghost use Rattle.std.specs.Prelude.{◌≡◌, ◌++◌, ℕ, List, true, false, not, OnOk, IfErr};
ghost use Rattle.event_log.specs.declared.event.LogForm.{LogForm};
ghost use Rattle.log_judge.specs.RuledFaults.{IsJudgeFault};
ghost use Rattle.log_judge.specs.RuledTaking.{IsBehind};
ghost use Rattle.session_judge.specs.States.{IsCounted, TakesSome, TakesAll, TakesLog};
ghost use Rattle.session_judge.specs.Tracks.{StaysMade};
ghost use Rattle.session_log.specs.Sessions.{session_rules};

use crate::tracks::SessionTracks;
use log_judge::{JudgeFault, TableNumbers, fault_of};
use msc_base::NoMemory;
use session_log::SessionReader;
use trace_judge::Store;

/// Takes all events that the reader can hand out.
pub fn take_waiting<S: Store + Drop>(
    reader: &mut SessionReader<TableNumbers>,
    tracks: &mut SessionTracks<S>,
) -> Result<(), NoMemory>
    requires counted { IsCounted reader.old tracks.old.sessions }
    requires labels { reader.old.labels ≡ tracks.old.nets.labels }
    ensures finished { reader.new.finished ≡ reader.old.finished }
    ensures counted { OnOk result (IsCounted reader.new tracks.new.sessions) }
    ensures labels { reader.new.labels ≡ reader.old.labels }
    ensures made { StaysMade tracks.old tracks.new }
    ensures all { (form : LogForm) (bytes : List ℕ) → TakesSome S.holds form (not reader.old.finished) bytes reader.old tracks.old
        → OnOk result (TakesAll S.holds form (not reader.old.finished) bytes reader.new tracks.new) }
{
    while let Some(event) = reader.next_event() {
        tracks.take(event)?;
    }
    Ok(())
}

/// Feeds the reader, and takes all events that it can hand out then.
pub fn feed_parts<S: Store + Drop>(
    reader: &mut SessionReader<TableNumbers>,
    tracks: &mut SessionTracks<S>,
    piece: &[u8],
) -> Result<(), JudgeFault>
    requires counted { IsCounted reader.old tracks.old.sessions }
    requires labels { reader.old.labels ≡ tracks.old.nets.labels }
    requires goes_on { reader.old.finished ≡ false }
    ensures goes_on { reader.new.finished ≡ false }
    ensures counted { OnOk result (IsCounted reader.new tracks.new.sessions) }
    ensures labels { reader.new.labels ≡ reader.old.labels }
    ensures made { StaysMade tracks.old tracks.new }
    ensures ok { (form : LogForm) (bytes : List ℕ) → TakesAll S.holds form true bytes reader.old tracks.old
        → OnOk result (TakesAll S.holds form true (bytes ++ piece.now) reader.new tracks.new) }
    ensures err { (form : LogForm) (bytes : List ℕ) → TakesAll S.holds form true bytes reader.old tracks.old
        → IfErr result (λ fault. IsBehind session_rules fault form (bytes ++ piece.now) reader.new) }
{
    match reader.feed(piece) {
        Ok(()) => {
            take_waiting(reader, tracks)?;
            Ok(())
        }
        Err(fault) => Err(fault_of(fault)),
    }
}

/// Ends the log, and takes the events that are left.
pub fn finish_parts<S: Store + Drop>(
    reader: &mut SessionReader<TableNumbers>,
    tracks: &mut SessionTracks<S>,
) -> Result<(), JudgeFault>
    requires counted { IsCounted reader.old tracks.old.sessions }
    requires labels { reader.old.labels ≡ tracks.old.nets.labels }
    requires goes_on { reader.old.finished ≡ false }
    ensures made { StaysMade tracks.old tracks.new }
    ensures ok { (form : LogForm) (bytes : List ℕ) → TakesAll S.holds form true bytes reader.old tracks.old
        → OnOk result (TakesLog S.holds form bytes tracks.new) }
    ensures err { (form : LogForm) (bytes : List ℕ) → TakesAll S.holds form true bytes reader.old tracks.old
        → IfErr result (IsJudgeFault session_rules form false bytes) }
{
    match reader.finish() {
        Ok(()) => {
            take_waiting(reader, tracks)?;
            Ok(())
        }
        Err(fault) => Err(fault_of(fault)),
    }
}
