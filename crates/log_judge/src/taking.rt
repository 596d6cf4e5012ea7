//! Hands each event of the reader to the track once, after each piece and at the end: for `judge` alone.

ghost use Rattle.std.specs.Prelude.{◌≡◌, ◌<◌, ◌+◌, ◌++◌, ◌∷◌, [], ℕ, List, true, false, not, OnOk, IfErr};
ghost use Rattle.msc_base.specs.Stored.{most_stored};
ghost use Rattle.chart_term.specs.Terms.{Tree};
ghost use Rattle.event_log.specs.declared.event.LogForm.{LogForm};
ghost use Rattle.trace_judge.specs.Tracks.{Fed, IfHeld};
ghost use Rattle.log_judge.specs.Judged.{IsJudgeFault};
ghost use Rattle.log_judge.specs.Taking.{IsBehind, IsCounted, IsFollowing, TakesSome, TakesAll, TakesLog};
ghost use Rattle.line_events.specs.declared.event.LineEvent.{LineEvent};
ghost use Rattle.term_tables.specs.NetValues.{label_number};

use crate::JudgeFault;
use crate::fault::fault_of;
use crate::numbers::TableNumbers;
use event_log::{LogReader, NumberedEvent};
use msc_base::NoMemory;
use term_tables::Nets;
use trace_judge::{Store, Track};

/// Takes one event. After want of memory the track is as it was.
fn take_event<S: Store + Drop>(
    nets: &Nets,
    track: &mut Track<S>,
    event: NumberedEvent,
) -> Result<(), NoMemory>
    requires serves { IfHeld (λ set. S.serves set nets.now) track.old }
    requires room { track.old.events < most_stored }
    requires number { event.number ≡ label_number nets.now.labels event.event.label }
    ensures serves { IfHeld (λ set. S.serves set nets.now) track.new }
    ensures count { OnOk result (track.new.events ≡ track.old.events + 1) }
    ensures fed { (x : Tree) (budget : ℕ) (events : List LineEvent) → Fed S.holds nets.now x budget events track.old
        → OnOk result (Fed S.holds nets.now x budget (events ++ event.event ∷ []) track.new) }
    ensures follows { (x : Tree) (budget : ℕ) → IsFollowing S.holds nets.now x budget track.old → IsFollowing S.holds nets.now x budget track.new }
{
    track.take(nets, event.number, event.event.line)
}

/// Takes all events that the reader can hand out.
pub(crate) fn take_waiting<S: Store + Drop>(
    reader: &mut LogReader<TableNumbers>,
    nets: &Nets,
    track: &mut Track<S>,
) -> Result<(), NoMemory>
    requires serves { IfHeld (λ set. S.serves set nets.now) track.old }
    requires counted { IsCounted reader.old track.old.events }
    requires labels { reader.old.labels ≡ nets.now.labels }
    ensures serves { IfHeld (λ set. S.serves set nets.now) track.new }
    ensures finished { reader.new.finished ≡ reader.old.finished }
    ensures counted { OnOk result (IsCounted reader.new track.new.events) }
    ensures labels { reader.new.labels ≡ reader.old.labels }
    ensures all { (x : Tree) (form : LogForm) (budget : ℕ) (bytes : List ℕ) → TakesSome S.holds nets.now x form budget (not reader.old.finished) bytes reader.old track.old
        → OnOk result (TakesAll S.holds nets.now x form budget (not reader.old.finished) bytes reader.new track.new) }
    ensures follows { (x : Tree) (budget : ℕ) → IsFollowing S.holds nets.now x budget track.old → IsFollowing S.holds nets.now x budget track.new }
{
    while let Some(event) = reader.next_event() {
        take_event(nets, track, event)?;
    }
    Ok(())
}

/// Feeds the reader, and takes all events that it can hand out then.
pub(crate) fn feed_parts<S: Store + Drop>(
    reader: &mut LogReader<TableNumbers>,
    nets: &Nets,
    track: &mut Track<S>,
    piece: &[u8],
) -> Result<(), JudgeFault>
    requires serves { IfHeld (λ set. S.serves set nets.now) track.old }
    requires counted { IsCounted reader.old track.old.events }
    requires labels { reader.old.labels ≡ nets.now.labels }
    requires goes_on { reader.old.finished ≡ false }
    ensures serves { IfHeld (λ set. S.serves set nets.now) track.new }
    ensures goes_on { reader.new.finished ≡ false }
    ensures counted { OnOk result (IsCounted reader.new track.new.events) }
    ensures labels { reader.new.labels ≡ reader.old.labels }
    ensures ok { (x : Tree) (form : LogForm) (budget : ℕ) (bytes : List ℕ) → TakesAll S.holds nets.now x form budget true bytes reader.old track.old
        → OnOk result (TakesAll S.holds nets.now x form budget true (bytes ++ piece.now) reader.new track.new) }
    ensures err { (x : Tree) (form : LogForm) (budget : ℕ) (bytes : List ℕ) → TakesAll S.holds nets.now x form budget true bytes reader.old track.old
        → IfErr result (λ fault. IsBehind fault form (bytes ++ piece.now) reader.new) }
    ensures follows { (x : Tree) (budget : ℕ) → IsFollowing S.holds nets.now x budget track.old → IsFollowing S.holds nets.now x budget track.new }
{
    match reader.feed(piece) {
        Ok(()) => {
            take_waiting(reader, nets, track)?;
            Ok(())
        }
        Err(fault) => Err(fault_of(fault)),
    }
}

/// Ends the log, and takes the events that are left.
pub(crate) fn finish_parts<S: Store + Drop>(
    reader: &mut LogReader<TableNumbers>,
    nets: &Nets,
    track: &mut Track<S>,
) -> Result<(), JudgeFault>
    requires serves { IfHeld (λ set. S.serves set nets.now) track.old }
    requires counted { IsCounted reader.old track.old.events }
    requires labels { reader.old.labels ≡ nets.now.labels }
    requires goes_on { reader.old.finished ≡ false }
    ensures serves { IfHeld (λ set. S.serves set nets.now) track.new }
    ensures ok { (x : Tree) (form : LogForm) (budget : ℕ) (bytes : List ℕ) → TakesAll S.holds nets.now x form budget true bytes reader.old track.old
        → OnOk result (TakesLog S.holds nets.now x form budget bytes track.new) }
    ensures err { (x : Tree) (form : LogForm) (budget : ℕ) (bytes : List ℕ) → TakesAll S.holds nets.now x form budget true bytes reader.old track.old
        → IfErr result (IsJudgeFault form false bytes) }
{
    match reader.finish() {
        Ok(()) => {
            take_waiting(reader, nets, track)?;
            Ok(())
        }
        Err(fault) => Err(fault_of(fault)),
    }
}
