//! Gathers the numbers of the events that the reader hands out, after each piece and at the end: for `log` alone.

ghost use Rattle.std.specs.Prelude.{◌≡◌, ◌++◌, ◌∷◌, [], ℕ, List, true, false, not, length, OnOk, IfErr};
ghost use Rattle.event_log.specs.declared.event.LogForm.{LogForm};
ghost use Rattle.log_judge.specs.Judged.{IsJudgeFault};
ghost use Rattle.log_judge.specs.Taking.{IsBehind};
ghost use Rattle.label_table.specs.Labels.{label_number};
ghost use Rattle.numbered_log.specs.Numbers.{number_in, number_or};
ghost use Rattle.numbered_log.specs.States.{TakesAll, TakesLog, TakesSome};

use event_log::{LogReader, NumberedEvent};
use log_judge::{JudgeFault, TableNumbers, fault_of};
use msc_base::NoMemory;

/// The number, or that which stands for none.
fn number_or(number: Option<u32>, none: u32) -> u32
    ensures { result ≡ number_or number none }
{
    match number {
        Some(number) => number,
        None => none,
    }
}

/// Puts the event's number behind the others.
fn push_event(numbers: &mut Vec<u32>, none: u32, event: NumberedEvent) -> Result<(), NoMemory>
    ensures { OnOk result (numbers.new.items ≡ numbers.old.items ++ number_or event.number none ∷ []) }
{
    numbers.push(number_or(event.number, none))?;
    Ok(())
}

/// Takes all events that the reader can hand out.
pub(crate) fn take_waiting(
    reader: &mut LogReader<TableNumbers>,
    numbers: &mut Vec<u32>,
    none: u32,
) -> Result<(), NoMemory>
    requires none { none ≡ length reader.old.labels }
    ensures finished { reader.new.finished ≡ reader.old.finished }
    ensures labels { reader.new.labels ≡ reader.old.labels }
    ensures all { (form : LogForm) (bytes : List ℕ) → TakesSome reader.old.labels form (not reader.old.finished) bytes reader.old numbers.old.items
        → OnOk result (TakesAll reader.old.labels form (not reader.old.finished) bytes reader.new numbers.new.items) }
{
    while let Some(event) = reader.next_event() {
        push_event(numbers, none, event)?;
    }
    Ok(())
}

/// Feeds the reader, and takes all events that it can hand out then.
pub(crate) fn feed_parts(
    reader: &mut LogReader<TableNumbers>,
    numbers: &mut Vec<u32>,
    none: u32,
    piece: &[u8],
) -> Result<(), JudgeFault>
    requires none { none ≡ length reader.old.labels }
    requires goes_on { reader.old.finished ≡ false }
    ensures goes_on { reader.new.finished ≡ false }
    ensures labels { reader.new.labels ≡ reader.old.labels }
    ensures ok { (form : LogForm) (bytes : List ℕ) → TakesAll reader.old.labels form true bytes reader.old numbers.old.items
        → OnOk result (TakesAll reader.old.labels form true (bytes ++ piece.now) reader.new numbers.new.items) }
    ensures err { (form : LogForm) (bytes : List ℕ) → TakesAll reader.old.labels form true bytes reader.old numbers.old.items
        → IfErr result (λ fault. IsBehind fault form (bytes ++ piece.now) reader.new) }
{
    match reader.feed(piece) {
        Ok(()) => {
            take_waiting(reader, numbers, none)?;
            Ok(())
        }
        Err(fault) => Err(fault_of(fault)),
    }
}

/// Ends the log, and takes the events that are left.
pub(crate) fn finish_parts(
    reader: &mut LogReader<TableNumbers>,
    numbers: &mut Vec<u32>,
    none: u32,
) -> Result<(), JudgeFault>
    requires none { none ≡ length reader.old.labels }
    requires goes_on { reader.old.finished ≡ false }
    ensures ok { (form : LogForm) (bytes : List ℕ) → TakesAll reader.old.labels form true bytes reader.old numbers.old.items
        → OnOk result (TakesLog reader.old.labels form bytes numbers.new.items) }
    ensures err { (form : LogForm) (bytes : List ℕ) → TakesAll reader.old.labels form true bytes reader.old numbers.old.items
        → IfErr result (IsJudgeFault form false bytes) }
{
    match reader.finish() {
        Ok(()) => {
            take_waiting(reader, numbers, none)?;
            Ok(())
        }
        Err(fault) => Err(fault_of(fault)),
    }
}
