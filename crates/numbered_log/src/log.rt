//! A log as the numbers of its events' labels, fed in pieces.

ghost use Rattle.std.specs.Prelude.{◌≡◌, ◌++◌, [], ℕ, List, true, false, None, Some, Err, length, IfOk, IfErr, IfSome};
ghost use Rattle.event_log.specs.declared.event.LogForm.{LogForm};
ghost use Rattle.log_judge.specs.Judged.{IsJudgeAnswer, IsJudgeFault, fault_in};
ghost use Rattle.msc_base.specs.declared.label.Label.{Label};
ghost use Rattle.numbered_log.specs.States.{Fed, TakesLog};

use crate::taking::{feed_parts, finish_parts};
use event_log::{LogForm, LogReader};
use log_judge::{JudgeFault, TableNumbers};
use msc_base::NoMemory;
use std::alloc::Global;
use std::marker::Model;
use std::rc::Rc;
use term_tables::Nets;

/// Gathers the numbers of a log's events, which it is fed in pieces. A label that the tables lack has the number behind the last.
#[derive(Drop)]
pub struct NumberedLog {
    reader: LogReader<TableNumbers>,
    /// The number that stands for a label which the tables lack.
    none: u32,
    numbers: Vec<u32>,
    fault: Option<JudgeFault>,
}

impl Model for NumberedLog {
    ghost use Rattle.std.specs.Prelude.{◌≡◌, false, length};
    ghost use Rattle.numbered_log.specs.States.{NumberedValue};

    ghost Value = { NumberedValue };

    ghost view = { λ l. record { reader = l.reader; numbers = l.numbers.items; fault = l.fault } };

    ghost invariant = { λ l. (l.none ≡ length l.reader.labels) × (l.reader.finished ≡ false) };
}

impl NumberedLog {
    /// A log of this form, of which nothing was fed; its labels have their numbers in these tables.
    pub fn new(alloc: Global, nets: &Rc<Nets>, form: LogForm) -> Result<NumberedLog, NoMemory>
        ensures fed { IfOk result (λ log. Fed nets.now.value.labels form [] log) }
        ensures fault { IfOk result (λ log. log.fault ≡ None) }
    {
        let none = nets.labels();
        let numbers = TableNumbers {
            nets: nets.clone()?,
        };
        let reader = LogReader::new(alloc, form, numbers)?;
        Ok(NumberedLog {
            reader,
            none,
            numbers: Vec::new(alloc),
            fault: None,
        })
    }

    /// Takes the next bytes of the log. It fails exactly where a fault of the log is decided within the bytes fed so far, or for
    /// want of memory, and from then on always with the same fault.
    pub fn feed(&mut self, piece: &[u8]) -> Result<(), JudgeFault>
        ensures fed { (table : List Label) (form : LogForm) (bytes : List ℕ) → Fed table form bytes self.old → Fed table form (bytes ++ piece.now) self.new }
        ensures fault { fault_in result ≡ self.new.fault }
        ensures again { IfSome self.old.fault (λ fault. (result ≡ Err fault) × (self.new ≡ self.old)) }
        ensures decided { (table : List Label) (form : LogForm) (bytes : List ℕ) → Fed table form bytes self.old → IsJudgeAnswer form true (bytes ++ piece.now) (fault_in result) }
        ensures lasts { (table : List Label) (form : LogForm) (bytes : List ℕ) → Fed table form bytes self.old
            → (more : List ℕ) → IfErr result (IsJudgeFault form false ((bytes ++ piece.now) ++ more)) }
    {
        if let Some(fault) = self.fault {
            return Err(fault);
        }
        match feed_parts(&mut self.reader, &mut self.numbers, self.none, piece) {
            Ok(()) => Ok(()),
            Err(fault) => {
                self.fault = Some(fault);
                Err(fault)
            }
        }
    }

    /// Ends the log, and gives the numbers of its events. It fails exactly where the whole log has a fault, or for want of memory;
    /// after a fault of `feed` with that.
    pub fn finish(self) -> Result<Vec<u32>, JudgeFault>
        ensures numbers { (table : List Label) (form : LogForm) (bytes : List ℕ) → Fed table form bytes self → IfOk result (λ numbers. TakesLog table form bytes numbers.items) }
        ensures fault { (table : List Label) (form : LogForm) (bytes : List ℕ) → Fed table form bytes self → IfErr result (IsJudgeFault form false bytes) }
        ensures again { IfSome self.fault (λ fault. result ≡ Err fault) }
    {
        let NumberedLog {
            mut reader,
            none,
            mut numbers,
            fault,
        } = self;
        if let Some(fault) = fault {
            return Err(fault);
        }
        match finish_parts(&mut reader, &mut numbers, none) {
            Ok(()) => Ok(numbers),
            Err(fault) => Err(fault),
        }
    }
}
