//! A log that is read for a certificate's sake, fed in pieces.

ghost use Rattle.std.specs.Prelude.{◌≡◌, ◌++◌, [], ℕ, List, Some, false, Err, IfOk, IfErr, IfSome, OnOk};
ghost use Rattle.event_log.specs.declared.event.LogForm.{LogForm as Form};
ghost use Rattle.log_judge.specs.Judged.{IsJudgeFault, fault_in};
ghost use Rattle.msc_acceptance.specs.AcceptedCharts.{IsAcceptedTable};
ghost use Rattle.msc_meaning.specs.Tables.{ChartEntry, Table, chart_at};
ghost use Rattle.msc_meaning.specs.Views.{table_view};
ghost use Rattle.chart_certificates.specs.Logging.{IsLogged, IsLogging};

use crate::ChartRun;
use crate::laws::chart_terms_serve;
use chart_judge::term_of;
use chart_term::Term;
use event_log::LogForm;
use log_judge::JudgeFault;
use msc_acceptance::Accepted;
use msc_base::NoMemory;
use numbered_log::NumberedLog;
use std::alloc::Global;
use std::marker::Model;
use std::rc::Rc;
use term_tables::Nets;

/// Gathers the events of a log, which it is fed in pieces, as the numbers of their labels in the tables of a chart.
#[derive(Drop)]
pub struct ChartLog {
    nets: Rc<Nets>,
    term: Term,
    log: NumberedLog,
}

impl Model for ChartLog {
    ghost use Rattle.std.specs.Coded.{codes};
    ghost use Rattle.chart_term.specs.Codes.{coded_tree};
    ghost use Rattle.chart_certificates.specs.Logging.{ChartLogValue};

    ghost Value = { ChartLogValue };

    ghost coded = { Prim.hlevel (codes, coded_tree) };

    ghost view = { λ l. record { nets = l.nets.value; term = l.term; log = l.log } };
}

impl ChartLog {
    /// A log of this form, of which nothing was fed, for the chart of that name.
    pub fn new(
        alloc: Global,
        accepted: &Accepted,
        name: &[u8],
        form: LogForm,
    ) -> Result<ChartLog, NoMemory>
        requires accepted { IsAcceptedTable (table_view accepted.now) }
        requires there { (chart : ChartEntry) × (chart_at (table_view accepted.now) name.now ≡ Some chart) }
        ensures { IfOk result (λ log. IsLogging (table_view accepted.now) name.now form [] log) }
    {
        chart_terms_serve();
        let made = term_of(alloc, accepted, name)?;
        let nets = Rc::new(alloc, made.nets)?;
        let log = NumberedLog::new(alloc, &nets, form)?;
        Ok(ChartLog {
            nets,
            term: made.term,
            log,
        })
    }

    /// Takes the next bytes of the log. It fails exactly where a fault of the log is decided within the bytes fed so far, or for
    /// want of memory, and from then on always with the same fault.
    pub fn feed(&mut self, piece: &[u8]) -> Result<(), JudgeFault>
        ensures fed { (table : Table) (name : List ℕ) (form : Form) (bytes : List ℕ) → IsLogging table name form bytes self.old
            → OnOk result (IsLogging table name form (bytes ++ piece.now) self.new) }
        ensures refused { (table : Table) (name : List ℕ) (form : Form) (bytes : List ℕ) → IsLogging table name form bytes self.old
            → (more : List ℕ) → IfErr result (IsJudgeFault form false ((bytes ++ piece.now) ++ more)) }
        ensures fault { fault_in result ≡ self.new.log.fault }
        ensures again { IfSome self.old.log.fault (λ fault. (result ≡ Err fault) × (self.new ≡ self.old)) }
    {
        self.log.feed(piece)
    }

    /// Ends the log, and gives its events. It fails exactly where the whole log has a fault, or for want of memory; after a fault of
    /// `feed` with that.
    pub fn finish(self) -> Result<ChartRun, JudgeFault>
        ensures run { (table : Table) (name : List ℕ) (form : Form) (bytes : List ℕ) → IsLogging table name form bytes self
            → IfOk result (IsLogged table name form bytes) }
        ensures fault { (table : Table) (name : List ℕ) (form : Form) (bytes : List ℕ) → IsLogging table name form bytes self
            → IfErr result (IsJudgeFault form false bytes) }
        ensures again { IfSome self.log.fault (λ fault. result ≡ Err fault) }
    {
        let ChartLog { nets, term, log } = self;
        match log.finish() {
            Ok(numbers) => Ok(ChartRun {
                nets,
                term,
                numbers,
            }),
            Err(fault) => Err(fault),
        }
    }
}
