//! The whole command, from words to a status: `run`, which the program mscjudge calls.

ghost use Rattle.std.specs.Prelude.{◌≡◌, ◌<◌, ◌≤◌, ◌⊎◌, ◌++◌, ◌∷◌, [], List, ℕ, IfOk, Some};
ghost use Rattle.std.specs.Io.KnownBytes.{Appends, Keeps};
ghost use Rattle.outside.specs.Causes.{Rose};
ghost use Rattle.msc_requests.specs.Requests.{IsBounded, IsNoRequest, request_of as request_in_words};
ghost use Rattle.judge_report.specs.Writing.{AppendsPart};
ghost use Rattle.msc_cmd.specs.Outcomes.{IfTold, IsAnswer, IsOfOutcome, IsOutcome, IsStatus, IsTheOne, RequestOutcome};
ghost use Rattle.msc_cmd.specs.Failures.{CannotJudge, CannotServe};
ghost use Rattle.msc_requests.specs.declared.request.Request.TheVariants.{Sample};

use crate::answer::{Reply, Style, judge_files, make_reply};
use crate::checking::check_file;
use crate::choices::choices_file;
use crate::listing::list_file;
use crate::log_reading::Wanted;
use crate::printing::print_file;
use crate::sampling::sample_reply;
use crate::sessions::sessions_files;
use event_log::LogForm;
use judge_report::{Fault, emit};
use msc_base::{NoMemory, Words};
use msc_requests::{Request, WordFault, request_of};
use outside::{Shelf, Sink};
use std::alloc::Global;

/// The reply to a request.
fn serve<S: Shelf>(alloc: Global, request: &Request, shelf: &mut S) -> Result<Reply, NoMemory>
    requires { IsBounded request.now }
    ensures small { IfOk result (λ r. r.status ≤ 7) }
    ensures not_two { IfOk result (λ r. r.status ≡ 2 → ⊥) }
    ensures outcome { IfOk result (λ r. r.status < 7 → IfTold (S.files shelf.old) (λ f. IsTheOne (RequestOutcome request.now f) r.status r.text)) }
    ensures failed { IfOk result (λ r. r.status ≡ 7 → CannotServe request.now (S.files shelf.old) (S.faults shelf.old) (S.faults shelf.new) (S.broken shelf.new) (S.last shelf.new) r.text) }
    ensures sampled { (turns seed : ℕ) → request.now ≡ Sample turns seed → shelf.new ≡ shelf.old }
{
    match request {
        Request::Judge {
            document,
            chart,
            log,
            budget,
            json,
            form,
        } => {
            let style = Style {
                form: *form,
                budget: *budget,
                json: *json,
                wanted: Wanted::TheVerdict,
            };
            judge_files(alloc, document, chart, log, style, shelf)
        }
        Request::Next {
            document,
            chart,
            log,
            budget,
        } => {
            let style = Style {
                form: LogForm::Lines,
                budget: *budget,
                json: false,
                wanted: Wanted::NextLabels,
            };
            judge_files(alloc, document, chart, log, style, shelf)
        }
        Request::Sessions {
            document,
            chart,
            log,
            budget,
            form,
        } => sessions_files(alloc, document, chart, log, *form, *budget, shelf),
        Request::Choices { document, chart } => choices_file(alloc, document, chart, shelf),
        Request::Check { document, json } => check_file(alloc, document, *json, shelf),
        Request::List {
            document,
            chart,
            json,
        } => list_file(alloc, document, chart, *json, shelf),
        Request::Print { document } => print_file(alloc, document, shelf),
        Request::Sample { turns, seed } => sample_reply(alloc, *turns, *seed),
    }
}

/// The reply to the words.
fn answer<S: Shelf>(alloc: Global, words: &Words, shelf: &mut S) -> Result<Reply, NoMemory>
    ensures small { IfOk result (λ r. r.status ≤ 7) }
    ensures two { IfOk result (λ r. r.status ≡ 2 → IsNoRequest words.now) }
    ensures outcome { IfOk result (λ r. r.status < 7 → IfTold (S.files shelf.old) (λ f. IsTheOne (IsOutcome words.now f) r.status r.text)) }
    ensures failed { IfOk result (λ r. r.status ≡ 7 → CannotJudge words.now (S.files shelf.old) (S.faults shelf.old) (S.faults shelf.new) (S.broken shelf.new) (S.last shelf.new) r.text) }
    ensures refused { IfOk result (λ r. IsNoRequest words.now → r.status ≡ 2) }
    ensures unchanged { IsNoRequest words.now → shelf.new ≡ shelf.old }
    ensures sampled { (turns seed : ℕ) → request_in_words words.now ≡ Some (Sample turns seed) → shelf.new ≡ shelf.old }
{
    match request_of(alloc, words) {
        Ok(request) => serve(alloc, &request, shelf),
        Err(WordFault::NoRequest) => make_reply(alloc, 2, &Fault::Usage, false),
        Err(WordFault::NoMemory) => Err(NoMemory),
    }
}

/// Does all that the program does, and gives its status.
///
/// | Status | Meaning |
/// |---|---|
/// | 0 | the log conforms, also that of a sample, and so does each of its sessions; what may come next in it is listed; the document is accepted, listed or printed, or the choices of a chart are listed |
/// | 1 | the log fails at an event, or a session does |
/// | 2 | the words are no request |
/// | 3 | the log stops early, or a session does, and none fails or is too large |
/// | 4 | the document is refused, or it has no chart of that name |
/// | 5 | the log is refused |
/// | 6 | what is left of the chart's term after an event passes the budget, or in a session, and none fails |
/// | 7 | the shelf failed |
/// | 8 | the sink failed |
/// | 9 | want of memory |
pub fn run<S: Shelf, O: Sink>(alloc: Global, words: &Words, shelf: &mut S, out: &mut O) -> u8
    // A status other than 7, 8 and 9 is that of the answer, and the answer's text is written whole.
    ensures outcome { IsOfOutcome result → IfTold (S.files shelf.old)
        (λ f. (text : List ℕ) × IsAnswer words.now f result text × Appends (O.written out.old) (O.written out.new) text) }

    // The shelf failed in this call, at the document or the log, and the line that says so is written whole.
    ensures shelf_failed { result ≡ 7 → (text : List ℕ)
        × CannotJudge words.now (S.files shelf.old) (S.faults shelf.old) (S.faults shelf.new) (S.broken shelf.new) (S.last shelf.new) text
        × Appends (O.written out.old) (O.written out.new) text }

    // The sink failed in this call, and a proper prefix of what was to be written stands there.
    ensures sink_failed { result ≡ 8 → Rose (O.faults out.old) (O.faults out.new) }
    ensures part { result ≡ 8 → IfTold (S.files shelf.old) (λ f. (text : List ℕ) × AppendsPart (O.written out.old) (O.written out.new) text
        × (((status : ℕ) × IsAnswer words.now f status text)
        ⊎ CannotJudge words.now (S.files shelf.old) (S.faults shelf.old) (S.faults shelf.new) (S.broken shelf.new) (S.last shelf.new) text)) }

    // Want of memory comes before anything is written.
    ensures memory { result ≡ 9 → Keeps (O.written out.old) (O.written out.new) }

    // Where no fault rose there is an answer, or want of memory.
    ensures complete { (Rose (S.faults shelf.old) (S.faults shelf.new) → ⊥) → (Rose (O.faults out.old) (O.faults out.new) → ⊥) → IsOfOutcome result ⊎ (result ≡ 9) }

    // Without an outcome there is no status of one.
    ensures without { IfTold (S.files shelf.old) (λ f. ((status : ℕ) (text : List ℕ) → IsOutcome words.now f status text → ⊥) → IsOfOutcome result → ⊥) }
    ensures known { IsStatus result }

    // No request is told only where there is none, whatever the shelf tells, and then the shelf is left alone.
    ensures request { result ≡ 2 → IsNoRequest words.now }
    ensures no_request { IsNoRequest words.now → (result ≡ 2) ⊎ (result ≡ 8) ⊎ (result ≡ 9) }
    ensures unchanged { IsNoRequest words.now → shelf.new ≡ shelf.old }

    // Nor does a sample touch it.
    ensures sampled { (turns seed : ℕ) → request_in_words words.now ≡ Some (Sample turns seed) → shelf.new ≡ shelf.old }
{
    match answer(alloc, words, shelf) {
        Ok(reply) => match emit(out, &reply.text) {
            Ok(()) => reply.status,
            Err(_) => 8,
        },
        Err(_) => 9,
    }
}
