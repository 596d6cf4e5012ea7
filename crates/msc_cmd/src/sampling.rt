//! The command `sample`: a document and a log that the program makes itself. For `command` alone.

ghost use Rattle.std.specs.Prelude.{◌≡◌, ◌≤◌, ◌<◌, ℕ, IfOk, length};
ghost use Rattle.msc_base.specs.declared.limits.TheConstants.Limits.{DOCUMENT_BYTES};
ghost use Rattle.msc_meaning.specs.Tables.{Table};
ghost use Rattle.msc_requests.specs.declared.request.TheConstants.{MOST_SEED, MOST_TURNS};
ghost use Rattle.msc_cmd.specs.Documents.{IsTheDocument};
ghost use Rattle.msc_cmd.specs.Outcomes.{IsTheOne, SampleLogOutcome, SampleOutcome};
ghost use Rattle.msc_cmd.specs.Samples.{sample_name, sample_text};
ghost use Rattle.msc_cmd.specs.Sampling.{CanBeTold, IsSampled, IsToldSample, does_conform};

use crate::answer::{Reply, answer_log, make_reply};
use crate::document::{Document, has_chart, settle};
use crate::document_text::read_text;
use crate::log_reading::{Judged, Wanted};
use crate::sample_log::{Sampled, judge_turns};
use chart_judge::laws::largest_weights_are_told;
use judge_report::{Fault, sample_text as text_of_sample};
use msc_base::{NoMemory, Verdict};
use msc_document::{documents_are_exact, graphs_are_formed};
use std::alloc::Global;

/// The text of the sample's document: a request and its answer, once or more often.
fn document_text() -> &'static str
    ensures text { result.now ≡ sample_text }
    ensures short { length result.now ≤ DOCUMENT_BYTES }
{
    "msc S; inst c,s; c,s: loop <1,inf> begin; c: out req to s; s: in req from c; c,s: alt begin; s: out yes to c; c: in yes from s; alt; s: out no to c; c: in no from s; alt end; loop end; endmsc;"
}

/// What the sample's document is.
fn sample_document(alloc: Global) -> Result<Document, NoMemory>
    ensures { IfOk result (IsTheDocument sample_text) }
{
    documents_are_exact();
    graphs_are_formed();
    let text = read_text(alloc, document_text().as_bytes())?;
    settle(alloc, text)
}

/// Whether the verdict says that the log conforms.
fn does_conform(verdict: &Verdict) -> bool
    ensures { result ≡ does_conform verdict.now }
{
    match verdict {
        Verdict::Conforms { .. } => true,
        Verdict::Fails { .. } | Verdict::Early { .. } | Verdict::TooLarge { .. } => false,
    }
}

/// The reply for a log of so many turns on which this is the verdict.
fn answer_told(
    alloc: Global,
    verdict: Verdict,
    turns: u64,
    yes: u64,
    largest: u64,
) -> Result<Reply, NoMemory>
    requires some { 1 ≤ turns }
    requires few { turns ≤ MOST_TURNS }
    requires answered { yes ≤ turns }
    ensures small { IfOk result (λ r. r.status < 7) }
    ensures not_two { IfOk result (λ r. r.status ≡ 2 → ⊥) }
    ensures outcome { (seed : ℕ) (table : Table) → IsToldSample turns seed table verdict yes largest
        → IfOk result (λ r. IsTheOne (SampleLogOutcome turns seed table) r.status r.text) }
{
    largest_weights_are_told();
    if does_conform(&verdict) {
        let text = text_of_sample(alloc, turns, yes, largest)?;
        Ok(Reply { status: 0, text })
    } else {
        answer_log(alloc, &Judged::Told(verdict), Wanted::TheVerdict, false)
    }
}

/// The reply for what became of a log of so many turns.
fn answer_sample(alloc: Global, sampled: &Sampled, turns: u64) -> Result<Reply, NoMemory>
    requires some { 1 ≤ turns }
    requires few { turns ≤ MOST_TURNS }
    requires told { CanBeTold turns sampled.now }
    ensures small { IfOk result (λ r. r.status < 7) }
    ensures not_two { IfOk result (λ r. r.status ≡ 2 → ⊥) }
    ensures outcome { (seed : ℕ) (table : Table) → IsSampled turns seed table sampled.now
        → IfOk result (λ r. IsTheOne (SampleLogOutcome turns seed table) r.status r.text) }
{
    match *sampled {
        Sampled::Told {
            verdict,
            yes,
            largest,
        } => answer_told(alloc, verdict, turns, yes, largest),
        Sampled::Refused(fault) => {
            answer_log(alloc, &Judged::Refused(fault), Wanted::TheVerdict, false)
        }
    }
}

/// The reply to a request for a sample of so many turns from this seed.
pub fn sample_reply(alloc: Global, turns: u64, seed: u64) -> Result<Reply, NoMemory>
    requires some { 1 ≤ turns }
    requires few { turns ≤ MOST_TURNS }
    requires seed { seed ≤ MOST_SEED }
    ensures small { IfOk result (λ r. r.status < 7) }
    ensures not_two { IfOk result (λ r. r.status ≡ 2 → ⊥) }
    ensures outcome { IfOk result (λ r. IsTheOne (SampleOutcome turns seed) r.status r.text) }
{
    let accepted = match sample_document(alloc)? {
        Document::Charts(accepted) => accepted,
        Document::Refused(rule, place) => {
            return make_reply(alloc, 4, &Fault::Document { rule, place }, false);
        }
    };
    if !has_chart(&accepted, "S".as_bytes()) {
        return make_reply(alloc, 4, &Fault::NoChart, false);
    }
    let sampled = judge_turns(alloc, &accepted, turns, seed)?;
    answer_sample(alloc, &sampled, turns)
}
