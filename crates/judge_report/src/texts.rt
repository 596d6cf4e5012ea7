//! What is told of verdicts, of samples and of accepted documents: for the commands `judge`, `sample` and `check` of msc_cmd.

ghost use Rattle.std.specs.Prelude.{◌≡◌, ◌≤◌, ◌<◌, ◌*◌, ◌^◌, IfOk, false};
ghost use Rattle.serde_json.specs.View.{view};
ghost use Rattle.judge_report.specs.Objects.{accepted_data, verdict_data};
ghost use Rattle.judge_report.specs.SampleTexts.{sample_line};
ghost use Rattle.judge_report.specs.Texts.{accepted_line, verdict_line};

use crate::lines::{line_of, line_of_value};
use msc_base::{NoMemory, Text, Verdict};
use serde_json::{Value, json};
use std::alloc::{AllocError, Global};

/// The line that tells a verdict, in words.
fn plain_verdict(alloc: Global, verdict: &Verdict) -> Result<Text, NoMemory>
    ensures { IfOk result (λ line. line ≡ verdict_line false verdict.now) }
{
    match verdict {
        Verdict::Conforms { events } => {
            let text = format!(in alloc; "conforms, events {events}")?;
            line_of(alloc, text.as_str())
        }
        Verdict::Fails { event, line } => {
            let text = format!(in alloc; "fails at event {event}, line {line}")?;
            line_of(alloc, text.as_str())
        }
        Verdict::Early { events } => {
            let text = format!(in alloc; "stops early, events {events}")?;
            line_of(alloc, text.as_str())
        }
        Verdict::TooLarge { event } => {
            let text = format!(in alloc; "too large at event {event}")?;
            line_of(alloc, text.as_str())
        }
    }
}

/// The object that tells a verdict.
fn verdict_value(alloc: Global, verdict: &Verdict) -> Result<Value, AllocError>
    ensures { IfOk result (λ v. view v ≡ verdict_data verdict.now) }
{
    match *verdict {
        Verdict::Conforms { events } => json!(in alloc; {"events": events, "verdict": "conforms"}),
        Verdict::Fails { event, line } => {
            json!(in alloc; {"event": event, "line": line, "verdict": "fails"})
        }
        Verdict::Early { events } => json!(in alloc; {"events": events, "verdict": "stops early"}),
        Verdict::TooLarge { event } => json!(in alloc; {"event": event, "verdict": "too large"}),
    }
}

#[tactic(auto, using(crate::proofs::ObjectTexts::verdict_no_float, crate::proofs::ObjectTexts::verdict_shown))]
/// The line that tells a verdict, as JSON if that is asked.
pub fn verdict_text(alloc: Global, verdict: &Verdict, json: bool) -> Result<Text, NoMemory>
    ensures { IfOk result (λ line. line ≡ verdict_line json verdict.now) }
{
    if json {
        let value = verdict_value(alloc, verdict)?;
        line_of_value(alloc, &value)
    } else {
        plain_verdict(alloc, verdict)
    }
}

/// The object that tells how many charts an accepted document has.
fn accepted_value(alloc: Global, charts: u32) -> Result<Value, AllocError>
    ensures { IfOk result (λ v. view v ≡ accepted_data charts) }
{
    json!(in alloc; {"charts": charts, "verdict": "accepted"})
}

#[tactic(auto, using(crate::proofs::ObjectTexts::accepted_no_float, crate::proofs::ObjectTexts::accepted_shown))]
/// The line that tells how many charts an accepted document has, as JSON if that is asked.
pub fn accepted_text(alloc: Global, charts: u32, json: bool) -> Result<Text, NoMemory>
    ensures { IfOk result (λ line. line ≡ accepted_line json charts) }
{
    if json {
        let value = accepted_value(alloc, charts)?;
        line_of_value(alloc, &value)
    } else {
        let text = format!(in alloc; "accepted, charts {charts}")?;
        line_of(alloc, text.as_str())
    }
}

/// The line that tells of a sample whose log conforms: how many turns it has, how many of them are answered `yes`, and the largest
/// weight of what was left of its chart.
pub fn sample_text(alloc: Global, turns: u64, yes: u64, largest: u64) -> Result<Text, NoMemory>
    requires answered { yes ≤ turns }
    requires few { 4 * turns < 2 ^ 64 }
    ensures { IfOk result (λ line. line ≡ sample_line turns yes largest) }
{
    let no = turns - yes;
    let events = 4 * turns;
    let text = format!(in alloc;
        "sample: turns {turns}, yes {yes}, no {no}, events {events}, largest weight {largest}, conforms"
    )?;
    line_of(alloc, text.as_str())
}
