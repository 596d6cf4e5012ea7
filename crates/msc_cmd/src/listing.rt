//! The command `list`: for `command` alone.

ghost use Rattle.std.specs.Prelude.{◌≡◌, ◌<◌, ◌≤◌, IfOk};
ghost use Rattle.chart_lists.specs.Listing.{listed_of};
ghost use Rattle.msc_meaning.specs.Views.{table_view};
ghost use Rattle.judge_report.specs.Lists.{instance_list};
ghost use Rattle.msc_cmd.specs.Failures.{CannotOpen};
ghost use Rattle.msc_cmd.specs.Outcomes.{ChartOutcome, DocumentOutcome, IfTold, IsTheOne, ListAnswer, Says};

use crate::answer::{Reply, make_reply};
use crate::opening::{Opened, open_document};
use chart_lists::listed_of;
use judge_report::{Fault, chart_list_text, instance_list_text};
use msc_acceptance::Accepted;
use msc_base::{NoMemory, Text};
use outside::Shelf;
use std::alloc::Global;

/// The reply that lists the instances of the chart of this name.
fn list_instances(
    alloc: Global,
    accepted: &Accepted,
    name: &Text,
    json: bool,
) -> Result<Reply, NoMemory>
    ensures small { IfOk result (λ r. r.status < 7) }
    ensures not_two { IfOk result (λ r. r.status ≡ 2 → ⊥) }
    ensures outcome { IfOk result (λ r. IsTheOne (ChartOutcome json name.now (table_view accepted.now) (λ chart. Says (instance_list json (listed_of (table_view accepted.now) chart)))) r.status r.text) }
{
    let Some(chart) = accepted.chart_named(name.bytes()) else {
        return make_reply(alloc, 4, &Fault::NoChart, json);
    };
    let listed = listed_of(alloc, accepted.table(), chart)?;
    let text = instance_list_text(alloc, &listed, json)?;
    Ok(Reply { status: 0, text })
}

/// The reply that lists the charts of the document, or the instances of the chart that is named.
fn list_accepted(
    alloc: Global,
    accepted: &Accepted,
    chart: &Option<Text>,
    json: bool,
) -> Result<Reply, NoMemory>
    ensures small { IfOk result (λ r. r.status < 7) }
    ensures not_two { IfOk result (λ r. r.status ≡ 2 → ⊥) }
    ensures outcome { IfOk result (λ r. IsTheOne (ListAnswer json chart.now (table_view accepted.now)) r.status r.text) }
{
    match chart {
        None => {
            let text = chart_list_text(alloc, accepted, json)?;
            Ok(Reply { status: 0, text })
        }
        Some(name) => list_instances(alloc, accepted, name, json),
    }
}

/// The reply that lists the document of this name, or refuses it.
pub fn list_file<S: Shelf>(
    alloc: Global,
    document: &Text,
    chart: &Option<Text>,
    json: bool,
    shelf: &mut S,
) -> Result<Reply, NoMemory>
    ensures small { IfOk result (λ r. r.status ≤ 7) }
    ensures not_two { IfOk result (λ r. r.status ≡ 2 → ⊥) }
    ensures outcome { IfOk result (λ r. r.status < 7 → IfTold (S.files shelf.old) (λ f. IsTheOne (DocumentOutcome json f document.now (ListAnswer json chart.now)) r.status r.text)) }
    ensures failed { IfOk result (λ r. r.status ≡ 7 → CannotOpen json (S.faults shelf.old) (S.faults shelf.new) (S.broken shelf.new) (S.last shelf.new) document.now r.text) }
{
    match open_document(alloc, document, json, shelf)? {
        Opened::Accepted(accepted) => list_accepted(alloc, &accepted, chart, json),
        Opened::Told(reply) => Ok(reply),
    }
}
