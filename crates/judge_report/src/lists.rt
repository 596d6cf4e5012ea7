//! The lists of charts and of instances: for the command `list` of msc_cmd.

ghost use Rattle.std.specs.Prelude.{length, ◌≡◌, ◌++◌, IfOk, OnOk, IsOk, codes, flat_map, map, true};
ghost use Rattle.std.specs.List.{list_all};
ghost use Rattle.serde_json.specs.View.{view};
ghost use Rattle.chart_lists.specs.Listing.{is_graph_of, listed_of};
ghost use Rattle.msc_meaning.specs.Views.{entry_view, table_view};
ghost use Rattle.judge_report.specs.Lists.{array_data, chart_data, chart_line, chart_list, instance_data, instance_line, instance_list, kind_word, refined_words};
ghost use Rattle.judge_report.specs.Texts.{needs_no_escape};

use crate::lines::line_of_value;
use chart_lists::{is_graph, listed_count};
use msc_acceptance::Accepted;
use msc_base::{Name, NoMemory, Text};
use msc_meaning::ChartEntry;
use msc_tree::{Decl, DeclList};
use serde_json::{Value, json};
use std::alloc::{AllocError, Global};

/// The word for a chart's kind.
fn kind_of(chart: &ChartEntry) -> &'static str
    ensures { result.now ≡ kind_word (is_graph_of (entry_view chart.now)) }
{
    if is_graph(chart) { "graph" } else { "basic" }
}

/// The name as a text: its bytes are ASCII.
#[tactic(auto, using(crate::proofs::NameTexts::name_plain, crate::proofs::NameTexts::name_utf8))]
fn text_of(name: &Name) -> &str
    ensures text { result.now ≡ name.now }
    ensures plain { needs_no_escape name.now ≡ true }
{
    match str::from_utf8(name.bytes()) {
        Ok(text) => text,
        Err(_) => unreachable!(),
    }
}

/// How many instances of a chart of the document are listed.
fn count_of(alloc: Global, doc: &Accepted, chart: &ChartEntry) -> Result<usize, NoMemory>
    ensures { IfOk result (λ count. count ≡ length (listed_of (table_view doc.now) (entry_view chart.now))) }
{
    listed_count(alloc, doc.table(), chart)
}

/// Appends the line of a chart of a document.
fn push_chart(
    alloc: Global,
    doc: &Accepted,
    chart: &ChartEntry,
    bytes: &mut Vec<u8>,
) -> Result<(), NoMemory>
    ensures { OnOk result (bytes.new.items ≡ bytes.old.items ++ chart_line (table_view doc.now) (entry_view chart.now)) }
{
    let kind = kind_of(chart);
    let count = count_of(alloc, doc, chart)?;
    let rest = format!(in alloc; " {kind} {count}\n")?;
    bytes.extend_from_slice(chart.name.bytes())?;
    bytes.extend_from_slice(rest.as_bytes())?;
    Ok(())
}

#[tactic(auto, using(crate::proofs::ListTexts::more_items))]
/// The lines of charts of a document.
fn chart_lines(alloc: Global, doc: &Accepted, charts: &[ChartEntry]) -> Result<Vec<u8>, NoMemory>
    ensures { IfOk result (λ bytes. bytes.items ≡ flat_map (λ c. chart_line (table_view doc.now) (entry_view c)) charts.now) }
{
    let mut bytes = Vec::new(alloc);
    for chart in charts {
        push_chart(alloc, doc, chart, &mut bytes)?;
    }
    Ok(bytes)
}

/// Appends what the line of an instance says of the chart that refines it.
fn push_refined(refined: &Option<Name>, bytes: &mut Vec<u8>) -> Result<(), AllocError>
    ensures { OnOk result (bytes.new.items ≡ bytes.old.items ++ refined_words refined.now) }
{
    match refined {
        None => Ok(()),
        Some(chart) => {
            bytes.extend_from_slice(" decomposed as ".as_bytes())?;
            bytes.extend_from_slice(chart.bytes())
        }
    }
}

/// Appends the line of an instance.
fn push_instance(decl: &Decl, bytes: &mut Vec<u8>) -> Result<(), AllocError>
    ensures { OnOk result (bytes.new.items ≡ bytes.old.items ++ instance_line decl.now) }
{
    bytes.extend_from_slice(decl.name.bytes())?;
    push_refined(&decl.refined, bytes)?;
    bytes.push(b'\n')?;
    Ok(())
}

#[tactic(auto, using(crate::proofs::ListTexts::more_items))]
/// The lines of the instances.
fn instance_lines(alloc: Global, listed: &[Decl]) -> Result<Vec<u8>, AllocError>
    ensures { IfOk result (λ bytes. bytes.items ≡ flat_map instance_line listed.now) }
{
    let mut bytes = Vec::new(alloc);
    for decl in listed {
        push_instance(decl, &mut bytes)?;
    }
    Ok(bytes)
}

/// The object that tells a chart of a document.
fn chart_value(alloc: Global, doc: &Accepted, chart: &ChartEntry) -> Result<Value, NoMemory>
    ensures value { IfOk result (λ v. view v ≡ chart_data (table_view doc.now) (entry_view chart.now)) }
    ensures plain { needs_no_escape chart.now.name ≡ true }
{
    let name = text_of(&chart.name);
    let kind = kind_of(chart);
    let count = count_of(alloc, doc, chart)?;
    let value = json!(in alloc; {"instances": count, "kind": kind, "name": name})?;
    Ok(value)
}

/// The objects that tell charts of a document.
fn chart_values(
    alloc: Global,
    doc: &Accepted,
    charts: &[ChartEntry],
) -> Result<Vec<Value>, NoMemory>
    ensures values { IfOk result (λ values. map view values.items ≡ map (λ c. chart_data (table_view doc.now) (entry_view c)) charts.now) }
    ensures plain { IsOk result → list_all (λ c. needs_no_escape c.name) charts.now ≡ true }
{
    let mut values = Vec::new(alloc);
    for chart in charts {
        values.push(chart_value(alloc, doc, chart)?)?;
    }
    Ok(values)
}

/// The text that tells an instance.
fn instance_value(alloc: Global, decl: &Decl) -> Result<Value, AllocError>
    ensures value { IfOk result (λ v. view v ≡ instance_data decl.now) }
    ensures plain { needs_no_escape decl.now.name ≡ true }
{
    Value::try_from_str(alloc, text_of(&decl.name))
}

/// The texts that tell the instances.
fn instance_values(alloc: Global, listed: &[Decl]) -> Result<Vec<Value>, AllocError>
    ensures values { IfOk result (λ values. map view values.items ≡ map instance_data listed.now) }
    ensures plain { IsOk result → list_all (λ d. needs_no_escape d.name) listed.now ≡ true }
{
    let mut values = Vec::new(alloc);
    for decl in listed {
        values.push(instance_value(alloc, decl)?)?;
    }
    Ok(values)
}

/// The object that tells the charts.
fn charts_value(alloc: Global, values: Vec<Value>) -> Result<Value, AllocError>
    ensures { IfOk result (λ v. view v ≡ array_data (codes "charts") (map view values.items)) }
{
    json!(in alloc; {"charts": values})
}

/// The object that tells the instances.
fn instances_value(alloc: Global, values: Vec<Value>) -> Result<Value, AllocError>
    ensures { IfOk result (λ v. view v ≡ array_data (codes "instances") (map view values.items)) }
{
    json!(in alloc; {"instances": values})
}

/// The list of a document's charts: a line for each, or as JSON if that is asked.
pub fn chart_list_text(alloc: Global, doc: &Accepted, json: bool) -> Result<Text, NoMemory>
    ensures { IfOk result (λ text. text ≡ chart_list json (table_view doc.now)) }
{
    if json {
        let values = chart_values(alloc, doc, doc.as_slice())?;
        let value = charts_value(alloc, values)?;
        line_of_value(alloc, &value)
    } else {
        let bytes = chart_lines(alloc, doc, doc.as_slice())?;
        Ok(Text::from_vec(bytes))
    }
}

#[tactic(auto, using(crate::proofs::ListTexts::instances_no_float, crate::proofs::ListTexts::instances_shown))]
/// The list of a chart's instances: a line for each, or as JSON if that is asked.
pub fn instance_list_text(alloc: Global, listed: &DeclList, json: bool) -> Result<Text, NoMemory>
    ensures { IfOk result (λ text. text ≡ instance_list json listed.now) }
{
    if json {
        let values = instance_values(alloc, listed.as_slice())?;
        let value = instances_value(alloc, values)?;
        line_of_value(alloc, &value)
    } else {
        let bytes = instance_lines(alloc, listed.as_slice())?;
        Ok(Text::from_vec(bytes))
    }
}
