//! Goes through the text of a chart and lists what it says of charts. It judges nothing.

ghost use Rattle.std.specs.Prelude.{◌≡◌, ◌+◌, ◌++◌, IfOk, OnOk, map};
ghost use Rattle.std.specs.List.{flat_map};
ghost use Rattle.chart_links.specs.Links.{chart_links, decl_links, expression_links, item_links, parts_links, passage_links, statement_links, used_links};
ghost use Rattle.chart_text.specs.PassageViews.{passage_view, scope_view, standing_view, text_view};
ghost use Rattle.chart_text.specs.Texts.{chart_text as text_of, covered_scope};
ghost use Rattle.graph_text.specs.GraphPartViews.{parts_view};
ghost use Rattle.graph_text.specs.GraphTexts.{graph_text as drawn_of};
ghost use Rattle.msc_tree.specs.Expressions.{expressions};
ghost use Rattle.msc_tree.specs.Views.{chart_view, content_view, expression_view, form_view, statement_view};

use crate::graph_links::parts_of_graph;
use crate::{Link, LinkList};
use chart_text::{Passage, Scope, Standing};
use graph_text::{GraphPart, graph_text};
use msc_base::{NoMemory, Place};
use msc_tree::{Content, Cover, Decl, RawChart, RawForm, RefExpr, Statement};
use std::alloc::Global;

/// The instances that a part covers: those of its shared list, where it has one, else its own.
fn covered<'a>(scope: Scope<'a>, own: Scope<'a>, shared: &'a Option<Cover>) -> Scope<'a>
    ensures { scope_view result ≡ covered_scope (scope_view scope.entry) (scope_view own.entry) shared.now }
{
    match shared {
        None => own,
        Some(Cover::All) => scope,
        Some(Cover::Listed(names)) => {
            if names.len() == 0 {
                own
            } else {
                Scope::Listed(names)
            }
        }
    }
}

/// So many levels further down. More than 32 bits hold would want more memory than there is.
fn deeper(depth: u32, levels: u32) -> Result<u32, NoMemory>
    ensures { IfOk result (λ deeper. deeper ≡ depth + levels) }
{
    depth.checked_add(levels).ok_or(NoMemory)
}

/// Lists the charts that an expression names.
#[cycle(expressions)]
pub(crate) fn expression<'a>(
    links: &mut LinkList<'a>,
    place: Place,
    scope: Scope<'a>,
    depth: u32,
    held: &'a RefExpr,
) -> Result<(), NoMemory>
    ensures { OnOk result (links.new ≡ links.old ++ expression_links place (scope_view scope.entry) depth (expression_view held.now)) }
{
    match held {
        RefExpr::Empty => Ok(()),
        RefExpr::Chart(name) => links.push(Link::Refers(name, place, scope, depth)),
        RefExpr::Alt(list) => parts(links, place, scope, deeper(depth, 1)?, list.as_slice()),
        RefExpr::Par(list) => parts(links, place, scope, deeper(depth, 1)?, list.as_slice()),
        RefExpr::Seq(list) => parts(links, place, scope, deeper(depth, 1)?, list.as_slice()),
        RefExpr::Opt(part) => expression(links, place, scope, deeper(depth, 1)?, part),
        RefExpr::Loop(_, _, part) => expression(links, place, scope, deeper(depth, 1)?, part),
    }
}

/// Lists the charts that the parts of an expression name.
#[cycle(expressions)]
fn parts<'a>(
    links: &mut LinkList<'a>,
    place: Place,
    scope: Scope<'a>,
    depth: u32,
    list: &'a [RefExpr],
) -> Result<(), NoMemory>
    ensures { OnOk result (links.new ≡ links.old ++ parts_links place (scope_view scope.entry) depth (expressions (map expression_view list.now))) }
{
    for part in list {
        expression(links, place, scope, depth, part)?;
    }
    Ok(())
}

/// Lists the charts that an item by itself names.
fn item<'a>(
    links: &mut LinkList<'a>,
    standing: Standing<'a>,
    place: Place,
    form: &'a RawForm,
) -> Result<(), NoMemory>
    ensures { OnOk result (links.new ≡ links.old ++ item_links (standing_view standing.entry) place (form_view form.now)) }
{
    match form {
        RawForm::Reference(held) => {
            let scope = covered(standing.scope, standing.side.own(), &held.shared);
            let depth = deeper(standing.depth, 3)?;
            expression(links, place, scope, depth, &held.expr)
        }
        RawForm::Single(_) => Ok(()),
        RawForm::Coregion(_) => Ok(()),
        RawForm::Condition(_, _) => Ok(()),
        RawForm::Inline(_) => Ok(()),
        RawForm::Stop => Ok(()),
    }
}

/// Lists the chart that refines the declared instance, where one does.
fn decl<'a>(links: &mut LinkList<'a>, decl: &'a Decl) -> Result<(), NoMemory>
    ensures { OnOk result (links.new ≡ links.old ++ decl_links decl.now) }
{
    match &decl.refined {
        None => Ok(()),
        Some(chart) => links.push(Link::Refines(&decl.name, chart, decl.place)),
    }
}

/// Lists the charts that a statement without its items names.
fn statement<'a>(links: &mut LinkList<'a>, statement: &'a Statement) -> Result<(), NoMemory>
    ensures { OnOk result (links.new ≡ links.old ++ statement_links (statement_view statement.now)) }
{
    match statement {
        Statement::Column(held, _) => decl(links, held.decl()),
        Statement::One(_, _) => Ok(()),
        Statement::Covered(_, _) => Ok(()),
        Statement::Heading(held) => decl(links, held.decl()),
        Statement::Ended(_) => Ok(()),
    }
}

/// Lists the charts that a passage names.
fn passage<'a>(links: &mut LinkList<'a>, passage: Passage<'a>) -> Result<(), NoMemory>
    ensures { OnOk result (links.new ≡ links.old ++ passage_links (passage_view passage.entry)) }
{
    match passage {
        Passage::Head(held) => decl(links, held),
        Passage::Statement(_, _, held) => statement(links, held),
        Passage::Item(standing, held) => item(links, standing, held.place.get(), &held.form),
        Passage::Operand(_, _) => Ok(()),
    }
}

/// Lists the charts that a text names.
fn passages<'a>(links: &mut LinkList<'a>, text: &[Passage<'a>]) -> Result<(), NoMemory>
    ensures { OnOk result (links.new ≡ links.old ++ flat_map passage_links (text_view text.now)) }
{
    for held in text {
        passage(links, *held)?;
    }
    Ok(())
}

/// Lists the charts that a chart of that text and these parts names.
fn used<'a>(
    links: &mut LinkList<'a>,
    content: &Content,
    text: &[Passage<'a>],
    parts: &[GraphPart<'a>],
) -> Result<(), NoMemory>
    requires { parts_view parts.now ≡ drawn_of (content_view content.now) }
    ensures { OnOk result (links.new ≡ links.old ++ used_links (content_view content.now) (flat_map passage_links (text_view text.now))) }
{
    match content {
        Content::Events(_) => passages(links, text),
        Content::Graph(_) => parts_of_graph(links, parts),
    }
}

/// What a chart, whose text that is, says of charts, in the order of the text.
pub fn chart_links<'a>(
    alloc: Global,
    chart: &'a RawChart,
    text: &[Passage<'a>],
) -> Result<LinkList<'a>, NoMemory>
    requires { text_view text.now ≡ text_of (chart_view chart.now) }
    ensures { IfOk result (λ links. links ≡ chart_links (chart_view chart.now)) }
{
    let parts = graph_text(alloc, &chart.content)?;
    let mut links = LinkList::new(alloc);
    used(&mut links, &chart.content, text, parts.as_slice())?;
    Ok(links)
}
