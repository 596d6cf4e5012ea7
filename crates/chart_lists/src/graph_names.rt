//! The charts that the nodes of a graph name: for `drawn_instances`.

ghost use Rattle.std.specs.Prelude.{◌≡◌, ◌++◌, ◌∷◌, [], IfOk, OnOk, map};
ghost use Rattle.gate_ends.specs.NameViews.{names_view};
ghost use Rattle.msc_meaning.specs.InnerEvents.{charts_in, charts_in_all};
ghost use Rattle.msc_tree.specs.Expressions.{expressions};
ghost use Rattle.msc_tree.specs.Graphs.{graphs, lines};
ghost use Rattle.msc_tree.specs.Views.{expression_view, graph_view, line_view, node_view};
ghost use Rattle.woven_laws.specs.GraphNames.{frames_names, graph_names, lines_names, node_names};

use msc_base::{Name, NoMemory};
use msc_tree::{NodeKind, RawGraph, RawLine, RefExpr};
use std::alloc::Global;

/// Appends a name.
fn push<'a>(names: &mut Vec<&'a Name>, name: &'a Name) -> Result<(), NoMemory>
    ensures { OnOk result (names_view names.new.items ≡ names_view names.old.items ++ name.entry.now ∷ []) }
{
    names.push(name)?;
    Ok(())
}

/// Adds the names in an expression.
#[cycle(expression_names)]
fn add_expression<'a>(names: &mut Vec<&'a Name>, expression: &'a RefExpr) -> Result<(), NoMemory>
    ensures { OnOk result (names_view names.new.items ≡ names_view names.old.items ++ charts_in (expression_view expression.now)) }
{
    match expression {
        RefExpr::Empty => Ok(()),
        RefExpr::Chart(name) => push(names, name),
        RefExpr::Alt(parts) => add_expressions(names, parts.as_slice()),
        RefExpr::Par(parts) => add_expressions(names, parts.as_slice()),
        RefExpr::Seq(parts) => add_expressions(names, parts.as_slice()),
        RefExpr::Opt(part) => add_expression(names, part),
        RefExpr::Loop(_, _, part) => add_expression(names, part),
    }
}

/// Adds the names in the parts of an expression.
#[cycle(expression_names)]
fn add_expressions<'a>(names: &mut Vec<&'a Name>, parts: &'a [RefExpr]) -> Result<(), NoMemory>
    ensures { OnOk result (names_view names.new.items ≡ names_view names.old.items ++ charts_in_all (expressions (map expression_view parts.now))) }
{
    for part in parts {
        add_expression(names, part)?;
    }
    Ok(())
}

/// Adds the names in a graph.
#[cycle(graph_names)]
fn add_graph<'a>(names: &mut Vec<&'a Name>, graph: &'a RawGraph) -> Result<(), NoMemory>
    ensures { OnOk result (names_view names.new.items ≡ names_view names.old.items ++ graph_names (graph_view graph.now)) }
{
    add_lines(names, graph.lines.as_slice())
}

/// Adds the names in lines.
#[cycle(graph_names)]
fn add_lines<'a>(names: &mut Vec<&'a Name>, held: &'a [RawLine]) -> Result<(), NoMemory>
    ensures { OnOk result (names_view names.new.items ≡ names_view names.old.items ++ lines_names (lines (map line_view held.now))) }
{
    for line in held {
        add_node(names, &line.node)?;
    }
    Ok(())
}

/// Adds the names in a node.
#[cycle(graph_names)]
fn add_node<'a>(names: &mut Vec<&'a Name>, node: &'a NodeKind) -> Result<(), NoMemory>
    ensures { OnOk result (names_view names.new.items ≡ names_view names.old.items ++ node_names (node_view node.now)) }
{
    match node {
        NodeKind::Ends => Ok(()),
        NodeKind::Connect => Ok(()),
        NodeKind::Condition(_) => Ok(()),
        NodeKind::Refer(expression) => add_expression(names, expression),
        NodeKind::Frames(frames) => add_frames(names, frames.as_slice()),
    }
}

/// Adds the names in frames.
#[cycle(graph_names)]
fn add_frames<'a>(names: &mut Vec<&'a Name>, frames: &'a [RawGraph]) -> Result<(), NoMemory>
    ensures { OnOk result (names_view names.new.items ≡ names_view names.old.items ++ frames_names (graphs (map graph_view frames.now))) }
{
    for frame in frames {
        add_graph(names, frame)?;
    }
    Ok(())
}

/// The charts that the nodes of a graph name, with those of its frames, in the order of the text.
pub fn graph_names<'a>(alloc: Global, graph: &'a RawGraph) -> Result<Vec<&'a Name>, NoMemory>
    ensures { IfOk result (λ names. names_view names.items ≡ graph_names (graph_view graph.now)) }
{
    let mut names = Vec::new(alloc);
    add_graph(&mut names, graph)?;
    Ok(names)
}
