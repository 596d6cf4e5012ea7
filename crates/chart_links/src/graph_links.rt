//! Goes through the text of a graph and lists which charts its nodes name.

ghost use Rattle.std.specs.Prelude.{◌≡◌, ◌++◌, OnOk};
ghost use Rattle.std.specs.List.{flat_map};
ghost use Rattle.chart_links.specs.Links.{node_links, part_links};
ghost use Rattle.graph_text.specs.GraphPartViews.{part_view, parts_view};
ghost use Rattle.msc_tree.specs.Views.{node_view};

use crate::LinkList;
use crate::linking::expression;
use chart_text::Scope;
use graph_text::GraphPart;
use msc_base::{NoMemory, Place};
use msc_tree::NodeKind;

/// Lists the charts that a node at that depth names, with the place of its line.
fn node<'a>(
    links: &mut LinkList<'a>,
    place: Place,
    depth: u32,
    node: &'a NodeKind,
) -> Result<(), NoMemory>
    ensures { OnOk result (links.new ≡ links.old ++ node_links place depth (node_view node.now)) }
{
    match node {
        NodeKind::Refer(held) => expression(links, place, Scope::Whole, depth, held),
        NodeKind::Ends => Ok(()),
        NodeKind::Connect => Ok(()),
        NodeKind::Condition(_) => Ok(()),
        NodeKind::Frames(_) => Ok(()),
    }
}

/// Lists the charts that a part of a graph by itself names.
fn part<'a>(links: &mut LinkList<'a>, part: GraphPart<'a>) -> Result<(), NoMemory>
    ensures { OnOk result (links.new ≡ links.old ++ part_links (part_view part.entry)) }
{
    match part {
        GraphPart::Graph(_, _) => Ok(()),
        GraphPart::Line(depth, held) => node(links, held.place, depth, &held.node),
    }
}

/// Lists the charts that the parts of a graph name.
pub(crate) fn parts_of_graph<'a>(
    links: &mut LinkList<'a>,
    parts: &[GraphPart<'a>],
) -> Result<(), NoMemory>
    ensures { OnOk result (links.new ≡ links.old ++ flat_map part_links (parts_view parts.now)) }
{
    for held in parts {
        part(links, *held)?;
    }
    Ok(())
}
