//! The nodes whose expressions have loops with a bound above the limit: for `bounds`.

ghost use Rattle.std.specs.Prelude.{◌≡◌, ◌++◌, OnOk};
ghost use Rattle.chart_forms.specs.LoopBounds.{high_node, high_part};
ghost use Rattle.msc_tree.specs.Views.{node_view};

use crate::bounds::has_high_loop;
use chart_text::note_if;
use graph_text::{GraphPart, GraphRule};
use msc_base::{Items, NoMemory, Place};
use msc_tree::NodeKind;

/// Notes the place of a line, where its node has such a loop.
fn node(places: &mut Items<Place>, place: Place, node: &NodeKind) -> Result<(), NoMemory>
    ensures { OnOk result (places.new ≡ places.old ++ high_node place (node_view node.now)) }
{
    match node {
        NodeKind::Refer(held) => note_if(places, place, has_high_loop(held)),
        NodeKind::Ends => Ok(()),
        NodeKind::Connect => Ok(()),
        NodeKind::Condition(_) => Ok(()),
        NodeKind::Frames(_) => Ok(()),
    }
}

/// The rule on bounds of loops in graphs.
pub(crate) struct GraphBounds;

impl GraphRule for GraphBounds {
    ghost told = { high_part };

    fn note(places: &mut Items<Place>, part: GraphPart<'_>) -> Result<(), NoMemory> {
        match part {
            GraphPart::Graph(_, _) => Ok(()),
            GraphPart::Line(_, held) => node(places, held.place, &held.node),
        }
    }
}
