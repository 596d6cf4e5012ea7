//! The first line of a graph above the limit.

ghost use Rattle.std.specs.Prelude.{◌≡◌};
ghost use Rattle.graph_rules.specs.GraphRules.{HasFurtherLine, InGraphs};
ghost use Rattle.graph_rules.specs.GraphViews.{earlier_of, graphs_view};
ghost use Rattle.graph_rules.specs.StuckLines.{HasLineAt, line_shape};
ghost use Rattle.graph_shapes.specs.GraphShapes.{shape_of};
ghost use Rattle.msc_base.specs.Places.{IsLeast};
ghost use Rattle.msc_base.specs.declared.limits.TheConstants.Limits.{NODE_LINES};
ghost use Rattle.msc_tree.specs.Views.{graph_view};

use msc_base::{Limits, Place, earlier_place};
use msc_tree::{RawGraph, RawLine};

/// Where the label of a line stands.
pub(crate) fn place_of(line: &RawLine) -> Place
    ensures { result ≡ (line_shape line.now).place }
{
    line.place
}

/// The label of the first of these lines above the limit.
fn above_limit(lines: &[RawLine]) -> Option<Place>
    ensures { IsLeast (HasLineAt lines.now NODE_LINES) result }
{
    let limit = Limits::NODE_LINES as usize;
    if limit < lines.len() {
        Some(place_of(&lines[limit]))
    } else {
        None
    }
}

/// The label of the first line of the graph above the limit.
fn further_in(graph: &RawGraph) -> Option<Place>
    ensures { IsLeast (HasFurtherLine (shape_of (graph_view graph.now))) result }
{
    above_limit(graph.lines.as_slice())
}

/// The earlier of two places, where there are any.
pub(crate) fn earlier(so_far: Option<Place>, more: Option<Place>) -> Option<Place>
    ensures { result ≡ earlier_of so_far more }
{
    match more {
        None => so_far,
        Some(place) => earlier_place(so_far, place),
    }
}

/// The earliest label of a line above the limit of a graph. It takes no memory.
pub fn further_line(graphs: &[&RawGraph]) -> Option<Place>
    ensures { IsLeast (InGraphs HasFurtherLine (graphs_view graphs.now)) result }
{
    let mut found = None;
    for graph in graphs {
        found = earlier(found, further_in(graph));
    }
    found
}
